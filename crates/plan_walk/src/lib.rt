//! Walks through the plans of an instance, in search of one that loses less.
//!
//! A walk keeps a draft, and lays a few of its slabs anew in each step, by numbers that it draws.
//! No clause says how: what a draft comes to is judged at the end, as any plan would be.
#![tactic(auto)]

mod dice;
mod draft;
mod hand;
mod relay;
mod splits;
mod walk;

pub use walk::better_plan;
