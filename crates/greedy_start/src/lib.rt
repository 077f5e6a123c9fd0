//! Greedy starts: the first-fit plan of an instance, and the better of its first-fit and its
//! best-fit plan, each order going to a slab in rank.
#![tactic(auto)]

mod open_path;
mod start;
#[cfg(test)]
mod tests;

pub use start::{best_start, first_fit};
