//! The symmetry of equal orders: the orders of an instance in rank, with their classes, and plans
//! that are sorted within the classes.
#![tactic(auto)]

pub mod laws;
mod numbered;
mod ranked;
#[cfg(test)]
mod tests;
mod threads;

pub use ranked::Ranked;
