//! Paths that were split, by their live keys: one of them may make another path needless.
#![tactic(auto)]

mod store;
#[cfg(test)]
mod tests;

pub use store::{Entry, Noted, Store};
