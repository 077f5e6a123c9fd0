//! The pieces of a run with no unclosed path become one log.
#![tactic(auto)]

mod pieces;
mod record_tree;
#[cfg(test)]
mod tests;
mod tree_walk;

pub use pieces::merge;
