//! The nodes of the tree of paths: the groups of a path, its children, and the plan of a leaf.
#![tactic(auto)]

mod groups;
mod live_key;
mod node;
#[cfg(test)]
mod tests;

pub use groups::join_group;
pub use live_key::{KeyGroup, LiveKey, NO_COLOUR, equal_keys_are_same_live_keys};
pub use node::NodeState;
