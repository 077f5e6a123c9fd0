//! Lists and trees that are linked by number: the orders of each slab of a plan, and a forest.
#![tactic(auto)]

mod chains;
mod nodes;
mod slab_links;
#[cfg(test)]
mod tests;
mod tree_links;

pub use slab_links::SlabLinks;
pub use tree_links::TreeLinks;
