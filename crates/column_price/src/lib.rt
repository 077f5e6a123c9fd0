//! Prices at a node of the tree: the greedy ascent, one sweep, and what prices are worth.
#![tactic(auto)]

mod ascent;
mod calls;
mod node_prices;
mod numbers;
mod slacks;
mod sweep;
mod two_colours;

pub use calls::{ascend, improve, worth};
pub use node_prices::NodePrices;
