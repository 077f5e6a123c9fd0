//! The least slacks of slabs over all legal sets of the orders that come later, by a knapsack over
//! those orders by load and colours.
#![tactic(auto)]

mod best_prices;
mod colour_layers;
mod gains;
mod knapsack;
mod minima;
mod orders_by_colour;

pub use knapsack::{Knapsack, orders_from};
pub use minima::{least_new, least_on};
