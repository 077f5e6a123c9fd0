//! The least slacks of groups under prices, by a knapsack over the orders that come later. A group
//! is known here by its key: its load, how many colours it has, and which of them come later.
//!
//! A layer of tables has, for each load, the best price of the sets of at most so many colours. The
//! colours that a group has already cost it nothing, so its tables leave their orders out, and
//! these are let in last, into one table. Groups that wait for the same colours share their tables;
//! the others are halved again and again, and each half lets in what the other half alone leaves
//! out (halving.rt). A layer is looked at up to the load that its sets reach (colour_layers.rt).
#![tactic(auto)]

mod best_prices;
mod colour_layers;
mod halving;
mod key;
mod later_orders;
mod least_slack;
mod limits;
mod parts;

pub use halving::{SlackTables, least_slacks};
pub use key::{Key, NO_COLOUR};
pub use later_orders::has_colour;
pub use limits::SlabLimits;
