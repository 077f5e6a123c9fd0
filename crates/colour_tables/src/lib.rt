//! The least slacks of a slab over all sets of orders that may join it, where a slab carries at
//! most two colours.
#![tactic(auto)]

mod by_colour;
mod colour_rows;
mod fill;
mod gain;
mod grouped;
mod items;
mod known;
mod slab;
mod slabs;
mod table;
mod tables;
mod tables_made;
mod tops;
mod turn;

pub use grouped::ColourTables;
