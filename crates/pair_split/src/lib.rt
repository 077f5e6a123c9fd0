//! The exact split of two slabs: of all ways to lay some orders on two legal slabs, or on one, the
//! cheapest. A table of bits has which loads the first slab can reach, by the numbers of colours
//! on both slabs; one more order is a shift.
#![tactic(auto)]

mod back;
mod layout;
mod loads;
mod split;
mod splitter;
mod spread;
mod state;
mod table;
mod words;

pub use splitter::Splitter;
