//! Moves: the orders of one or two slabs are laid anew where that loses less, until no pair of
//! slabs can be bettered so or the moves are spent.
#![tactic(auto)]

mod by_colour;
mod closed;
mod coloured;
pub mod laws;
mod mover;
mod moves;
mod pair;
mod room;
mod scan;
mod slabs;
mod tries;
mod walking;

pub use closed::Closed;
pub use moves::pair_moves;
pub use walking::walk;
