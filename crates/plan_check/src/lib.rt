//! What a plan is worth, whoever made it: its loss where it is legal, else the lowest slab that
//! isn't.
#![tactic(auto)]

mod judging;
mod tallies;
#[cfg(test)]
mod tests;
mod verdict;

pub use judging::judge;
pub use tallies::slab_loads;
pub use verdict::Verdict;
