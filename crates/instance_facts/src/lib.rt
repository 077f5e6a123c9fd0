//! What both sides, solving and judging, ask of an instance: the first order that no slab holds.
//! That a table of charges gives a plan the loss of the definition is a lemma here.
#![tactic(auto)]

mod heavy;

pub use heavy::first_heavy;
