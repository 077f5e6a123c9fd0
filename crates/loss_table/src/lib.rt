//! What a slab of each load is charged where the mill makes some sizes: the steel left over.
#![tactic(auto)]

mod charging;
#[cfg(test)]
mod tests;

pub use charging::{loss_charges, size_for};
