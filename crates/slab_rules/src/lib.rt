//! Slabs that orders join one by one: which order still fits, and what a slab carries.
#![tactic(auto)]

pub mod laws;
mod open_slab;
#[cfg(test)]
mod tests;

pub use open_slab::OpenSlab;
