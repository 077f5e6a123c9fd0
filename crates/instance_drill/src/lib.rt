//! Instances made from a seed, so that a search can be tried without data: the same seed always
//! gives the same one.
#![tactic(auto)]

mod draws;
mod drill;
mod laws;
mod weight;

pub use drill::drill_instance;
pub use laws::instance_of_seed_one;
pub use weight::whole_weight;

#[cfg(test)]
mod tests;
