//! The words that all workers share: the least loss that any of them knows, and the tickets that
//! they draw, with the halt beside them. Each call is one step on a word or a few, without a lock,
//! and what holds between any two steps is a rule over the word and over what the workers' seats
//! know.
#![tactic(auto)]

mod best;
mod best_rule;
mod best_seat;
mod meter;
mod meter_rule;
mod meter_seat;
#[cfg(test)]
mod tests;
mod threads;

pub use best::Best;
pub use best_seat::BestSeat;
pub use meter::Meter;
pub use meter_seat::MeterSeat;
