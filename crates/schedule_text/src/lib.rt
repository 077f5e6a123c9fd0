//! The text of a schedule: which worker takes a step, one step after the other.
#![tactic(auto)]

mod error;
mod laws;
mod read;
#[cfg(test)]
mod tests;
mod tokens;

pub use error::ScheduleTextError;
pub use laws::{one_schedule, one_wrong_token};
pub use read::read_schedule;
