//! Workers that run beside one another, each in a thread of its own, steal paths from one another's
//! deques, and share the least loss and the tickets.
#![tactic(auto)]

mod ending;
mod gathering;
mod jobs;
mod lending;
mod parting;
mod round;
mod running;
mod seats;
mod words;

pub use running::run_workers;
pub use running_worker::{Gate, OpenGate};
