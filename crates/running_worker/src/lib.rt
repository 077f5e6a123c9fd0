//! One worker that runs beside others, with what it owns and what all of a round share, to its end.
#![tactic(auto)]

mod gate;
mod job;
mod round;
mod running;
mod running_hand;

pub use gate::{Gate, OpenGate};
pub use job::{Job, JobEnd};
pub use round::Round;
pub use running::work;
pub use running_hand::RunningHand;
