//! One step of a worker, over any hand.
#![tactic(auto)]

mod decide;
mod event;
mod hand;
mod leaving;
mod parts;
mod setting;
mod steps;
mod work;
mod worker;

pub use event::Event;
pub use hand::Hand;
pub use parts::{Paths, Phase, Turn, Verdict};
pub use work::STORE_ROOM;
pub use worker::{Worker, WorkerEnd};
