//! Workers that take turns on one thread: a replay of a schedule, and the end of a run that was
//! left.
#![tactic(auto)]

mod crew;
mod deques;
mod going_on;
mod plain_hand;
mod replays;
mod turns;

pub use plain_hand::PlainHand;
pub use replays::{finish, replay};
