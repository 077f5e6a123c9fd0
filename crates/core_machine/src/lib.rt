//! The machine of workers on one thread: its states and events, which compute, and what its runs
//! keep. There is no code here but functions that do nothing: on each stands a law, and in the
//! module `rows` small runs are computed.
#![tactic(auto)]

mod laws;
pub mod rows;

pub use laws::{each_run_ends, events_are_steps, runs_keep_their_promise};
