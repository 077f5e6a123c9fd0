//! The program's commands, from the words and the bytes that it is given to its status and text.
#![tactic(auto)]

mod commands;
mod front;
mod laws;
mod plain;
mod search;
mod searcher;
mod serving;
mod streams;
mod top;

pub use job_words::{Command, Job, Usage, read_words};
pub use laws::{answer_is_checked, proved_is_verified};
pub use plain::run_plain;
pub use steal_workers::{Gate, OpenGate};
pub use streams::{RunEnd, run_streams};
pub use top::{needs_threads, run};
