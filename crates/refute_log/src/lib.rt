//! Refutation logs: records of closed paths by rising path, and their text.
#![tactic(auto)]

mod error;
mod log;
mod paths;
mod piece;
mod print;
mod read;
mod record;
#[cfg(test)]
mod tests;
mod threads;

pub use error::LogTextError;
pub use log::Log;
pub use mill_model::Entry;
pub use paths::compare;
pub use piece::{Piece, Run};
pub use print::{print_log, put_log};
pub use read::{parse_log, read_log};
