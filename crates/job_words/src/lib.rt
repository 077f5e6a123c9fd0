//! The words after the program's name: the commands and options that it serves, the job that words
//! ask for, and the line that says how the program is used.
#![tactic(auto)]

mod command;
mod job;
mod laws;
mod numbers;
mod option;
mod read;
mod table;
mod usage;

pub use command::Command;
pub use job::{Job, Usage};
pub use laws::rules_of_the_options;
pub use read::read_words;
pub use usage::write_usage;

#[cfg(test)]
mod tests;
