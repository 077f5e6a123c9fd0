//! Answers to an instance and their text: a plan that is optimal or feasible, or an order that no
//! slab carries.
#![tactic(auto)]

mod answer;
mod error;
mod line;
mod print;
mod read;
#[cfg(test)]
mod tests;

pub use answer::Answer;
pub use error::AnswerTextError;
pub use print::{print_answer, put_answer, write_answer};
pub use read::parse_answer;
