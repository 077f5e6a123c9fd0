//! What the program tells: a refusal of its input, an answer to an instance, a judgement on an
//! answer, or what came of a search of an instance that was made; of each the text and the status.
#![tactic(auto)]

mod judgement;
mod laws;
mod line;
mod outcome;
mod refusal;
mod solution;
mod status;
mod stop;
mod summary;
#[cfg(test)]
mod tests;

pub use judgement::Judgement;
pub use laws::status_numbers;
pub use outcome::Outcome;
pub use refusal::Refusal;
pub use solution::Solution;
pub use status::{
    ACCEPTED, FEASIBLE, INFEASIBLE, OPTIMAL, OUT_OF_MEMORY, READ_FAULT, REFUSED, REJECTED,
    WRITE_FAULT, WRONG_WORDS,
};
pub use stop::Stop;
pub use summary::{Ending, Summary};
