//! From an instance to an answer: a best plan, the best that a bounded search has found and the run
//! behind it, or the first order that no slab holds. The search goes on one thread, or by workers
//! that run beside each other.
#![tactic(auto)]

mod answer;
mod running;
mod scheduled;
mod start;

pub use running::{prove_running, solve_running};
pub use scheduled::{prove, solve};
