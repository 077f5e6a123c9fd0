//! Deques of paths, one for each worker: the worker pushes and pops at one end, and the others
//! steal at the other one, each in single steps and without a lock. What holds between any two
//! steps is a rule over the paths in the deque and over what each end knows: no path is lost, and
//! none comes out twice.
#![tactic(auto)]

mod gathered;
mod own;
mod rule;
mod thief;
mod threads;

pub use gathered::{Gathered, gather};
pub use own::{Own, deque};
pub use thief::Thief;
