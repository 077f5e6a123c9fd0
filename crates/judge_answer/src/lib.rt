//! What is said of an answer to an instance: of its plan, of the loss that it states, and of its
//! log, in this order.
#![tactic(auto)]

mod proof;
mod stated;

pub use proof::verify;
pub use stated::check;
