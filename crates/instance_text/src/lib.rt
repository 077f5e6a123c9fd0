//! The text of an instance: reading it, each refusal at the first wrong token, and printing it in
//! canonical form.
#![tactic(auto)]

mod blank;
mod error;
mod field;
mod print;
mod read;
mod reader;

pub use blank::first_not_blank;
pub use error::InstanceError;
pub use field::Field;
pub use print::print_instance;
pub use read::read_instance;

#[cfg(test)]
mod tests;
