//! Texts of lines: a line is cut into words at single spaces, and words are canonical numbers. The
//! readers of answers and of logs share these pieces, and so do their printers. White space, and
//! what digits stand for, are the same in every text.
#![tactic(auto)]

mod digits;
mod lines;
mod print;
#[cfg(test)]
mod tests;
mod words;

pub use digits::leading_digits;
pub use lines::{Lines, is_end, is_white};
pub use print::{put_named, put_number, put_ordinals, put_signed_numbers};
pub use words::Words;
