use crate::command::Command;
use mill_model::Limits;

/// A command, with the numbers of its options.
#[derive(Clone, Copy, Debug, PartialEq, Eq)]
pub struct Job {
    pub command: Command,
    /// How far a search goes.
    pub limits: Limits,
    /// How many colours a slab may carry.
    pub p: u8,
    /// Where the numbers of a generated instance begin.
    pub seed: u32,
    /// How many orders a generated instance has.
    pub orders: u16,
}

/// The words ask for nothing that the program does.
#[derive(Clone, Copy, Debug, PartialEq, Eq)]
pub struct Usage {
    /// The place of the first word that is wrong, counted from 0, or the number of words where one
    /// is missing.
    pub word: usize,
}
