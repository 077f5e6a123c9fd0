//! What a worker is about to do, what became of a step, and how a path is closed.
ghost use Rattle.std.specs.Prelude.{ℕ, List};

use mill_model::{Path, Prices, Start};
use nogood_store::Entry;
use std::marker::Model;

/// What a worker does next.
#[derive(Clone, Copy, Debug, Drop, PartialEq, Eq)]
pub enum Phase {
    Resting,
    Taking,
    Stealing,
    Holding,
    Halting,
    Ended,
    Bounding,
    Closing,
    Publishing,
    Pushing,
}

/// What became of a step.
#[derive(Clone, Copy, Debug, Drop, PartialEq, Eq)]
pub enum Turn {
    Moved,
    /// A ticket was drawn.
    Drew,
    /// No path came.
    Idle,
    /// The worker does nothing more, unless the search goes on.
    Stopped,
    OutOfMemory,
}

/// Paths, seen as their list.
#[derive(Debug, Drop)]
pub struct Paths {
    pub(crate) list: Vec<Path>,
}

impl Model for Paths {
    ghost Value = { List (List ℕ) };

    ghost view = { λ p. p.list.items };
}

/// How a path is closed: a leaf that loses less or not, by prices, by another path, or by its
/// children, with what is noted of it.
#[derive(Debug, Drop)]
pub enum Verdict {
    Better(Start),
    Plain,
    ByPrices(Prices),
    ByOther(Path),
    Open(Paths, Option<Entry>),
}
