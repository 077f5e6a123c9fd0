use crate::{Path, Prices};

/// How a record closes its path.
#[derive(Debug, Drop)]
pub enum Closing {
    /// By its children, each of which has a record of its own.
    Split,
    /// By the loss of its plan: the path gives each order a group.
    Leaf,
    /// By prices that are worth too much.
    Priced(Prices),
    /// By another path, whose plans from here on lose no more.
    Dominated(Path),
}

/// A record of a log.
#[derive(Debug, Drop)]
pub struct Entry {
    pub path: Path,
    pub closing: Closing,
}
