//! A small instance that runs are tried on, and how many records a run has.

use refute_log::Run;

/// Three orders of three colours. The empty path and its one child are split; the child has two
/// children. So four records refute each lesser loss than 4.
pub const THREE_ORDERS: &str = "1 4\n3\n3\n1 1\n1 2\n2 3\n";

/// How many records a run has.
pub fn record_count(run: &Run) -> usize {
    let mut count = 0usize;
    for piece in &run.pieces {
        count = count.saturating_add(piece.entries().len());
    }
    count
}
