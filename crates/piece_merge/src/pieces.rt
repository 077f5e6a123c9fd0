//! The pieces of a whole run are merged into one log, whose records rise by path.
ghost use Rattle.std.specs.Prelude.{◌≡◌, ◌<◌, ◌≤◌, ◌^◌, true, length, All, IfOk};
ghost use Rattle.std.specs.List.Sorted.{IsPermutation};
ghost use Rattle.mill_model.specs.Conserved.{joined};
ghost use Rattle.refute_log.specs.Fits.{fits};
ghost use Rattle.refute_log.specs.Logged.{IsLog};
ghost use Rattle.piece_merge.specs.Merging.{records_of, AreOfAWholeRun, IsCompleteLogOf};
ghost use Rattle.piece_merge.specs.Merging.{HasAllFronts, IsRecordedOnce, NamesSettledPaths};
ghost use Rattle.piece_merge.specs.RecordTree.{IsRecordTree, present};

use crate::record_tree::RecordTree;
use mill_model::{Entry, MAX_NODES, OutOfMemory};
use refute_log::{Log, Piece};
use std::alloc::Global;

/// The log of the records of these pieces. It is complete, so it refutes each loss for which its
/// records are sound. The records are moved.
pub fn merge(alloc: Global, orders: u16, pieces: Vec<Piece>) -> Result<Log, OutOfMemory>
    requires whole { AreOfAWholeRun (records_of pieces.items) }
    requires fit { All (λ entry. fits orders entry ≡ true) (joined (records_of pieces.items)) }
    requires few { length (joined (records_of pieces.items)) ≤ MAX_NODES }
    ensures records { IfOk result (λ log.
        IsPermutation (joined (records_of pieces.items)) log.entries) }
    ensures orders { IfOk result (λ log. log.orders ≡ orders) }
    ensures log { IfOk result IsLog }
    ensures complete { IfOk result (λ log.
        IsCompleteLogOf (records_of pieces.items) log.entries) }
    ensures named { IfOk result (λ log. NamesSettledPaths log.entries) }
{
    let entries = join(alloc, pieces)?;
    let count = entries.len();
    let tree = tree_of(alloc, entries)?;
    let rising = tree.into_rising(alloc, count)?;
    Ok(Log::from_rising(orders, rising))
}

// The records of all pieces, piece by piece.
fn join(alloc: Global, pieces: Vec<Piece>) -> Result<Vec<Entry>, OutOfMemory>
    ensures { IfOk result (λ entries. entries.items ≡ joined (records_of pieces.items)) }
{
    let mut pieces = pieces.into_iter();
    let mut entries = match pieces.next() {
        Some(first) => first.into_entries(),
        None => return Ok(Vec::new(alloc)),
    };
    for piece in pieces {
        entries.append(&mut piece.into_entries())?;
    }
    Ok(entries)
}

// The tree of the paths of these records.
fn tree_of(alloc: Global, entries: Vec<Entry>) -> Result<RecordTree, OutOfMemory>
    requires once { IsRecordedOnce entries.items }
    requires fronts { HasAllFronts entries.items }
    requires short { All (λ entry. length entry.path < 2 ^ 16) entries.items }
    requires few { length entries.items ≤ MAX_NODES }
    ensures tree { IfOk result (λ tree. IsRecordTree tree.links tree.records.items) }
    ensures records { IfOk result (λ tree.
        IsPermutation entries.items (present tree.records.items)) }
{
    let mut tree = RecordTree::new(alloc)?;
    for entry in entries {
        tree.place(entry)?;
    }
    Ok(tree)
}
