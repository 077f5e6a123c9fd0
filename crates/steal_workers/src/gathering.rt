//! What workers leave, put together: their pieces, their unclosed paths and the best plan.
ghost use Rattle.std.specs.Prelude.{◌≡◌, ◌++◌, IfOk, OnOk, flat_map, map};
ghost use Rattle.search_step.specs.Leaving.{paths_left};
ghost use Rattle.steal_workers.specs.Rounds.{best_left};

use mill_model::{OutOfMemory, Path, Start};
use refute_log::Piece;
use search_step::WorkerEnd;

/// Appends the pieces of workers, and the paths that they hold or let wait, and gives the best of a
/// plan and theirs.
pub(crate) fn gather_work(
    ends: Vec<WorkerEnd>,
    pieces: &mut Vec<Piece>,
    unclosed: &mut Vec<Path>,
    start: Start,
) -> Result<Start, OutOfMemory>
    ensures pieces { OnOk result (map (λ piece. piece.entries) pieces.new.items
        ≡ map (λ piece. piece.entries) pieces.old.items
        ++ map (λ end. end.piece.entries) ends.items) }
    ensures unclosed { OnOk result (unclosed.new.items
        ≡ unclosed.old.items ++ flat_map paths_left ends.items) }
    ensures best { IfOk result (λ best. best ≡ best_left start ends.items) }
{
    let mut best = start;
    for end in ends {
        best = end.add_to(pieces, unclosed, best)?;
    }
    Ok(best)
}
