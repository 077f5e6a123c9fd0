//! What a worker leaves, put beside what other workers left.
ghost use Rattle.std.specs.Prelude.{◌≡◌, ◌++◌, ◌∷◌, [], IfOk, OnErr, OnOk, option_to_list};
ghost use Rattle.search_step.specs.Leaving.{better_of, paths_left};

use crate::worker::WorkerEnd;
use mill_model::{OutOfMemory, Path, Start};
use refute_log::Piece;

impl WorkerEnd {
    /// Adds what the worker leaves to what others left: its records as one more piece, and behind
    /// their paths the one that it holds and those that wait. Gives the better of a plan and its
    /// own, of equal ones the given one. Where memory is wanted, both lists stay as they were.
    pub fn add_to(
        self,
        pieces: &mut Vec<Piece>,
        unclosed: &mut Vec<Path>,
        start: Start,
    ) -> Result<Start, OutOfMemory>
        ensures pieces { OnOk result (pieces.new.items ≡ pieces.old.items ++ self.piece ∷ []) }
        ensures unclosed { OnOk result (unclosed.new.items
            ≡ unclosed.old.items ++ paths_left self) }
        ensures pieces_stay { OnErr result (pieces.new.items ≡ pieces.old.items) }
        ensures unclosed_stay { OnErr result (unclosed.new.items ≡ unclosed.old.items) }
        ensures best { IfOk result (λ best. best ≡ better_of start self.best) }
    {
        let WorkerEnd {
            piece,
            held,
            waiting,
            best,
        } = self;
        pieces.reserve(1)?;
        append_all(unclosed, held, waiting)?;
        pieces.push_reserved(piece);
        Ok(better_of(start, best))
    }
}

// Appends a path, where there is one, and others behind it: all of them or none.
fn append_all(
    paths: &mut Vec<Path>,
    first: Option<Path>,
    mut others: Vec<Path>,
) -> Result<(), OutOfMemory>
    ensures all { OnOk result (paths.new.items
        ≡ paths.old.items ++ (option_to_list first ++ others.items)) }
    ensures none { OnErr result (paths.new.items ≡ paths.old.items) }
{
    if let Some(path) = first {
        others.insert(0, path)?;
    }
    paths.append(&mut others)?;
    Ok(())
}

// Of two plans the one that loses less, of equal ones the first.
fn better_of(start: Start, found: Option<Start>) -> Start
    ensures { result ≡ better_of start found }
{
    match found {
        Some(found) if found.loss < start.loss => found,
        _ => start,
    }
}
