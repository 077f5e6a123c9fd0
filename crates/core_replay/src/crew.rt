//! A crew: workers over one hand, how they are made and given paths, and what they leave.
ghost use Rattle.std.specs.Prelude.{◌≡◌, ◌≤◌, ◌++◌, [], All, IfOk, OnOk, map, flat_map};
ghost use Rattle.std.specs.List.{AllByRecursion};
ghost use Rattle.mill_model.specs.Charges.{Reaches};
ghost use Rattle.order_symmetry.specs.Ranked.{orders_of};
ghost use Rattle.search_step.specs.Promise.{records_of};
ghost use Rattle.search_step.specs.Resumable.{start_of};
ghost use Rattle.search_step.specs.Serving.{IsPathOf};
ghost use Rattle.core_machine.specs.Core.{pieces_of, unclosed_by, unclosed_of};
ghost use Rattle.core_machine.specs.Kept.{best_of};
ghost use Rattle.core_replay.specs.Crew.{crew_with, entries_of, parts_of};
ghost use Rattle.core_replay.specs.Crew.{with_all_given, with_given};

use crate::plain_hand::PlainHand;
use mill_model::{Charges, Limits, OutOfMemory, Path, Start};
use order_symmetry::Ranked;
use refute_log::{Piece, Run};
use search_step::{Hand, Worker};
use std::alloc::Global;
use std::marker::Model;

// Workers that take turns over one hand.
#[derive(Drop)]
pub(crate) struct Crew<'a> {
    charges: &'a Charges,
    pub(crate) hand: PlainHand<'a>,
    pub(crate) workers: Vec<Worker<'a>>,
}

impl<'a> Model for Crew<'a> {
    ghost use Rattle.core_replay.specs.Crew.{CrewState, IsCrew, parts_of};

    ghost Value = { CrewState };

    ghost view = { λ c. record {
      ranked = c.hand.ranked;
      charges = c.charges.now;
      budget = c.hand.budget;
      core = record { shared = c.hand.shared; workers = parts_of c.workers.items };
    } };

    ghost invariant = { λ c. IsCrew c.hand.ranked c.charges.now c.hand.workers c.workers.items };
}

impl<'a> Crew<'a> {
    // New workers that know this loss, over a hand with no path and so many tickets drawn.
    pub(crate) fn new(
        alloc: Global,
        ranked: &'a Ranked,
        charges: &'a Charges,
        limits: &Limits,
        loss: u64,
        drawn: u64,
    ) -> Result<Crew<'a>, OutOfMemory>
        requires light { All (λ order. order.weight ≤ ranked.now.mill.largest)
            (orders_of ranked.now) }
        requires reach { Reaches charges.now ranked.now.mill }
        requires some { 1 ≤ limits.now.workers }
        requires few { limits.now.workers ≤ 64 }
        ensures { IfOk result (λ crew. crew ≡ crew_with ranked.now charges.now limits.now.nodes
            limits.now.workers loss drawn []) }
    {
        let count = limits.workers;
        let hand = PlainHand::new(alloc, ranked, count, loss, limits.nodes, drawn)?;
        let mut workers = Vec::with_capacity(alloc, usize::from(count))?;
        for number in 0..count {
            workers.push(Worker::new(alloc, ranked, charges, number, count, loss))?;
        }
        Ok(Crew {
            charges,
            hand,
            workers,
        })
    }

    // Puts paths into deque 0, before the first turn.
    pub(crate) fn give_all(&mut self, paths: Vec<Path>) -> Result<(), OutOfMemory>
        requires { AllByRecursion (IsPathOf self.old.ranked) paths.items }
        ensures { IfOk result (λ _. self.new ≡ with_all_given self.old paths.items) }
    {
        for path in paths {
            self.give(path)?;
        }
        Ok(())
    }

    fn give(&mut self, path: Path) -> Result<(), OutOfMemory>
        requires { IsPathOf self.old.ranked path }
        ensures given { IfOk result (λ _. self.new ≡ with_given self.old path) }
        ensures ranked { self.new.ranked ≡ self.old.ranked }
    {
        self.hand.serve(0, false);
        self.hand.push(path).map_err(|_| OutOfMemory)
    }

    // Ends the workers. Their pieces come after the given ones, and the run's plan is the best of
    // the start's and theirs.
    pub(crate) fn leave(
        self,
        alloc: Global,
        mut pieces: Vec<Piece>,
        start: Start,
    ) -> Result<Run, OutOfMemory>
        ensures pieces { IfOk result (λ run. records_of run
            ≡ entries_of pieces.items ++ pieces_of self.entry.core) }
        ensures unclosed { IfOk result (λ run. run.unclosed.items
            ≡ unclosed_of self.entry.core) }
        ensures best { IfOk result (λ run. start_of run
            ≡ best_of start self.entry.core.workers) }
        ensures drawn { IfOk result (λ run. run.drawn ≡ self.entry.core.shared.drawn) }
    {
        let mut unclosed = Vec::new(alloc);
        let best = end_all(self.workers, &mut pieces, &mut unclosed, start)?;
        let drawn = self.hand.drawn();
        self.hand.empty_into(&mut unclosed)?;
        Ok(Run {
            pieces,
            unclosed,
            plan: best.plan,
            loss: best.loss,
            drawn,
        })
    }
}

// Ends workers. It appends their pieces, and the paths that they hold or let wait, and gives the
// best of a plan and theirs.
fn end_all(
    workers: Vec<Worker>,
    pieces: &mut Vec<Piece>,
    unclosed: &mut Vec<Path>,
    start: Start,
) -> Result<Start, OutOfMemory>
    ensures pieces { OnOk result (entries_of pieces.new.items
        ≡ entries_of pieces.old.items ++ map (λ w. w.parts.piece) workers.entry.items) }
    ensures unclosed { OnOk result (unclosed.new.items
        ≡ unclosed.old.items ++ flat_map (λ w. unclosed_by w.parts) workers.entry.items) }
    ensures best { IfOk result (λ best. best ≡ best_of start (parts_of workers.entry.items)) }
{
    let mut best = start;
    for worker in workers {
        best = worker.finish().add_to(pieces, unclosed, best)?;
    }
    Ok(best)
}
