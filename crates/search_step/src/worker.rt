//! A worker for its callers: how it is made, its steps, and what it leaves at its end.
ghost use Rattle.std.specs.Prelude.{◌≡◌, ◌<◌, ◌≤◌, All, length, option_copied};
ghost use Rattle.mill_model.specs.Charges.{Reaches};
ghost use Rattle.order_symmetry.specs.Ranked.{orders_of};
ghost use Rattle.search_step.specs.Accounts.{Keeps};
ghost use Rattle.search_step.specs.Honest.{IsHonest, KeepsHonest};
ghost use Rattle.search_step.specs.Moves.{new_worker};
ghost use Rattle.search_step.specs.Serving.{Serves};
ghost use Rattle.search_step.specs.Steps.{MayStep, Steps};

use crate::hand::Hand;
use crate::parts::{Phase, Turn};
use crate::setting::Setting;
use crate::work::Work;
use mill_model::{Charges, Path, Start};
use order_symmetry::Ranked;
use refute_log::Piece;
use std::alloc::Global;
use std::marker::Model;

/// One worker of a search: it takes paths from its hand, closes them, and hands their children on.
#[derive(Debug, Drop)]
pub struct Worker<'a> {
    setting: Setting<'a>,
    work: Work,
}

impl<'a> Model for Worker<'a> {
    ghost use Rattle.search_step.specs.Worker.{WorkerParts, IsWorker};

    ghost Value = { WorkerParts };

    ghost view = { λ w. record {
      ranked = w.setting.ranked.now;
      charges = w.setting.charges.now;
      number = w.setting.number;
      workers = w.setting.workers;
      parts = w.work;
    } };

    ghost invariant = { λ w. IsWorker (record {
      ranked = w.setting.ranked.now;
      charges = w.setting.charges.now;
      number = w.setting.number;
      workers = w.setting.workers;
      parts = w.work;
    }) };
}

/// What a worker leaves: its records, the path that it holds, the children that it didn't hand on,
/// and the best plan that it found with its loss.
#[derive(Debug, Drop)]
pub struct WorkerEnd {
    pub piece: Piece,
    pub held: Option<Path>,
    pub waiting: Vec<Path>,
    pub best: Option<Start>,
}

impl<'a> Worker<'a> {
    /// A worker that rests and knows this loss. It takes no memory.
    pub fn new(
        alloc: Global,
        ranked: &'a Ranked,
        charges: &'a Charges,
        number: u16,
        workers: u16,
        loss: u64,
    ) -> Worker<'a>
        requires among { number < workers }
        requires few { workers ≤ 64 }
        requires light { All (λ order. order.weight ≤ ranked.now.mill.largest)
            (orders_of ranked.now) }
        requires reach { Reaches charges.now ranked.now.mill }
        ensures ranked { result.ranked ≡ ranked.now }
        ensures charges { result.charges ≡ charges.now }
        ensures number { result.number ≡ number }
        ensures workers { result.workers ≡ workers }
        ensures parts { result.parts
            ≡ new_worker workers (length ranked.now.placed) loss number }
        ensures honest { IsHonest ranked.now charges.now loss result.parts }
    {
        let setting = Setting {
            ranked,
            charges,
            number,
            workers,
        };
        let work = Work::new(alloc, ranked.len(), workers, number, loss);
        Worker { setting, work }
    }

    /// One step: at most one call on the hand.
    pub fn step<H: Hand>(&mut self, hand: &mut H) -> Turn
        requires serves { Serves (H.serves hand.old) self.old.ranked self.old.workers
            self.old.number }
        requires may { MayStep self.old.parts.phase (H.may_draw hand.old) }
        ensures step { Steps H.did self.old.ranked self.old.charges self.old.workers
            self.old.number self.old.parts hand.old result self.new.parts hand.new }
        ensures keeps { Keeps H.did self.old.ranked self.old.charges self.old.workers
            self.old.number self.old.parts hand.old result self.new.parts hand.new }
        ensures honest { KeepsHonest self.old.ranked self.old.charges self.old.parts
            self.new.parts }
        ensures ranked { self.new.ranked ≡ self.old.ranked }
        ensures charges { self.new.charges ≡ self.old.charges }
        ensures number { self.new.number ≡ self.old.number }
        ensures workers { self.new.workers ≡ self.old.workers }
        ensures serves { Serves (H.serves hand.new) self.new.ranked self.new.workers
            self.new.number }
        ensures may { MayStep self.new.parts.phase (H.may_draw hand.new) }
    {
        self.work.step(&self.setting, hand)
    }

    /// What it does next.
    pub fn phase(&self) -> Phase
        ensures { result ≡ self.now.parts.phase }
    {
        self.work.phase()
    }

    /// The path that it holds.
    pub fn held(&self) -> Option<&Path>
        ensures { option_copied result ≡ self.now.parts.held }
    {
        self.work.held()
    }

    /// Ends the worker, and takes no memory.
    pub fn finish(self) -> WorkerEnd
        ensures piece { result.piece.entries ≡ self.entry.parts.piece }
        ensures orders { result.piece.orders ≡ self.entry.parts.orders }
        ensures held { result.held ≡ self.entry.parts.held }
        ensures waiting { result.waiting.items ≡ self.entry.parts.waiting }
        ensures best { result.best ≡ self.entry.parts.best }
    {
        let Work {
            piece,
            held,
            waiting,
            best,
            ..
        } = self.work;
        WorkerEnd {
            piece,
            held,
            waiting,
            best,
        }
    }
}
