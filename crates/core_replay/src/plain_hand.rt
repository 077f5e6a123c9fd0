//! The plain hand. Each of its calls answers and changes just what the machine's calls do.
ghost use Rattle.std.specs.Prelude.{◌≡◌, ◌<◌, ◌≤◌, ◌++◌, IfOk, OnOk, flat_map, length};
ghost use Rattle.core_replay.specs.Plain.{new_hand, serving};

use crate::deques::Deques;
use mill_model::{Draw, OutOfMemory, Path, Standing};
use order_symmetry::Ranked;
use search_step::Hand;
use std::alloc::Global;
use std::marker::Model;

/// The hand of workers that take turns on one thread. It serves one of them at a time.
#[derive(Drop)]
pub struct PlainHand<'a> {
    ranked: &'a Ranked,
    deques: Deques<'a>,
    number: u16,
    workers: u16,
    busy: bool,
    least: u64,
    nodes: u64,
    drawn: u64,
    halted: bool,
}

impl<'a> Model for PlainHand<'a> {
    ghost use Rattle.std.specs.Prelude.{◌≡◌, ◌<◌, ◌≤◌, length};
    ghost use Rattle.core_replay.specs.Plain.{Plain};

    ghost Value = { Plain };

    ghost view = { λ h. record {
      ranked = h.ranked.now;
      shared = record {
        deques = h.deques.lists;
        least = h.least;
        drawn = h.drawn;
        halted = h.halted;
      };
      budget = h.nodes;
      number = h.number;
      workers = h.workers;
      busy = h.busy;
    } };

    ghost invariant = { λ h. (h.number < h.workers) × (h.workers ≤ 64)
        × (length h.deques.lists ≡ h.workers) × (h.deques.ranked ≡ h.ranked.now) };
}

impl<'a> PlainHand<'a> {
    /// Empty deques, no halt, and worker 0 served.
    pub fn new(
        alloc: Global,
        ranked: &'a Ranked,
        workers: u16,
        loss: u64,
        nodes: u64,
        drawn: u64,
    ) -> Result<PlainHand<'a>, OutOfMemory>
        requires some { 1 ≤ workers }
        requires few { workers ≤ 64 }
        ensures { IfOk result (λ h. h ≡ new_hand ranked.now workers loss nodes drawn) }
    {
        Ok(PlainHand {
            ranked,
            deques: Deques::new(alloc, ranked, workers)?,
            number: 0,
            workers,
            busy: false,
            least: loss,
            nodes,
            drawn,
            halted: false,
        })
    }

    /// Serves this worker from now on. `busy` says whether some worker holds a path or has a child
    /// that waits.
    pub fn serve(&mut self, number: u16, busy: bool)
        requires { number < self.old.workers }
        ensures { self.new ≡ serving number busy self.old }
    {
        self.number = number;
        self.busy = busy;
    }

    // How many tickets are drawn.
    pub(crate) fn drawn(&self) -> u64
        ensures { result ≡ self.now.shared.drawn }
    {
        self.drawn
    }

    // How many workers there are.
    pub(crate) fn workers(&self) -> u16
        ensures is { result ≡ self.now.workers }
        ensures few { result ≤ 64 }
        ensures full { length self.now.shared.deques ≡ result }
    {
        self.workers
    }

    // Appends the paths of all deques.
    pub(crate) fn empty_into(self, paths: &mut Vec<Path>) -> Result<(), OutOfMemory>
        ensures { OnOk result (paths.new.items
            ≡ paths.old.items ++ flat_map (λ list. list) self.entry.shared.deques) }
    {
        self.deques.empty_into(paths)
    }
}

impl Hand for PlainHand<'_> {
    ghost use Rattle.core_replay.specs.Plain.{plain_serves, plain_may, plain_did};

    ghost serves = { plain_serves };

    ghost may_draw = { plain_may };

    ghost did = { plain_did };

    fn take(&mut self) -> Option<Path> {
        self.deques.pop_back(self.number)
    }

    fn steal(&mut self, victim: u16) -> Option<Path> {
        self.deques.pop_front(victim)
    }

    fn push(&mut self, path: Path) -> Result<(), Path> {
        self.deques.push_back(self.number, path)
    }

    fn draw(&mut self) -> Draw {
        let number = self.drawn;
        self.drawn = self.drawn.saturating_add(1);
        if number < self.nodes {
            Draw::Ticket(number)
        } else {
            Draw::Spent(number)
        }
    }

    fn look(&mut self) -> u64 {
        self.least
    }

    fn publish(&mut self, loss: u64) -> u64 {
        let before = self.least;
        self.least = loss.min(before);
        before
    }

    fn stop(&mut self) {
        self.halted = true;
    }

    fn standing(&mut self) -> Standing {
        if self.halted {
            Standing::Halted
        } else if self.deques.all_empty() && !self.busy {
            Standing::Drained
        } else {
            Standing::Going
        }
    }
}
