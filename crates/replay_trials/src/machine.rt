//! The plain machine: its workers, what they share, and what a schedule leaves.

use crate::plain_worker::{PlainWorker, Shared};
use crate::setting::Setting;
use mill_model::{Closing, Entry, Limits, OutOfMemory};
use refute_log::Run;
use std::alloc::Global;
use std::collections::VecDeque;

/// Workers in turn, and what they share.
#[derive(Drop)]
pub struct Machine {
    shared: Shared,
    workers: Vec<PlainWorker>,
}

impl Machine {
    /// What the core run of a schedule leaves, if it ends within ten thousand rounds.
    pub fn left_by(
        alloc: Global,
        setting: &Setting,
        limits: Limits,
        loss: u64,
        schedule: &[u16],
    ) -> Result<Option<Machine>, OutOfMemory> {
        let mut machine = Machine::new(alloc, limits, loss)?;
        machine.shared.push(0, Vec::new(alloc))?;
        for &number in schedule {
            machine.event(setting, number)?;
        }
        for _ in 0..10_000u32 {
            let mut all_stopped = true;
            for number in 0..limits.workers {
                let stopped = machine.event(setting, number)?;
                all_stopped = all_stopped && stopped;
            }
            if all_stopped {
                return Ok(Some(machine));
            }
        }
        Ok(None)
    }

    fn new(alloc: Global, limits: Limits, loss: u64) -> Result<Machine, OutOfMemory> {
        let mut deques = Vec::new(alloc);
        let mut workers = Vec::new(alloc);
        for number in 0..limits.workers {
            deques.push(VecDeque::new(alloc))?;
            workers.push(PlainWorker::new(alloc, number, limits.workers, loss))?;
        }
        let shared = Shared {
            deques,
            least: loss,
            budget: limits.nodes,
            drawn: 0,
            halted: false,
        };
        Ok(Machine { shared, workers })
    }

    // One event, which says whether the worker stopped.
    fn event(&mut self, setting: &Setting, number: u16) -> Result<bool, OutOfMemory> {
        let drained = self.is_drained();
        match self.workers.get_mut(usize::from(number)) {
            Some(worker) => worker.step(setting, &mut self.shared, drained),
            None => Ok(true),
        }
    }

    fn is_drained(&self) -> bool {
        let mut drained = true;
        for deque in &self.shared.deques {
            drained = drained && deque.is_empty();
        }
        for worker in &self.workers {
            drained = drained && !worker.has_path();
        }
        drained
    }

    /// Whether a run has these pieces, this loss, these tickets, and these paths left.
    pub fn is_seen_in(&self, run: &Run) -> bool {
        let mut same = run.pieces.len() == self.workers.len()
            && run.loss == self.shared.least
            && run.drawn == self.shared.drawn;
        let mut left = 0usize;
        for (worker, piece) in self.workers.iter().zip(&run.pieces) {
            same = same && are_same(&worker.piece, piece.entries());
            left = left.saturating_add(worker.waiting.len());
            left = left.saturating_add(usize::from(worker.held.is_some()));
        }
        for deque in &self.shared.deques {
            left = left.saturating_add(deque.len());
        }
        for path in &run.unclosed {
            same = same && self.is_left(path.numbers());
        }
        same && left == run.unclosed.len()
    }

    // Whether a path is held, waits, or is in a deque.
    fn is_left(&self, path: &[u16]) -> bool {
        let mut is_left = false;
        for worker in &self.workers {
            if let Some(held) = &worker.held {
                is_left = is_left || held.as_slice() == path;
            }
            for waiting in &worker.waiting {
                is_left = is_left || waiting.as_slice() == path;
            }
        }
        for deque in &self.shared.deques {
            for queued in deque {
                is_left = is_left || queued.as_slice() == path;
            }
        }
        is_left
    }
}

// Whether these are the same records in the same order.
fn are_same(records: &[Entry], others: &[Entry]) -> bool {
    let mut same = records.len() == others.len();
    for (record, other) in records.iter().zip(others) {
        same = same
            && record.path.numbers() == other.path.numbers()
            && is_same(&record.closing, &other.closing);
    }
    same
}

fn is_same(closing: &Closing, other: &Closing) -> bool {
    match (closing, other) {
        (Closing::Split, Closing::Split) | (Closing::Leaf, Closing::Leaf) => true,
        (Closing::Priced(prices), Closing::Priced(others)) => prices.list() == others.list(),
        (Closing::Dominated(path), Closing::Dominated(other)) => path.numbers() == other.numbers(),
        _ => false,
    }
}
