//! A plain worker, row by row of the table of steps. Paths are lists of numbers, its notes are a
//! list, and of the search it takes only what a path's prices, key and children are.
ghost use Rattle.std.specs.Prelude.{◌<◌, ◌≤◌, length};
ghost use Rattle.split_tree.specs.Node.{IsNode};
ghost use Rattle.column_price.specs.Nodes.{EachIsLight};
ghost use Rattle.mill_model.specs.Charges.{Reaches};

use crate::setting::{Setting, path_of};
use column_price::NodePrices;
use mill_model::{Charges, Closing, Entry, OutOfMemory, Path, Prices};
use search_step::Phase;
use split_tree::{LiveKey, NodeState};
use std::alloc::Global;
use std::collections::VecDeque;

/// What the workers share.
#[derive(Drop)]
pub struct Shared {
    pub deques: Vec<VecDeque<Vec<u16>>>,
    pub least: u64,
    pub budget: u64,
    pub drawn: u64,
    pub halted: bool,
}

impl Shared {
    fn pop_last(&mut self, number: u16) -> Option<Vec<u16>> {
        let deque = self.deques.get_mut(usize::from(number))?;
        deque.pop_back()
    }

    fn pop_first(&mut self, number: u16) -> Option<Vec<u16>> {
        let deque = self.deques.get_mut(usize::from(number))?;
        deque.pop_front()
    }

    /// Puts a path last into a worker's deque.
    pub fn push(&mut self, number: u16, path: Vec<u16>) -> Result<(), OutOfMemory> {
        if let Some(deque) = self.deques.get_mut(usize::from(number)) {
            deque.push_back(path)?;
        }
        Ok(())
    }
}

// A path that was split at the start of a class.
#[derive(Drop)]
struct Note {
    key: LiveKey,
    dead: u64,
    path: Vec<u16>,
}

/// A worker of the plain machine.
#[derive(Drop)]
pub struct PlainWorker {
    alloc: Global,
    number: u16,
    workers: u16,
    phase: Phase,
    pub held: Option<Vec<u16>>,
    pub waiting: Vec<Vec<u16>>,
    pub piece: Vec<Entry>,
    notes: Vec<Note>,
    known: u64,
    victim: u16,
}

impl PlainWorker {
    pub fn new(alloc: Global, number: u16, workers: u16, loss: u64) -> PlainWorker {
        PlainWorker {
            alloc,
            number,
            workers,
            phase: Phase::Resting,
            held: None,
            waiting: Vec::new(alloc),
            piece: Vec::new(alloc),
            notes: Vec::new(alloc),
            known: loss,
            victim: following(number, workers),
        }
    }

    /// Whether a path is its own.
    pub fn has_path(&self) -> bool {
        self.held.is_some() || !self.waiting.is_empty()
    }

    /// One step, which says whether the worker stopped. The run is drained where no path is open.
    pub fn step(
        &mut self,
        setting: &Setting,
        shared: &mut Shared,
        drained: bool,
    ) -> Result<bool, OutOfMemory> {
        match self.phase {
            Phase::Resting if shared.halted || drained => return Ok(true),
            Phase::Resting => self.phase = Phase::Taking,
            Phase::Taking => {
                let path = shared.pop_last(self.number);
                let alone = self.workers <= 1;
                let idle = if alone {
                    Phase::Resting
                } else {
                    Phase::Stealing
                };
                self.hold(path, idle);
            }
            Phase::Stealing => {
                let path = shared.pop_first(self.victim);
                self.aim();
                self.hold(path, Phase::Resting);
            }
            Phase::Holding => {
                let is_ticket = shared.drawn < shared.budget;
                shared.drawn = shared.drawn.saturating_add(1);
                self.phase = if is_ticket {
                    Phase::Bounding
                } else {
                    Phase::Halting
                };
            }
            Phase::Halting => {
                shared.halted = true;
                self.phase = Phase::Ended;
                return Ok(true);
            }
            Phase::Ended => return Ok(true),
            Phase::Bounding => {
                self.known = self.known.min(shared.least);
                self.phase = Phase::Closing;
            }
            Phase::Closing => self.close(setting)?,
            Phase::Publishing => {
                shared.least = shared.least.min(self.known);
                self.phase = Phase::Resting;
            }
            Phase::Pushing => {
                if let Some(path) = self.waiting.pop() {
                    shared.push(self.number, path)?;
                }
                self.push_or_rest();
            }
        }
        Ok(false)
    }

    // Holds a path, or goes to this phase where none came.
    fn hold(&mut self, path: Option<Vec<u16>>, idle: Phase) {
        self.phase = if path.is_some() { Phase::Holding } else { idle };
        self.held = path;
    }

    // The next victim, which isn't this worker.
    fn aim(&mut self) {
        let next = following(self.victim, self.workers);
        self.victim = if next == self.number {
            following(next, self.workers)
        } else {
            next
        };
    }

    fn push_or_rest(&mut self) {
        self.phase = if self.waiting.is_empty() {
            Phase::Resting
        } else {
            Phase::Pushing
        };
    }

    fn record(&mut self, numbers: Vec<u16>, closing: Closing) -> Result<(), OutOfMemory> {
        let path = Path::from_list(numbers);
        self.piece.push(Entry { path, closing })?;
        Ok(())
    }

    // Closes the held path.
    fn close(&mut self, setting: &Setting) -> Result<(), OutOfMemory> {
        let Some(numbers) = self.held.take() else {
            return Ok(());
        };
        let path = path_of(self.alloc, &setting.ranked, &numbers)?;
        let node = NodeState::of(self.alloc, &setting.ranked, &path)?;
        if node.depth() == setting.ranked.len() {
            return self.close_leaf(numbers, node.groups_loss(&setting.charges));
        }
        if let Some(prices) = closing_prices(self.alloc, &node, &setting.charges, self.known)? {
            self.phase = Phase::Resting;
            return self.record(numbers, Closing::Priced(prices));
        }
        self.close_open(setting, &node, numbers)
    }

    fn close_leaf(&mut self, numbers: Vec<u16>, loss: u64) -> Result<(), OutOfMemory> {
        self.phase = if loss < self.known {
            Phase::Publishing
        } else {
            Phase::Resting
        };
        self.known = self.known.min(loss);
        self.record(numbers, Closing::Leaf)
    }

    // Closes a path that prices don't close.
    fn close_open(
        &mut self,
        setting: &Setting,
        node: &NodeState,
        numbers: Vec<u16>,
    ) -> Result<(), OutOfMemory>
        requires reach { Reaches setting.now.charges node.now.ranked.mill }
        requires inner { length node.now.path < length node.now.ranked.placed }
    {
        if node.ranked().starts_class(node.depth()) {
            let key = node.live_key(self.alloc)?;
            let dead = node.dead_loss(&setting.charges);
            if let Some(other) = self.found(&key, dead)? {
                self.phase = Phase::Resting;
                return self.record(numbers, Closing::Dominated(Path::from_list(other)));
            }
            let path = numbers.to_vec(self.alloc)?;
            self.notes.push(Note { key, dead, path })?;
        }
        self.waiting = Vec::new(self.alloc);
        for child in &node.children(self.alloc)? {
            self.waiting.push(child.numbers().to_vec(self.alloc)?)?;
        }
        self.push_or_rest();
        self.record(numbers, Closing::Split)
    }

    // Of the notes with this key and at most this dead loss the path of the first with the least.
    fn found(&self, key: &LiveKey, dead: u64) -> Result<Option<Vec<u16>>, OutOfMemory> {
        let mut best: Option<&Note> = None;
        for note in &self.notes {
            let passes = note.key == *key && note.dead <= dead;
            let before = match best {
                Some(other) => other.dead,
                None => u64::MAX,
            };
            if passes && (best.is_none() || note.dead < before) {
                best = Some(note);
            }
        }
        match best {
            Some(note) => Ok(Some(note.path.to_vec(self.alloc)?)),
            None => Ok(None),
        }
    }
}

// The ascent's prices, or those after a sweep, where they are worth more than 60 * (known - 1).
fn closing_prices(
    alloc: Global,
    node: &NodeState,
    charges: &Charges,
    known: u64,
) -> Result<Option<Prices>, OutOfMemory>
    requires reach { Reaches charges.now node.now.ranked.mill }
    requires light { EachIsLight node.now }
{
    let mut priced = NodePrices::ascend(alloc, node, charges)?;
    if exceeds(known, priced.worth()) {
        return Ok(Some(priced.into_prices()));
    }
    priced.improve();
    if exceeds(known, priced.worth()) {
        return Ok(Some(priced.into_prices()));
    }
    Ok(None)
}

fn exceeds(known: u64, worth: i64) -> bool {
    i128::from(worth) > (i128::from(known) - 1) * 60
}

// The number after this one, going round.
fn following(number: u16, workers: u16) -> u16 {
    if number < u16::MAX && number + 1 < workers {
        number + 1
    } else {
        0
    }
}
