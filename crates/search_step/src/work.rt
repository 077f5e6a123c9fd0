//! What a worker has: paths to close, records, notes and the best plan; and how steps change it.
ghost use Rattle.std.specs.Prelude.{◌≡◌, ◌≢◌, ◌≤◌, ◌<◌, ◌∷◌, ◌++◌, ℕ, List, All, true, Some, None};
ghost use Rattle.std.specs.Prelude.{OnOk, OnErr, option_copied};
ghost use Rattle.std.specs.List.{AllByRecursion};
ghost use Rattle.refute_log.specs.Fits.{fits};
ghost use Rattle.search_step.specs.Moves.{after, aim, and_recorded, committed, has_lengths, hold};
ghost use Rattle.search_step.specs.Moves.{last_of, looked, new_worker, pushing_or_resting, to};
ghost use Rattle.search_step.specs.Serving.{IsPathOf};
ghost use Rattle.search_step.specs.Steps.{BecomesOrStays, Closes, FitsMill, IsSafe, Pushes};

use crate::decide::decide;
use crate::hand::Hand;
use crate::parts::{Phase, Turn, Verdict};
use crate::setting::Setting;
use mill_model::{Closing, Entry, Path, Start};
use nogood_store::{Noted, Store};
use refute_log::Piece;
use std::alloc::Global;
use std::marker::Model;

/// How many paths a worker notes.
pub const STORE_ROOM: u32 = 65_536;

/// The parts of a worker that a step may change.
#[derive(Debug, Drop)]
pub(crate) struct Work {
    pub(crate) phase: Phase,
    pub(crate) held: Option<Path>,
    pub(crate) waiting: Vec<Path>,
    pub(crate) piece: Piece,
    pub(crate) store: Store,
    pub(crate) known: u64,
    pub(crate) victim: u16,
    pub(crate) best: Option<Start>,
    pub(crate) orders: u16,
}

impl Model for Work {
    ghost use Rattle.std.specs.Prelude.{◌≡◌};
    ghost use Rattle.search_step.specs.Parts.{Parts};

    ghost Value = { Parts };

    ghost view = { λ w. record {
      phase = w.phase;
      held = w.held;
      waiting = w.waiting.items;
      piece = w.piece.entries;
      orders = w.orders;
      store = w.store;
      known = w.known;
      victim = w.victim;
      best = w.best;
    } };

    ghost invariant = { λ w. w.piece.orders ≡ w.orders };
}

impl Work {
    /// A worker without a path. It takes no memory.
    pub(crate) fn new(alloc: Global, orders: u16, workers: u16, number: u16, loss: u64) -> Work
        requires among { number < workers }
        requires few { workers ≤ 64 }
        ensures { result ≡ new_worker workers orders loss number }
    {
        Work {
            phase: Phase::Resting,
            held: None,
            waiting: Vec::new(alloc),
            piece: Piece::new(alloc, orders),
            store: Store::new(alloc, STORE_ROOM),
            known: loss,
            victim: after(workers, number),
            best: None,
            orders,
        }
    }

    pub(crate) fn phase(&self) -> Phase
        ensures { result ≡ self.now.phase }
    {
        self.phase
    }

    pub(crate) fn held(&self) -> Option<&Path>
        ensures { option_copied result ≡ self.now.held }
    {
        self.held.as_ref()
    }

    pub(crate) fn go(&mut self, phase: Phase)
        ensures { self.new ≡ to phase self.old }
    {
        self.phase = phase;
    }

    pub(crate) fn hold(&mut self, path: Path)
        ensures { self.new ≡ hold path self.old }
    {
        self.held = Some(path);
        self.phase = Phase::Holding;
    }

    pub(crate) fn aim(&mut self, workers: u16, number: u16)
        requires few { workers ≤ 64 }
        requires among { number < workers }
        requires victim { self.old.victim < workers }
        ensures { self.new ≡ aim workers number self.old }
    {
        let next = after(workers, self.victim);
        if next == number {
            self.victim = after(workers, number);
        } else {
            self.victim = next;
        }
    }

    pub(crate) fn victim(&self) -> u16
        ensures { result ≡ self.now.victim }
    {
        self.victim
    }

    pub(crate) fn known(&self) -> u64
        ensures { result ≡ self.now.known }
    {
        self.known
    }

    pub(crate) fn learn(&mut self, least: u64)
        ensures { self.new ≡ (looked self.old least).0 }
    {
        self.known = self.known.min(least);
        self.phase = Phase::Closing;
    }

    /// The last waiting child is pushed, or waits again.
    pub(crate) fn push<H: Hand>(&mut self, hand: &mut H) -> Turn
        requires tree { AllByRecursion (IsPathOf (H.serves hand.old).ranked) self.old.waiting }
        ensures step { Pushes H.did (last_of self.old.waiting) self.old hand.old result self.new
            hand.new }
        ensures serves { H.serves hand.new ≡ H.serves hand.old }
        ensures may { H.may_draw hand.new ≡ H.may_draw hand.old }
    {
        let Some(path) = self.waiting.pop() else {
            self.phase = Phase::Resting;
            return Turn::Moved;
        };
        match hand.push(path) {
            Ok(()) => {
                self.phase = pushing_or_resting(&self.waiting);
                Turn::Moved
            }
            Err(path) => {
                self.waiting.push_reserved(path);
                Turn::OutOfMemory
            }
        }
    }

    /// The held path is closed. Where memory is wanted, nothing changes.
    pub(crate) fn close(&mut self, setting: &Setting) -> Turn
        requires safe { IsSafe setting.now.ranked.now setting.now.charges.now setting.now.workers
            setting.now.number self.old }
        requires fits { FitsMill setting.now.ranked.now setting.now.charges.now }
        ensures { Closes setting.now.ranked.now setting.now.charges.now self.old result self.new }
    {
        let alloc = *self.waiting.allocator();
        let Some(path) = &self.held else {
            self.phase = Phase::Resting;
            return Turn::Moved;
        };
        let decided = decide(
            alloc,
            setting.ranked,
            setting.charges,
            self.known,
            &self.store,
            path,
        );
        match decided {
            Ok(verdict) => self.commit(verdict),
            Err(_) => Turn::OutOfMemory,
        }
    }

    /// The held path is closed as is decided. Where memory is wanted, nothing changes.
    pub(crate) fn commit(&mut self, verdict: Verdict) -> Turn
        requires lengths { (path : List ℕ) → self.old.held ≡ Some path →
            has_lengths self.old.orders path verdict ≡ true }
        ensures { BecomesOrStays self.old self.new result
            (committed self.old self.old.held verdict) }
    {
        if self.held.is_none() {
            self.phase = Phase::Resting;
            return Turn::Moved;
        }
        if self.piece.reserve().is_err() {
            return Turn::OutOfMemory;
        }
        match verdict {
            Verdict::Better(start) => {
                record(&mut self.piece, &mut self.held, Closing::Leaf);
                self.known = start.loss;
                self.best = Some(start);
                self.phase = Phase::Publishing;
            }
            Verdict::Plain => {
                record(&mut self.piece, &mut self.held, Closing::Leaf);
                self.phase = Phase::Resting;
            }
            Verdict::ByPrices(prices) => {
                // The call brings into the proof that each price is within its limits.
                let _within = prices.list();
                record(&mut self.piece, &mut self.held, Closing::Priced(prices));
                self.phase = Phase::Resting;
            }
            Verdict::ByOther(other) => {
                record(&mut self.piece, &mut self.held, Closing::Dominated(other));
                self.phase = Phase::Resting;
            }
            Verdict::Open(paths, note) => {
                if let Some(note) = note {
                    if self.store.note(note.key, note.dead, note.path) == Noted::OutOfMemory {
                        return Turn::OutOfMemory;
                    }
                }
                record(&mut self.piece, &mut self.held, Closing::Split);
                self.waiting = paths.list;
                self.phase = pushing_or_resting(&self.waiting);
            }
        }
        Turn::Moved
    }
}

// Records the held path in a piece that has room for it.
fn record(piece: &mut Piece, held: &mut Option<Path>, closing: Closing)
    requires spare { 1 ≤ piece.old.spare }
    requires fits { (path : List ℕ) → held.old ≡ Some path →
        fits piece.old.orders (record { path = path; closing = closing }) ≡ true }
    ensures held { held.new ≡ None }
    ensures entries { piece.new.entries ≡ and_recorded piece.old.entries held.old closing }
    ensures orders { piece.new.orders ≡ piece.old.orders }
{
    if let Some(path) = held.take() {
        piece.put(Entry { path, closing });
    }
}

fn pushing_or_resting(waiting: &[Path]) -> Phase
    ensures { result ≡ pushing_or_resting waiting.now }
{
    if waiting.is_empty() {
        Phase::Resting
    } else {
        Phase::Pushing
    }
}

// The number after a victim's, going round.
fn after(workers: u16, victim: u16) -> u16
    requires few { workers ≤ 64 }
    requires among { victim < workers }
    ensures { result ≡ after workers victim }
{
    let next = victim + 1;
    if next < workers { next } else { 0 }
}
