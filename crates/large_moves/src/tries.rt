//! The tries that are left, and the pairs of slabs that need none.
ghost use Rattle.std.specs.Prelude.{◌≡◌, ℕ, ◌+◌, ◌<◌, ◌⊎◌, true, false, length, slice_set, IfOk};
ghost use Rattle.std.specs.Prelude.{Some};
ghost use Rattle.large_moves.specs.Times.{IsElsewhere, needs_none};

use mill_model::OutOfMemory;
use std::alloc::Global;
use std::marker::Model;

/// How many tries are left; and, so that no pair is tried again while nothing on it has changed,
/// when each slab was changed and when all pairs of its row were closed. The row of a slab is its
/// pairs with itself and with the slabs behind it. A time is told by the tries that were left then.
#[derive(Debug, Drop)]
pub struct Tries {
    left: u64,
    changed: Vec<u64>,
    closed: Vec<Option<u64>>,
}

impl Model for Tries {
    ghost use Rattle.large_moves.specs.Times.{Times, AreTimes};

    ghost Value = { Times };

    ghost view = { λ t. record {
      left = t.left;
      changed = t.changed.items;
      closed = t.closed.items;
    } };

    ghost invariant = { λ t. AreTimes (record {
      left = t.left;
      changed = t.changed.items;
      closed = t.closed.items;
    }) };
}

impl Tries {
    /// So many tries, each of the pairs of so many slabs needing one.
    pub fn new(alloc: Global, slabs: usize, left: u64) -> Result<Tries, OutOfMemory>
        ensures left { IfOk result (λ tries. tries.left ≡ left) }
        ensures slabs { IfOk result (λ tries. length tries.changed ≡ slabs) }
        ensures none { IfOk result (λ tries. (a b : ℕ) → needs_none tries a b ≡ false) }
    {
        Ok(Tries {
            left,
            changed: vec![in alloc; left; slabs]?,
            closed: vec![in alloc; None; slabs]?,
        })
    }

    /// How many tries are left.
    pub fn left(&self) -> u64
        ensures { result ≡ self.now.left }
    {
        self.left
    }

    /// Whether a pair was closed, and neither slab changed since.
    pub fn needs_none(&self, a: u16, b: u16) -> bool
        requires first { a < length self.now.changed }
        requires second { b < length self.now.changed }
        ensures { result ≡ needs_none self.now a b }
    {
        let Some(time) = self.closed[a as usize] else {
            return false;
        };
        time <= self.changed[a as usize] && time <= self.changed[b as usize]
    }

    /// A try has changed nothing.
    pub fn spend(&mut self)
        requires { 0 < self.old.left }
        ensures left { self.new.left + 1 ≡ self.old.left }
        ensures changed { self.new.changed ≡ self.old.changed }
        ensures closed { self.new.closed ≡ self.old.closed }
    {
        self.left -= 1;
    }

    /// A try has changed two slabs.
    pub fn change(&mut self, a: u16, c: u16)
        requires some { 0 < self.old.left }
        requires first { a < length self.old.changed }
        requires second { c < length self.old.changed }
        ensures left { self.new.left + 1 ≡ self.old.left }
        ensures changed { self.new.changed
            ≡ slice_set (slice_set self.old.changed a self.new.left) c self.new.left }
        ensures closed { self.new.closed ≡ self.old.closed }
        ensures elsewhere { (x y : ℕ) → needs_none self.new x y ≡ true →
            IsElsewhere self.old a c x y }
    {
        self.left -= 1;
        self.changed[a as usize] = self.left;
        self.changed[c as usize] = self.left;
    }

    /// All pairs of the row of a slab are closed.
    pub fn close_row(&mut self, a: u16)
        requires { a < length self.old.changed }
        ensures left { self.new.left ≡ self.old.left }
        ensures changed { self.new.changed ≡ self.old.changed }
        ensures closed { self.new.closed ≡ slice_set self.old.closed a (Some self.old.left) }
        ensures rows { (x y : ℕ) → needs_none self.new x y ≡ true →
            (x ≡ a) ⊎ (needs_none self.old x y ≡ true) }
    {
        self.closed[a as usize] = Some(self.left);
    }
}
