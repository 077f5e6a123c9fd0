//! Some slabs emptied and filled again.
ghost use Rattle.std.specs.Prelude.{◌≡◌, ◌<◌, ◌≤◌, ◌+◌, All, length, vec_len};
ghost use Rattle.plan_walk.specs.Taken.{IsTaken};

use crate::dice::Dice;
use crate::draft::Draft;
use mill_model::{MAX_CHARGE, Order, OutOfMemory};
use slab_rules::OpenSlab;
use std::alloc::Global;

/// An order that was taken off a slab, to be laid on another.
#[derive(Clone, Copy, Debug)]
pub struct Taken {
    place: u16,
    from: u16,
    to: u16,
    // The greater, the sooner the order is laid.
    key: u64,
}

/// The orders of some slabs, in hand, and these slabs as they are filled again.
#[derive(Drop)]
pub struct Hand {
    places: Vec<u16>,
    taken: Vec<Taken>,
    slots: Vec<OpenSlab>,
}

impl Hand {
    pub fn new(alloc: Global) -> Hand {
        Hand {
            places: Vec::new(alloc),
            taken: Vec::new(alloc),
            slots: Vec::new(alloc),
        }
    }

    /// Takes the orders of some slabs, the heaviest first, with some noise.
    pub fn take(&mut self, draft: &Draft, dice: &mut Dice, slabs: &[u16]) -> Result<(), OutOfMemory>
        requires { All (λ slab. slab < length draft.now.links) slabs.now }
        ensures { All (IsTaken (length draft.now.links)) self.new.taken.items }
    {
        self.taken.clear();
        for &slab in slabs {
            self.take_slab(draft, dice, slab)?;
        }
        self.taken.sort_unstable_by_key(|t| u64::MAX - t.key);
        Ok(())
    }

    // Takes the orders of a slab.
    fn take_slab(&mut self, draft: &Draft, dice: &mut Dice, slab: u16) -> Result<(), OutOfMemory>
        requires slab { slab < length draft.now.links }
        requires taken { All (IsTaken (length draft.now.links)) self.old.taken.items }
        ensures { All (IsTaken (length draft.now.links)) self.new.taken.items }
    {
        self.places.clear();
        draft.list(slab, &mut self.places)?;
        take_places(draft, dice, slab, &self.places, &mut self.taken)
    }

    /// Finds for each order in hand, in turn, a slab where it adds least loss; whether each fits
    /// one.
    pub fn fill(&mut self, alloc: Global, draft: &Draft, slabs: &[u16]) -> Result<bool, OutOfMemory>
        requires slabs { All (λ slab. slab < length draft.now.links) slabs.now }
        requires taken { All (IsTaken (length draft.now.links)) self.old.taken.items }
        ensures { All (IsTaken (length draft.now.links)) self.new.taken.items }
    {
        if slabs.is_empty() {
            return Ok(false);
        }
        self.slots.clear();
        for _ in 0..slabs.len() {
            self.slots.push(draft.empty_slab(alloc))?;
        }
        for index in 0..self.taken.len() {
            let order = draft.order(self.taken[index].place);
            let slot = self.best_slot(draft, order);
            if !self.slots[slot].fits(order) {
                return Ok(false);
            }
            self.slots[slot].join(order);
            self.taken[index].to = slabs[slot];
        }
        Ok(true)
    }

    // The slab where an order adds least loss; the first one, where it fits none.
    fn best_slot(&self, draft: &Draft, order: Order) -> usize
        requires { 0 < vec_len self.now.slots }
        ensures { result < vec_len self.now.slots }
    {
        let mut best = 0;
        let mut least = u64::MAX;
        for (slot, slab) in self.slots.iter().enumerate() {
            let before = draft.charge(slab.load());
            let after = draft.charge(slab.load().saturating_add(order.weight));
            let added = after.saturating_add(MAX_CHARGE).saturating_sub(before);
            if added < least && slab.fits(order) {
                best = slot;
                least = added;
            }
        }
        best
    }

    /// Lays the orders in hand where they are to go.
    pub fn lay(&self, draft: &mut Draft)
        requires { All (IsTaken (length draft.old.links)) self.now.taken.items }
        ensures count { length draft.new.links ≡ length draft.old.links }
        ensures instance { draft.new.instance.now ≡ draft.old.instance.now }
    {
        for taken in &self.taken {
            draft.lay(taken.place, taken.to);
        }
    }

    /// Lays the orders in hand where they were.
    pub fn lay_back(&self, draft: &mut Draft)
        requires { All (IsTaken (length draft.old.links)) self.now.taken.items }
        ensures count { length draft.new.links ≡ length draft.old.links }
        ensures instance { draft.new.instance.now ≡ draft.old.instance.now }
    {
        for taken in &self.taken {
            draft.lay(taken.place, taken.from);
        }
    }
}

// Takes the orders at some places off a slab.
fn take_places(
    draft: &Draft,
    dice: &mut Dice,
    slab: u16,
    places: &[u16],
    taken: &mut Vec<Taken>,
) -> Result<(), OutOfMemory>
    requires slab { slab < length draft.now.links }
    requires places { All (λ place. place < length draft.now.links) places.now }
    requires taken { All (IsTaken (length draft.now.links)) taken.old.items }
    ensures { All (IsTaken (length draft.now.links)) taken.new.items }
{
    for &place in places {
        let weight = draft.order(place).weight as usize;
        let noise = dice.below(weight.saturating_add(1));
        taken.push(Taken {
            place,
            from: slab,
            to: slab,
            key: weight.saturating_mul(4).saturating_add(noise) as u64,
        })?;
    }
    Ok(())
}
