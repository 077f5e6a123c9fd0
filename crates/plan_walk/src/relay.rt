//! The orders of two slabs laid anew, by one of the splits that serve best.
ghost use Rattle.std.specs.Prelude.{◌≡◌, ◌<◌, ◌≤◌, ◌+◌, All, length, vec_len};

use crate::dice::Dice;
use crate::draft::Draft;
use crate::splits::{Aim, FREE_ORDERS, Splits, turned};
use mill_model::OutOfMemory;
use std::alloc::Global;

/// Lays pairs of slabs anew, with room for what that needs.
#[derive(Drop)]
pub struct Relay {
    places: Vec<u16>,
    splits: Splits,
}

impl Relay {
    pub fn new(alloc: Global) -> Relay {
        Relay {
            places: Vec::new(alloc),
            splits: Splits::new(alloc),
        }
    }

    /// Lays the orders of two slabs anew, by a split that is drawn among those that serve best.
    pub fn split(
        &mut self,
        draft: &mut Draft,
        dice: &mut Dice,
        pair: (u16, u16),
        aim: Aim,
    ) -> Result<(), OutOfMemory>
        requires first { pair.0 < length draft.old.links }
        requires second { pair.1 < length draft.old.links }
        ensures count { length draft.new.links ≡ length draft.old.links }
        ensures instance { draft.new.instance.now ≡ draft.old.instance.now }
    {
        let before = pair_loss(draft, pair);
        if before == 0 && aim == Aim::Less {
            return Ok(());
        }
        self.places.clear();
        draft.list(pair.0, &mut self.places)?;
        draft.list(pair.1, &mut self.places)?;
        if self.places.is_empty() {
            return Ok(());
        }
        let turn = dice.below(self.places.len());
        self.splits
            .find(draft, &self.places, turn, pair.0, before, aim)?;
        if let Some(set) = self.splits.draw(dice) {
            lay(draft, &self.places, turn, pair, set);
        }
        Ok(())
    }
}

// What two slabs lose.
fn pair_loss(draft: &Draft, pair: (u16, u16)) -> u64
    requires first { pair.0 < length draft.now.links }
    requires second { pair.1 < length draft.now.links }
{
    draft
        .slab_loss(pair.0)
        .saturating_add(draft.slab_loss(pair.1))
}

// Lays the free orders of a set on the first slab, and the others on the second.
fn lay(draft: &mut Draft, places: &[u16], turn: usize, pair: (u16, u16), set: usize)
    requires first { pair.0 < length draft.old.links }
    requires second { pair.1 < length draft.old.links }
    requires below { All (λ place. place < length draft.old.links) places.now }
    requires turn { turn < length places.now }
    ensures count { length draft.new.links ≡ length draft.old.links }
    ensures instance { draft.new.instance.now ≡ draft.old.instance.now }
{
    for index in 0..places.len().min(FREE_ORDERS) {
        let place = turned(draft, places, turn, index);
        let slab = if (set >> index) & 1 == 1 {
            pair.0
        } else {
            pair.1
        };
        draft.lay(place, slab);
    }
}
