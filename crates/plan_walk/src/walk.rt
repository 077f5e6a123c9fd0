//! A walk through plans.
ghost use Rattle.std.specs.Prelude.{◌≡◌, ◌<◌, ◌≤◌, ◌+◌, All, length, true, vec_len, IfOk, IfSome};
ghost use Rattle.mill_model.specs.Charges.{Reaches, charge_of};
ghost use Rattle.mill_model.specs.Instance.{mill_of};
ghost use Rattle.mill_model.specs.Plan.{numbers_each};
ghost use Rattle.plan_walk.specs.Better.{IsBetter};

use crate::dice::Dice;
use crate::draft::Draft;
use crate::hand::Hand;
use crate::relay::Relay;
use crate::splits::Aim;
use mill_model::{Charges, Instance, OutOfMemory, Plan, Start};
use plan_check::{Verdict, judge};
use std::alloc::Global;

/// How many pairs of slabs a step lays anew.
const PAIRS: u32 = 4;
/// How many steps lay pairs anew for one that empties some slabs and fills them again.
const ROUND: u64 = 10;
/// How often the pairs of slabs that were filled again are gone through.
const SWEEPS: u32 = 8;

/// Walks so many steps from a plan. If the walk ends at a plan that loses less than a bound, gives
/// it.
///
/// A step lays four pairs of slabs anew, so that each loses no more, or, every tenth, empties some
/// slabs and fills them again. The walk ends before where nothing is lost.
pub fn better_plan(
    alloc: Global,
    instance: &Instance,
    charges: &Charges,
    plan: &Plan,
    bound: u64,
    steps: u64,
) -> Result<Option<Start>, OutOfMemory>
    requires each { numbers_each plan.now instance.now.orders ≡ true }
    requires reach { Reaches charges.now (mill_of instance.now) }
    ensures { IfOk result (λ found. IfSome found (IsBetter (mill_of instance.now)
        (charge_of charges.now) instance.now.orders bound)) }
{
    let draft = Draft::new(alloc, instance, charges, plan)?;
    if draft.len() == 0 {
        return Ok(None);
    }
    let mut walker = Walker {
        draft,
        dice: Dice::new(),
        relay: Relay::new(alloc),
        hand: Hand::new(alloc),
        slabs: Vec::new(alloc),
    };
    walker.walk(alloc, steps)?;
    let plan = walker.draft.to_plan(alloc)?;
    let Verdict::Legal { loss } = judge(alloc, instance, charges, &plan)? else {
        return Ok(None);
    };
    if loss >= bound {
        return Ok(None);
    }
    Ok(Some(Start { plan, loss }))
}

// A draft on a walk, with what the steps draw and need.
#[derive(Drop)]
struct Walker<'a> {
    draft: Draft<'a>,
    dice: Dice,
    relay: Relay,
    hand: Hand,
    // The slabs that a step empties.
    slabs: Vec<u16>,
    ghost some: { 0 < length draft.links },
    ghost within: { All (λ slab. slab < length draft.links) slabs.items },
}

impl<'a> Walker<'a> {
    // Goes so many steps, or until nothing is lost.
    fn walk(&mut self, alloc: Global, steps: u64) -> Result<(), OutOfMemory>
        ensures { self.new.draft.instance.now ≡ self.old.draft.instance.now }
    {
        for step in 0..steps {
            if self.draft.loss() == 0 {
                break;
            }
            if step % ROUND == ROUND - 1 {
                self.fill_slabs(alloc)?;
            } else {
                self.split_pairs()?;
            }
        }
        Ok(())
    }

    // Lays some pairs of slabs anew, the first of each one that loses anything.
    fn split_pairs(&mut self) -> Result<(), OutOfMemory>
        ensures { self.new.draft.instance.now ≡ self.old.draft.instance.now }
    {
        for _ in 0..PAIRS {
            let first = self.losing_slab();
            let Some(second) = self.other_slab(first) else {
                continue;
            };
            let aim = if self.dice.below(10) == 0 {
                Aim::Any
            } else {
                Aim::Uneven
            };
            self.relay
                .split(&mut self.draft, &mut self.dice, (first, second), aim)?;
        }
        Ok(())
    }

    // A slab that loses anything, from a slab on that is drawn.
    fn losing_slab(&mut self) -> u16
        ensures slab { result < length self.new.draft.links }
        ensures draft { self.new.draft ≡ self.old.draft }
    {
        let count = self.draft.len();
        let drawn = self.dice.below(count as usize) as u16;
        for slab in drawn..count {
            if self.draft.slab_loss(slab) > 0 {
                return slab;
            }
        }
        for slab in 0..drawn {
            if self.draft.slab_loss(slab) > 0 {
                return slab;
            }
        }
        drawn
    }

    // The slab of an order that is drawn.
    fn used_slab(&mut self) -> u16
        ensures slab { result < length self.new.draft.links }
        ensures draft { self.new.draft ≡ self.old.draft }
    {
        let place = self.dice.below(self.draft.len() as usize);
        self.draft.slab_of(place as u16)
    }

    // A used slab besides one, or one that isn't used.
    fn other_slab(&mut self, first: u16) -> Option<u16>
        ensures slab { IfSome result (λ slab. slab < length self.new.draft.links) }
        ensures draft { self.new.draft ≡ self.old.draft }
    {
        let second = self.used_slab();
        if second == first {
            return self.draft.unused_slab();
        }
        Some(second)
    }

    // Empties some slabs and fills them again; where they then lose more, all goes back.
    fn fill_slabs(&mut self, alloc: Global) -> Result<(), OutOfMemory>
        ensures { self.new.draft.instance.now ≡ self.old.draft.instance.now }
    {
        let before = self.draft.loss();
        self.draw_slabs()?;
        self.hand.take(&self.draft, &mut self.dice, &self.slabs)?;
        if !self.hand.fill(alloc, &self.draft, &self.slabs)? {
            return Ok(());
        }
        self.hand.lay(&mut self.draft);
        self.close_pairs()?;
        if self.draft.loss() > before {
            self.hand.lay_back(&mut self.draft);
        }
        Ok(())
    }

    // Draws the slabs that a step empties: up to four that lose anything, up to six others, and
    // one that isn't used.
    fn draw_slabs(&mut self) -> Result<(), OutOfMemory>
        ensures { self.new.draft ≡ self.old.draft }
    {
        self.slabs.clear();
        for _ in 0..self.dice.below(4) + 1 {
            let slab = self.losing_slab();
            self.add_slab(slab)?;
        }
        for _ in 0..self.dice.below(5) + 2 {
            let slab = self.used_slab();
            self.add_slab(slab)?;
        }
        if let Some(slab) = self.draft.unused_slab() {
            self.add_slab(slab)?;
        }
        Ok(())
    }

    // Adds a slab to those that a step empties.
    fn add_slab(&mut self, slab: u16) -> Result<(), OutOfMemory>
        requires { slab < length self.old.draft.links }
        ensures { self.new.draft ≡ self.old.draft }
    {
        if !self.slabs.contains(&slab) {
            self.slabs.push(slab)?;
        }
        Ok(())
    }

    // Lays pairs of the slabs that were filled anew so that they lose less, until none does.
    fn close_pairs(&mut self) -> Result<(), OutOfMemory>
        ensures instance { self.new.draft.instance.now ≡ self.old.draft.instance.now }
        ensures count { length self.new.draft.links ≡ length self.old.draft.links }
        ensures hand { self.new.hand ≡ self.old.hand }
    {
        for _ in 0..SWEEPS {
            let before = self.draft.loss();
            self.sweep_pairs()?;
            if self.draft.loss() == before {
                break;
            }
        }
        Ok(())
    }

    // Lays each pair of the slabs that were filled anew, where it then loses less.
    fn sweep_pairs(&mut self) -> Result<(), OutOfMemory>
        ensures instance { self.new.draft.instance.now ≡ self.old.draft.instance.now }
        ensures count { length self.new.draft.links ≡ length self.old.draft.links }
        ensures hand { self.new.hand ≡ self.old.hand }
    {
        for high in 0..self.slabs.len() {
            for low in 0..high {
                let pair = (self.slabs[low], self.slabs[high]);
                self.relay
                    .split(&mut self.draft, &mut self.dice, pair, Aim::Less)?;
            }
        }
        Ok(())
    }
}
