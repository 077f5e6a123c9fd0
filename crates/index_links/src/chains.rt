//! Chains of orders, linked both ways: one for each slab.
ghost use Rattle.std.specs.Prelude.{◌≡◌, ◌<◌, Some, None, cond, length, replicate, IfOk, IfSome};
ghost use Rattle.std.specs.Prelude.{slice_set};
ghost use Rattle.index_links.specs.Links.{is_none, look, set_at};

use mill_model::OutOfMemory;
use std::alloc::Global;

// By slab its first order, and by order its neighbours in its list.
#[derive(Debug, Drop)]
pub(crate) struct Chains {
    pub(crate) firsts: Vec<Option<u16>>,
    pub(crate) nexts: Vec<Option<u16>>,
    pub(crate) previous: Vec<Option<u16>>,
}

impl Chains {
    // Empty chains for so many slabs and as many orders.
    pub(crate) fn empty(alloc: Global, orders: usize) -> Result<Chains, OutOfMemory>
        ensures firsts { IfOk result (λ chains. chains.firsts.items ≡ replicate orders None) }
        ensures nexts { IfOk result (λ chains. chains.nexts.items ≡ replicate orders None) }
        ensures previous { IfOk result (λ chains. chains.previous.items ≡ replicate orders None) }
    {
        Ok(Chains {
            firsts: vec![in alloc; None; orders]?,
            nexts: vec![in alloc; None; orders]?,
            previous: vec![in alloc; None; orders]?,
        })
    }

    // Takes an order out of the chain of a slab.
    pub(crate) fn unlink(&mut self, order: u16, slab: u16)
        requires order { order < length self.old.nexts.items }
        requires slab { slab < length self.old.firsts.items }
        requires same { length self.old.previous.items ≡ length self.old.nexts.items }
        requires next { IfSome (look self.old.nexts.items order)
            (λ other. other < length self.old.nexts.items) }
        requires before { IfSome (look self.old.previous.items order)
            (λ other. other < length self.old.nexts.items) }
        ensures firsts { self.new.firsts.items
            ≡ cond (is_none (look self.old.previous.items order))
            (slice_set self.old.firsts.items slab (look self.old.nexts.items order))
            self.old.firsts.items }
        ensures nexts { self.new.nexts.items ≡ set_at (look self.old.previous.items order)
            (look self.old.nexts.items order) self.old.nexts.items }
        ensures previous { self.new.previous.items ≡ set_at (look self.old.nexts.items order)
            (look self.old.previous.items order) self.old.previous.items }
    {
        let before = self.previous[order as usize];
        let after = self.nexts[order as usize];
        match before {
            Some(other) => self.nexts[other as usize] = after,
            None => self.firsts[slab as usize] = after,
        }
        if let Some(other) = after {
            self.previous[other as usize] = before;
        }
    }

    // Puts an order, which is in no chain, first in the chain of a slab.
    pub(crate) fn link(&mut self, order: u16, slab: u16)
        requires order { order < length self.old.nexts.items }
        requires slab { slab < length self.old.firsts.items }
        requires same { length self.old.previous.items ≡ length self.old.nexts.items }
        requires first { IfSome (look self.old.firsts.items slab)
            (λ other. other < length self.old.nexts.items) }
        ensures firsts { self.new.firsts.items
            ≡ slice_set self.old.firsts.items slab (Some order) }
        ensures nexts { self.new.nexts.items
            ≡ slice_set self.old.nexts.items order (look self.old.firsts.items slab) }
        ensures previous { self.new.previous.items ≡ slice_set
            (set_at (look self.old.firsts.items slab) (Some order) self.old.previous.items)
            order None }
    {
        let first = self.firsts[slab as usize];
        if let Some(other) = first {
            self.previous[other as usize] = Some(order);
        }
        self.nexts[order as usize] = first;
        self.previous[order as usize] = None;
        self.firsts[slab as usize] = Some(order);
    }
}
