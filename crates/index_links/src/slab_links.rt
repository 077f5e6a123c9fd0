//! The lists of a plan: chains of orders by slab, and of each order its slab.
ghost use Rattle.std.specs.Prelude.{◌≡◌, ◌+◌, ◌<◌, ◌≤◌, ◌++◌, All, IfOk, IfSome, length};
ghost use Rattle.std.specs.Prelude.{slice_get, slice_set, take};
ghost use Rattle.mill_model.specs.declared.order.TheConstants.{MAX_ORDERS};
ghost use Rattle.index_links.specs.Lists.{AreSlabLists, after, list_at, lists_of_plan, moved};
ghost use Rattle.index_links.specs.Lists.{plan_of, slab_in};

use crate::chains::Chains;
use mill_model::{OutOfMemory, Plan};
use std::alloc::Global;
use std::marker::Model;

/// The orders of each slab of a plan as a list, doubly linked through the order numbers, so that
/// an order goes from one list to another in a fixed number of steps. It is seen as these lists,
/// and each order is in exactly one.
#[derive(Debug, Drop)]
pub struct SlabLinks {
    chains: Chains,
    // By order: its slab.
    slabs: Vec<u16>,
}

impl Model for SlabLinks {
    ghost use Rattle.std.specs.Prelude.{List, ℕ};
    ghost use Rattle.index_links.specs.Links.{IsLinked, lists_of};

    ghost Value = { List (List ℕ) };

    ghost view = { λ l. lists_of l.chains.firsts.items l.chains.nexts.items };

    ghost invariant = { λ l. IsLinked l.chains.firsts.items l.chains.nexts.items
        l.chains.previous.items l.slabs.items
        (lists_of l.chains.firsts.items l.chains.nexts.items) };
}

impl SlabLinks {
    /// The lists of a plan, with the orders of each slab by rising number.
    pub fn new(alloc: Global, plan: &Plan) -> Result<SlabLinks, OutOfMemory>
        requires few { length plan.now ≤ MAX_ORDERS }
        requires below { All (λ s. s < length plan.now) plan.now }
        ensures lists { IfOk result (λ links. links ≡ lists_of_plan plan.now) }
        ensures plan { IfOk result (λ links. plan_of links ≡ plan.now) }
        ensures count { IfOk result (λ links. length links ≡ length plan.now) }
        ensures kept { IfOk result AreSlabLists }
    {
        let slabs = plan.slabs().to_vec(alloc)?;
        let mut chains = Chains::empty(alloc, slabs.len())?;
        for order in (0..slabs.len()).rev() {
            chains.link(order as u16, slabs[order]);
        }
        Ok(SlabLinks { chains, slabs })
    }

    /// How many orders there are, which is also the number of slabs.
    pub fn len(&self) -> u16
        ensures is { result ≡ length self.now }
        ensures kept { AreSlabLists self.now }
    {
        self.slabs.len() as u16
    }

    /// The first order of a slab.
    pub fn first(&self, slab: u16) -> Option<u16>
        requires { slab < length self.now }
        ensures is { result ≡ slice_get (list_at self.now slab) 0 }
        ensures low { IfSome result (λ order. order < length self.now) }
        ensures kept { AreSlabLists self.now }
    {
        self.chains.firsts[slab as usize]
    }

    /// The order behind an order in its list.
    pub fn next(&self, order: u16) -> Option<u16>
        requires { order < length self.now }
        ensures is { result ≡ after order (list_at self.now (slab_in self.now order)) }
        ensures low { IfSome result (λ order. order < length self.now) }
        ensures kept { AreSlabLists self.now }
    {
        self.chains.nexts[order as usize]
    }

    /// Writes the list of a slab into `places`, from place `from` on, and gives the place behind
    /// it.
    pub fn write_list(&self, slab: u16, places: &mut [u16], from: usize) -> usize
        requires slab { slab < length self.now }
        requires room { from + length (list_at self.now slab) ≤ length places.old }
        ensures list { take result places.new ≡ take from places.old ++ list_at self.now slab }
        ensures end { result ≡ from + length (list_at self.now slab) }
        ensures kept { AreSlabLists self.now }
    {
        let mut end = from;
        let mut next = self.first(slab);
        while let Some(order) = next {
            places[end] = order;
            end += 1;
            next = self.next(order);
        }
        end
    }

    /// The slab whose list an order is in.
    pub fn slab_of(&self, order: u16) -> u16
        requires { order < length self.now }
        ensures is { result ≡ slab_in self.now order }
        ensures low { result < length self.now }
        ensures kept { AreSlabLists self.now }
    {
        self.slabs[order as usize]
    }

    /// Takes an order out of its list and puts it first in that of a slab. All else stays.
    pub fn move_to(&mut self, order: u16, slab: u16)
        requires order { order < length self.old }
        requires slab { slab < length self.old }
        ensures lists { self.new ≡ moved order slab self.old }
        ensures plan { plan_of self.new ≡ slice_set (plan_of self.old) order slab }
        ensures count { length self.new ≡ length self.old }
        ensures kept { AreSlabLists self.new }
    {
        let old = self.slabs[order as usize];
        self.chains.unlink(order, old);
        self.chains.link(order, slab);
        self.slabs[order as usize] = slab;
    }

    /// The plan that the lists stand for.
    pub fn to_plan(&self, alloc: Global) -> Result<Plan, OutOfMemory>
        ensures { IfOk result (λ plan. plan ≡ plan_of self.now) }
    {
        Ok(Plan::from_list(self.slabs.to_vec(alloc)?))
    }
}
