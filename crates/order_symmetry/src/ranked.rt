//! The orders of an instance in rank: their places in the file, their classes, and plans by rank.
ghost use Rattle.std.specs.Prelude.{◌≡◌, ◌<◌, ◌≤◌, List, true, length, IfOk};
ghost use Rattle.std.specs.Prelude.{slice_get, slice_index};
ghost use Rattle.mill_model.specs.Instance.{IsOrder};
ghost use Rattle.mill_model.specs.Plan.{numbers_each};
ghost use Rattle.mill_model.specs.Rank.{rank, starts_class_in};
ghost use Rattle.order_symmetry.specs.Ranked.{IsRanked, IsRankOf, IsPlanOf, orders_of, homes_of};

use crate::numbered::{Numbered, sort_in_rank};
use mill_model::{Instance, MAX_ORDERS, Order, OutOfMemory, Path, Plan};
use std::alloc::Global;
use std::marker::Model;

/// The orders of an instance in rank: by weight falling, then colour rising, then place in the
/// file. A class is a run of orders of one weight and one colour.
#[derive(Debug, Drop)]
pub struct Ranked {
    placed: Vec<Numbered>,
    largest: u32,
    p: u8,
}

impl Model for Ranked {
    ghost use Rattle.std.specs.Prelude.{map};
    ghost use Rattle.order_symmetry.specs.Numbered.{placed_of};
    ghost use Rattle.order_symmetry.specs.Ranked.{RankedOrders, IsRanked};

    ghost Value = { RankedOrders };

    ghost view = { λ r. record {
      placed = map placed_of r.placed.items;
      mill = record { largest = r.largest; most_colours = r.p };
    } };

    ghost invariant = { λ r. IsRanked (record {
      placed = map placed_of r.placed.items;
      mill = record { largest = r.largest; most_colours = r.p };
    }) };
}

impl Ranked {
    /// Ranks the orders of an instance.
    pub fn new(alloc: Global, instance: &Instance) -> Result<Ranked, OutOfMemory>
        ensures { IfOk result (IsRankOf instance.now) }
    {
        let orders = instance.orders();
        let mut placed = Vec::with_capacity(alloc, orders.len())?;
        for (home, &order) in orders.iter().enumerate() {
            placed.push(Numbered {
                order,
                number: home as u16,
            })?;
        }
        sort_in_rank(&mut placed);
        Ok(Ranked {
            placed,
            largest: instance.largest(),
            p: instance.p(),
        })
    }

    /// How many orders there are.
    pub fn len(&self) -> u16
        ensures is { result ≡ length self.now.placed }
        ensures few { result ≤ MAX_ORDERS }
        ensures kept { IsRanked self.now }
    {
        self.placed.len() as u16
    }

    /// The largest size.
    pub fn largest(&self) -> u32
        ensures is { result ≡ self.now.mill.largest }
        ensures low { 1 ≤ result }
        ensures high { result ≤ 20000 }
        ensures kept { IsRanked self.now }
    {
        self.largest
    }

    /// How many colours a slab may carry.
    pub fn p(&self) -> u8
        ensures is { result ≡ self.now.mill.most_colours }
        ensures low { 1 ≤ result }
        ensures high { result ≤ 8 }
        ensures kept { IsRanked self.now }
    {
        self.p
    }

    /// The order of rank k, from 0.
    pub fn order(&self, k: u16) -> Order
        requires { k < length self.now.placed }
        ensures is { slice_get (orders_of self.now) k ≡ Some result }
        ensures limits { IsOrder result }
    {
        self.placed[k as usize].order
    }

    /// The place in the file of the order of rank k, both from 0.
    pub fn home(&self, k: u16) -> u16
        requires { k < length self.now.placed }
        ensures is { result ≡ slice_index (homes_of self.now) k }
        ensures within { result < length self.now.placed }
    {
        self.placed[k as usize].number
    }

    /// Whether a class starts at depth k, which is so at both ends.
    pub fn starts_class(&self, k: u16) -> bool
        requires { k ≤ length self.now.placed }
        ensures { result ≡ starts_class_in k (orders_of self.now) }
    {
        let k = k as usize;
        k == 0 || k == self.placed.len() || self.placed[k - 1].order != self.placed[k].order
    }

    /// The plan, in the file's order, that gives each order the number that the path gives it in
    /// rank.
    pub fn plan_of(&self, alloc: Global, path: &Path) -> Result<Plan, OutOfMemory>
        requires { numbers_each path.now (orders_of self.now) ≡ true }
        ensures { IfOk result (λ plan. (orders : List Order) → self.now.placed ≡ rank orders →
            IsPlanOf orders path.now plan) }
    {
        let mut slabs = vec![in alloc; 0u16; self.placed.len()]?;
        for (rank, &number) in path.numbers().iter().enumerate() {
            slabs[self.placed[rank].number as usize] = number;
        }
        Ok(Plan::from_list(slabs))
    }
}
