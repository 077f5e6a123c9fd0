//! Scans of pairs of slabs: each pair is tried in turn, and after each change from the first on,
//! but for pairs that were closed and haven't changed since.
ghost use Rattle.std.specs.Prelude.{◌≡◌, ◌+◌, ◌<◌, ◌≤◌, true, length, slice_index};
ghost use Rattle.std.specs.Prelude.{IfOk, IfSome, IfNone};
ghost use Rattle.mill_model.specs.Charges.{Reaches, charge_of};
ghost use Rattle.mill_model.specs.Pairs.{pair_at, pairs_with, pairs_of, pair_loss, closed_pair};
ghost use Rattle.mill_model.specs.Plan.{slab, IsLegalPlan};
ghost use Rattle.list_laws.specs.Sets.{holds};
ghost use Rattle.mill_model.specs.Slab.{load};
ghost use Rattle.large_moves.specs.Coloured.{IsByColour, AreHomes, orders_of, plan_of, homes_of};
ghost use Rattle.large_moves.specs.Laid.{SameOrders, StayElsewhere, IsLaid, laid_loss};
ghost use Rattle.large_moves.specs.Scans.{is_pair, IsScan, AreTimesOf, ClosesPairs};

use crate::by_colour::{orders_alone, read_plan};
use crate::closed::Closed;
use crate::coloured::Coloured;
use crate::pair::{ChargedOrders, Pair, try_split};
use crate::room::Room;
use crate::scan::Scan;
use crate::tries::Tries;
use index_links::SlabLinks;
use mill_model::{Charges, Order, OutOfMemory, Plan};
use order_symmetry::Ranked;
use pair_split::Splitter;
use plan_check::slab_loads;
use std::alloc::Global;
use std::marker::Model;

/// Orders on the slabs of a mill, those of each colour together, that moves lay anew. It holds
/// what a try needs, so that a try takes no memory.
#[derive(Debug, Drop)]
pub struct Mover {
    orders: Vec<Order>,
    links: SlabLinks,
    // The load of each slab.
    loads: Vec<u64>,
    splitter: Splitter,
    room: Room,
    // Which of the orders of a pair go to its first slab.
    marks: Vec<bool>,
}

impl Model for Mover {
    ghost use Rattle.index_links.specs.Lists.{plan_of as listed_plan};
    ghost use Rattle.large_moves.specs.Laid.{Laid, IsMover};

    ghost Value = { Laid };

    ghost view = { λ m. record {
      mill = m.splitter;
      orders = m.orders.items;
      plan = listed_plan m.links;
    } };

    ghost invariant = { λ m. IsMover (record {
      mill = m.splitter;
      orders = m.orders.items;
      plan = listed_plan m.links;
    }) m.links m.loads.items m.room m.marks.items };
}

impl Mover {
    /// Lays orders by colour on the slabs that a plan of the file's orders gives them.
    pub fn new(
        alloc: Global,
        ranked: &Ranked,
        coloured: &[Coloured],
        slabs: &[u16],
    ) -> Result<Mover, OutOfMemory>
        requires sorted { IsByColour ranked.now.placed coloured.now }
        requires homes { AreHomes (homes_of coloured.now) (length slabs.now) }
        requires legal { IsLegalPlan ranked.now.mill (orders_of coloured.now)
            (plan_of coloured.now slabs.now) }
        ensures { IfOk result (λ mover. mover ≡ record {
          mill = ranked.now.mill;
          orders = orders_of coloured.now;
          plan = plan_of coloured.now slabs.now;
        }) }
    {
        let splitter = Splitter::new(alloc, ranked.largest(), ranked.p())?;
        let orders = orders_alone(alloc, coloured)?;
        let plan = read_plan(alloc, coloured, slabs)?;
        let loads = slab_loads(alloc, &orders, &plan)?;
        let room = Room::new(alloc, &orders)?;
        let marks = vec![in alloc; false; orders.len()]?;
        let links = SlabLinks::new(alloc, &Plan::from_list(plan))?;
        Ok(Mover {
            orders,
            links,
            loads,
            splitter,
            room,
            marks,
        })
    }

    /// The slabs of the orders.
    pub fn to_plan(&self, alloc: Global) -> Result<Plan, OutOfMemory>
        ensures is { IfOk result (λ plan. plan ≡ self.now.plan) }
        ensures kept { IsLaid self.now }
    {
        self.links.to_plan(alloc)
    }

    /// What the plan loses.
    pub fn loss(&self, charges: &Charges) -> u64
        requires reach { Reaches charges.now self.now.mill }
        ensures { result ≡ laid_loss (charge_of charges.now) self.now }
    {
        let mut loss = 0;
        for s in 0..self.len() {
            loss += self.slab_loss(charges, s);
        }
        loss
    }

    // Whether a slab is used.
    fn is_used(&self, s: u16) -> bool
        requires { s < length self.now.orders }
        ensures { result ≡ holds s self.now.plan }
    {
        self.loads[s as usize] > 0
    }

    // Whether two slabs are a pair.
    fn is_pair(&self, a: u16, b: u16) -> bool
        requires first { a < length self.now.orders }
        requires second { b < length self.now.orders }
        ensures { result ≡ is_pair self.now.plan a b }
    {
        a <= b && self.is_used(a) && self.is_used(b)
    }

    // What a slab loses.
    fn slab_loss(&self, charges: &Charges, s: u16) -> u64
        requires slab { s < length self.now.orders }
        requires reach { Reaches charges.now self.now.mill }
        ensures is { result ≡ charge_of charges.now
            (load (slab s self.now.plan self.now.orders)) }
        ensures limit { result ≤ 100000000 }
    {
        charges.charge(self.loads[s as usize] as u32)
    }

    // What the orders of a pair lose.
    fn pair_loss(&self, charges: &Charges, a: u16, b: u16) -> u64
        requires first { a < length self.now.orders }
        requires second { b < length self.now.orders }
        requires reach { Reaches charges.now self.now.mill }
        ensures is { result ≡ pair_loss (charge_of charges.now) self.now.orders
            self.now.plan a b }
    {
        let first = self.slab_loss(charges, a);
        let second = if a < b { self.slab_loss(charges, b) } else { 0 };
        first + second
    }

    // Lays the orders of a pair anew, where a split of them loses less than they do; the slab
    // besides the first that changes.
    fn try_pair(&mut self, charges: &Charges, pair: Pair) -> Option<u16>
        requires reach { Reaches charges.now self.old.mill }
        requires rise { pair.first ≤ pair.second }
        requires second { pair.second < length self.old.orders }
        requires used { holds pair.first self.old.plan ≡ true }
        requires loss { pair.loss ≡ pair_loss (charge_of charges.now) self.old.orders
            self.old.plan pair.first pair.second }
        ensures same { SameOrders self.old self.new }
        ensures kept { IfNone result (self.new ≡ self.old) }
        ensures closed { IfNone result (closed_pair self.old.mill
            (charge_of charges.now) self.old.orders self.old.plan pair.first pair.second ≡ true) }
        ensures less { IfSome result (λ c. laid_loss (charge_of charges.now) self.new
            < laid_loss (charge_of charges.now) self.old) }
        ensures second { IfSome result (λ c. c < length self.old.orders) }
        ensures stay { IfSome result (λ c. StayElsewhere pair.first c self.old.plan
            self.new.plan) }
    {
        try_split(
            &mut self.splitter,
            &mut self.room,
            &mut self.marks,
            &ChargedOrders {
                list: &self.orders,
                charges,
            },
            &mut self.links,
            &mut self.loads,
            pair,
        )
    }

    // Tries a pair of slabs, if they are one that loses anything and isn't known to be closed.
    fn scan_pair(&mut self, charges: &Charges, tries: &mut Tries, a: u16, b: u16) -> Scan
        requires reach { Reaches charges.now self.old.mill }
        requires first { a < length self.old.orders }
        requires second { b < length self.old.orders }
        requires times { AreTimesOf (charge_of charges.now) self.old tries.old }
        ensures same { SameOrders self.old self.new }
        ensures times { AreTimesOf (charge_of charges.now) self.new tries.new }
        ensures scan { IsScan (charge_of charges.now) self.old self.new
            (pair_at self.old.plan a b) tries.old.left tries.new.left result }
    {
        if !self.is_pair(a, b) {
            return Scan::Done;
        }
        if tries.needs_none(a, b) {
            return Scan::Done;
        }
        let loss = self.pair_loss(charges, a, b);
        if loss == 0 {
            return Scan::Done;
        }
        if tries.left() == 0 {
            return Scan::Spent;
        }
        let pair = Pair {
            first: a,
            second: b,
            loss,
        };
        let Some(c) = self.try_pair(charges, pair) else {
            tries.spend();
            return Scan::Done;
        };
        tries.change(a, c);
        Scan::Changed
    }

    // Tries the pairs of slab `a`.
    fn scan_row(&mut self, charges: &Charges, tries: &mut Tries, a: u16) -> Scan
        requires reach { Reaches charges.now self.old.mill }
        requires first { a < length self.old.orders }
        requires times { AreTimesOf (charge_of charges.now) self.old tries.old }
        ensures same { SameOrders self.old self.new }
        ensures times { AreTimesOf (charge_of charges.now) self.new tries.new }
        ensures scan { IsScan (charge_of charges.now) self.old self.new
            (pairs_with self.old.plan a (length self.old.plan)) tries.old.left tries.new.left
            result }
    {
        if !self.is_used(a) {
            return Scan::Done;
        }
        for b in a..self.len() {
            match self.scan_pair(charges, tries, a, b) {
                Scan::Done => {}
                Scan::Spent => return Scan::Spent,
                Scan::Changed => return Scan::Changed,
            }
        }
        tries.close_row(a);
        Scan::Done
    }

    // Tries all pairs.
    fn scan(&mut self, charges: &Charges, tries: &mut Tries) -> Scan
        requires reach { Reaches charges.now self.old.mill }
        requires times { AreTimesOf (charge_of charges.now) self.old tries.old }
        ensures same { SameOrders self.old self.new }
        ensures times { AreTimesOf (charge_of charges.now) self.new tries.new }
        ensures scan { IsScan (charge_of charges.now) self.old self.new
            (pairs_of self.old.plan) tries.old.left tries.new.left result }
        ensures each { length self.old.plan ≡ length self.old.orders }
    {
        for a in 0..self.len() {
            match self.scan_row(charges, tries, a) {
                Scan::Done => {}
                Scan::Spent => return Scan::Spent,
                Scan::Changed => return Scan::Changed,
            }
        }
        Scan::Done
    }

    // How many orders there are.
    fn len(&self) -> u16
        ensures orders { result ≡ length self.now.orders }
        ensures plan { result ≡ length self.now.plan }
    {
        self.links.len()
    }

    /// Moves until all pairs are closed, or the tries are spent.
    pub fn close(&mut self, charges: &Charges, tries: &mut Tries) -> Closed
        requires reach { Reaches charges.now self.old.mill }
        requires times { AreTimesOf (charge_of charges.now) self.old tries.old }
        ensures same { SameOrders self.old self.new }
        ensures moved { ClosesPairs (charge_of charges.now) self.old self.new tries.old.left
            result }
    {
        loop {
            match self.scan(charges, tries) {
                Scan::Done => return Closed::Yes,
                Scan::Spent => return Closed::Spent,
                Scan::Changed => {}
            }
        }
    }
}
