//! A plan that a walk changes.
ghost use Rattle.std.specs.Prelude.{◌≡◌, ◌<◌, ◌≤◌, ◌+◌, All, IfOk, IfSome, length, true};
ghost use Rattle.mill_model.specs.Charges.{Reaches};
ghost use Rattle.mill_model.specs.Instance.{mill_of};
ghost use Rattle.mill_model.specs.Plan.{numbers_each};
ghost use Rattle.mill_model.specs.declared.order.TheConstants.{MAX_ORDERS};

use index_links::SlabLinks;
use mill_model::{Charges, Instance, MAX_CHARGE, MAX_ORDERS, Order, OutOfMemory, Plan};
use slab_rules::OpenSlab;
use std::alloc::Global;

/// A plan under change, by the list of orders, the load and the charge of each slab.
#[derive(Drop)]
pub struct Draft<'a> {
    instance: &'a Instance,
    charges: &'a Charges,
    links: SlabLinks,
    loads: Vec<u32>,
    loss: u64,
    ghost reach: { Reaches charges.now (mill_of instance.now) },
    ghost orders: { length links ≡ length instance.now.orders },
    ghost few: { length links ≤ MAX_ORDERS },
    ghost slabs: { length loads.items ≡ length links },
}

impl<'a> Draft<'a> {
    /// The draft of a plan.
    pub fn new(
        alloc: Global,
        instance: &'a Instance,
        charges: &'a Charges,
        plan: &Plan,
    ) -> Result<Draft<'a>, OutOfMemory>
        requires each { numbers_each plan.now instance.now.orders ≡ true }
        requires reach { Reaches charges.now (mill_of instance.now) }
        ensures instance { IfOk result (λ draft. draft.instance.now ≡ instance.now) }
    {
        let orders = instance.orders();
        let links = SlabLinks::new(alloc, plan)?;
        let loads = vec![in alloc; 0; orders.len()]?;
        let mut draft = Draft {
            instance,
            charges,
            links,
            loads,
            loss: 0,
        };
        draft.add_up();
        Ok(draft)
    }

    // Adds up the loads, and what the slabs lose.
    fn add_up(&mut self)
        ensures count { length self.new.links ≡ length self.old.links }
        ensures instance { self.new.instance.now ≡ self.old.instance.now }
    {
        for place in 0..self.len() {
            let slab = self.links.slab_of(place);
            self.add_load(slab, place);
        }
        for slab in 0..self.len() {
            self.loss = self.loss.saturating_add(self.slab_loss(slab));
        }
    }

    /// How many orders there are.
    pub fn len(&self) -> u16
        ensures is { result ≡ length self.now.links }
        ensures few { result ≤ MAX_ORDERS }
    {
        self.instance.orders().len() as u16
    }

    /// How many colours a slab may carry.
    pub fn p(&self) -> u8 {
        self.instance.p()
    }

    /// A slab with no order, to be filled.
    pub fn empty_slab(&self, alloc: Global) -> OpenSlab {
        OpenSlab::empty(alloc, self.instance.largest(), self.instance.p())
    }

    /// What it loses.
    pub fn loss(&self) -> u64 {
        self.loss
    }

    /// An order by its place in the file.
    pub fn order(&self, place: u16) -> Order
        requires { place < length self.now.links }
    {
        self.instance.orders()[place as usize]
    }

    /// The slab of an order.
    pub fn slab_of(&self, place: u16) -> u16
        requires { place < length self.now.links }
        ensures { result < length self.now.links }
    {
        self.links.slab_of(place)
    }

    /// A slab with no order.
    pub fn unused_slab(&self) -> Option<u16>
        ensures { IfSome result (λ slab. slab < length self.now.links) }
    {
        for slab in 0..self.len() {
            if self.loads[slab as usize] == 0 {
                return Some(slab);
            }
        }
        None
    }

    /// What a slab of this load loses; more than any, where it is too heavy.
    pub fn charge(&self, load: u32) -> u64 {
        if load > self.instance.largest() {
            return MAX_CHARGE.saturating_add(1);
        }
        self.charges.charge(load)
    }

    /// What a slab loses.
    pub fn slab_loss(&self, slab: u16) -> u64
        requires { slab < length self.now.links }
    {
        self.charge(self.loads[slab as usize])
    }

    /// Adds the orders of a slab to a list of places.
    pub fn list(&self, slab: u16, places: &mut Vec<u16>) -> Result<(), OutOfMemory>
        requires slab { slab < length self.now.links }
        requires below { All (λ place. place < length self.now.links) places.old.items }
        ensures below { All (λ place. place < length self.now.links) places.new.items }
    {
        let mut next = self.links.first(slab);
        for _ in 0..MAX_ORDERS {
            let Some(place) = next else {
                break;
            };
            places.push(place)?;
            next = self.links.next(place);
        }
        Ok(())
    }

    /// Lays an order on a slab.
    pub fn lay(&mut self, place: u16, slab: u16)
        requires place { place < length self.old.links }
        requires slab { slab < length self.old.links }
        ensures count { length self.new.links ≡ length self.old.links }
        ensures instance { self.new.instance.now ≡ self.old.instance.now }
    {
        let old = self.links.slab_of(place);
        if old == slab {
            return;
        }
        let before = self.slab_loss(old).saturating_add(self.slab_loss(slab));
        self.links.move_to(place, slab);
        let weight = self.order(place).weight;
        self.loads[old as usize] = self.loads[old as usize].saturating_sub(weight);
        self.add_load(slab, place);
        let after = self.slab_loss(old).saturating_add(self.slab_loss(slab));
        self.loss = self.loss.saturating_sub(before).saturating_add(after);
    }

    /// The plan that it stands for.
    pub fn to_plan(&self, alloc: Global) -> Result<Plan, OutOfMemory>
        ensures { IfOk result (λ plan. numbers_each plan self.now.instance.now.orders ≡ true) }
    {
        let mut slabs = Vec::with_capacity(alloc, self.len() as usize)?;
        for place in 0..self.len() {
            slabs.push(self.links.slab_of(place))?;
        }
        Ok(Plan::from_list(slabs))
    }

    // Adds the weight of an order to the load of a slab.
    fn add_load(&mut self, slab: u16, place: u16)
        requires place { place < length self.old.links }
        requires slab { slab < length self.old.links }
        ensures count { length self.new.links ≡ length self.old.links }
        ensures instance { self.new.instance.now ≡ self.old.instance.now }
    {
        let weight = self.order(place).weight;
        let load = self.loads[slab as usize];
        self.loads[slab as usize] = load.saturating_add(weight);
    }
}
