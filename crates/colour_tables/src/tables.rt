// The tables of the orders to come, as one value.

ghost use Rattle.std.specs.Prelude.{◌≡◌, ◌↔◌, ℕ, ◌+◌, ◌-ℤ◌, ◌<◌, ◌≤◌, List, [], All, ℤ, length};
ghost use Rattle.std.specs.Prelude.{set, slice_index_or, true, false, IsTrue, IfOk, Some, None};
ghost use Rattle.std.specs.Prelude.{IfSome, IfNone, neg_ℤ};
ghost use Rattle.list_laws.specs.Sets.{holds, different};
ghost use Rattle.mill_model.specs.Bounds.{least_on_with, least_on_without, least_new_with};
ghost use Rattle.mill_model.specs.Bounds.{least_new};
ghost use Rattle.mill_model.specs.Charges.{charge_of};
ghost use Rattle.mill_model.specs.Limits.{IsPrice};
ghost use Rattle.mill_model.specs.Prices.{least_slack};
ghost use Rattle.mill_model.specs.declared.order.Order.{Order};
ghost use Rattle.mill_model.specs.declared.order.TheConstants.{MAX_ORDERS};
ghost use Rattle.set_minima.specs.Joins.{AreOrders, IsSlab};
ghost use Rattle.set_minima.specs.Packs.{nobody};
ghost use Rattle.set_minima.specs.Packs.{with_price};
ghost use Rattle.set_minima.specs.Cells.{IsSmall};
ghost use Rattle.colour_tables.specs.Leasts.{two_colours, table_slack_limit};
ghost use Rattle.colour_tables.specs.PricedOrders.{IsKnown, StandsFor, IsTurnOf, MayJoin};

use crate::colour_rows::Rows;
use crate::slab::{Own, Slab};
use crate::slabs;
use crate::slabs::Runs;
use crate::turn::Turn;
use mill_model::{Charges, Order};
use std::marker::Model;

/// Tables of orders with a price for each, for slabs that carry at most two colours: by load, the
/// greatest prices of the sets of each colour alone, and what is left of them without one colour or
/// two.
#[derive(Drop)]
pub(crate) struct OrderTables<'a> {
    pub(crate) rest: Vec<Order>,
    pub(crate) charges: &'a Charges,
    pub(crate) largest: usize,
    pub(crate) prices: Vec<i64>,
    pub(crate) colours: Vec<u16>,
    pub(crate) paid: Vec<i64>,
    pub(crate) runs: Runs,
    pub(crate) rows: Rows,
}

impl<'a> Model for OrderTables<'a> {
    ghost use Rattle.colour_tables.specs.PricedOrders.{PricedOrders, AreTables};

    ghost Value = { PricedOrders };

    ghost view = { λ t. record {
      rest = t.rest.items;
      prices = t.prices.items;
      colours = t.colours.items;
      largest = t.largest;
      charges = t.charges.now;
    } };

    ghost invariant = { λ t. AreTables (record {
      rest = t.rest.items;
      prices = t.prices.items;
      colours = t.colours.items;
      largest = t.largest;
      charges = t.charges.now;
    }) t.runs t.rows t.paid.items };
}

impl<'a> OrderTables<'a> {
    /// The least slack of a slab over all sets that may join it, the empty one included.
    ///
    /// `work` is a place to work in, with one number for each load.
    pub(crate) fn least_on(&self, work: &mut [i64], slab: Slab) -> i64
        requires known { IsKnown self.now slab }
        requires work { length work.old ≡ self.now.largest + 1 }
        ensures is { (group : List Order) → StandsFor self.now group slab → result ≡
            least_slack (two_colours self.now.largest) (charge_of self.now.charges) group
            self.now.rest self.now.prices }
        ensures small { IsSmall table_slack_limit result }
    {
        let room = self.largest - slab.load + 1;
        let charges = &self.paid[slab.load..];
        slabs::least_on(&self.rows, &self.runs, &mut work[..room], charges, slab.own)
    }

    /// The order at a place.
    pub(crate) fn order(&self, place: usize) -> Order
        requires { place < length self.now.rest }
        ensures { result ≡ slice_index_or self.now.rest place nobody }
    {
        self.rest[place]
    }

    // The least slack of a new slab over all sets that hold the order in its turn, which fits one.
    fn least_fitting(&self, turn: &Turn) -> i64
        requires turn { IsTurnOf self.now turn.now }
        requires fits { (slice_index_or self.now.rest turn.now.place nobody).weight
            ≤ self.now.largest }
        ensures is { (price : ℤ) → least_new_with (two_colours self.now.largest)
            (charge_of self.now.charges) self.now.rest (set self.now.prices turn.now.place price)
            turn.now.place ≡ Some (result -ℤ price) }
        ensures small { IsSmall table_slack_limit result }
    {
        let weight = self.order(turn.place).weight as usize;
        slabs::least_new_with(
            &self.paid[weight..],
            &turn.beside,
            self.largest - weight + 1,
        )
    }

    /// The least slack of a new slab over all sets that hold the order in its turn, less no price
    /// for it. None where that order fits no slab.
    pub(crate) fn least_new_with(&self, turn: &Turn) -> Option<i64>
        requires turn { IsTurnOf self.now turn.now }
        ensures is { (price : ℤ) → least_new_with (two_colours self.now.largest)
            (charge_of self.now.charges) self.now.rest (set self.now.prices turn.now.place price)
            turn.now.place ≡ with_price (neg_ℤ price) result }
        ensures small { IfSome result (IsSmall table_slack_limit) }
    {
        if self.order(turn.place).weight as usize <= self.largest {
            Some(self.least_fitting(turn))
        } else {
            None
        }
    }

    // The least slack of a slab over all sets that hold the order in its turn, which may join it.
    fn least_joined(&self, work: &mut [i64], slab: Slab, turn: &Turn) -> i64
        requires known { IsKnown self.now slab }
        requires turn { IsTurnOf self.now turn.now }
        requires joins { MayJoin self.now turn.now slab }
        requires work { length work.old ≡ self.now.largest + 1 }
        ensures is { (price : ℤ) → (group : List Order) → StandsFor self.now group slab →
            least_on_with (two_colours self.now.largest) (charge_of self.now.charges) group
            self.now.rest (set self.now.prices turn.now.place price) turn.now.place
            ≡ Some (result -ℤ price) }
        ensures small { IsSmall table_slack_limit result }
    {
        let load = slab.load + self.order(turn.place).weight as usize;
        let room = self.largest - load + 1;
        slabs::least_with(
            &self.rows,
            &self.runs,
            &mut work[..room],
            &self.paid[load..],
            slab.own,
            &turn.tables(),
        )
    }

    /// The least slack of a slab over all sets that may join it and hold the order in its turn,
    /// less no price for it. None where that order can't join the slab.
    pub(crate) fn least_on_with(&self, work: &mut [i64], slab: Slab, turn: &Turn) -> Option<i64>
        requires known { IsKnown self.now slab }
        requires turn { IsTurnOf self.now turn.now }
        requires work { length work.old ≡ self.now.largest + 1 }
        ensures is { (price : ℤ) → (group : List Order) → StandsFor self.now group slab →
            least_on_with (two_colours self.now.largest) (charge_of self.now.charges) group
            self.now.rest (set self.now.prices turn.now.place price) turn.now.place
            ≡ with_price (neg_ℤ price) result }
        ensures small { IfSome result (IsSmall table_slack_limit) }
    {
        if self.can_join(slab, turn) {
            Some(self.least_joined(work, slab, turn))
        } else {
            None
        }
    }

    // The least slack of a slab over all sets without the order in its turn, which may join it.
    fn least_parted(&self, work: &mut [i64], slab: Slab, turn: &Turn) -> i64
        requires known { IsKnown self.now slab }
        requires turn { IsTurnOf self.now turn.now }
        requires joins { MayJoin self.now turn.now slab }
        requires work { length work.old ≡ self.now.largest + 1 }
        ensures is { (price : ℤ) → (group : List Order) → StandsFor self.now group slab →
            least_on_without (two_colours self.now.largest) (charge_of self.now.charges) group
            self.now.rest (set self.now.prices turn.now.place price) turn.now.place
            ≡ Some result }
        ensures small { IsSmall table_slack_limit result }
    {
        let room = self.largest - slab.load + 1;
        slabs::least_without(
            &self.rows,
            &self.runs,
            &mut work[..room],
            &self.paid[slab.load..],
            slab.own,
            &turn.tables(),
        )
    }

    /// The least slack of a slab over all sets that may join it without the order in its turn.
    /// Where there is none, that order can't join the slab.
    pub(crate) fn least_on_without(&self, work: &mut [i64], slab: Slab, turn: &Turn) -> Option<i64>
        requires known { IsKnown self.now slab }
        requires turn { IsTurnOf self.now turn.now }
        requires work { length work.old ≡ self.now.largest + 1 }
        ensures some { (price : ℤ) → (group : List Order) → StandsFor self.now group slab →
            IfSome result (λ least. least_on_without (two_colours self.now.largest)
            (charge_of self.now.charges) group self.now.rest
            (set self.now.prices turn.now.place price) turn.now.place ≡ Some least) }
        ensures none { (price : ℤ) → (group : List Order) → StandsFor self.now group slab →
            IfNone result (least_on_with (two_colours self.now.largest)
            (charge_of self.now.charges) group self.now.rest
            (set self.now.prices turn.now.place price) turn.now.place ≡ None) }
        ensures small { IfSome result (IsSmall table_slack_limit) }
    {
        if self.can_join(slab, turn) {
            Some(self.least_parted(work, slab, turn))
        } else {
            None
        }
    }

    /// The least slack of a new slab over all sets with something in them.
    pub(crate) fn least_new(&self, work: &mut [i64]) -> Option<i64>
        requires work { length work.old ≡ self.now.largest + 1 }
        ensures is { result ≡ least_new (two_colours self.now.largest) (charge_of self.now.charges)
            self.now.rest self.now.prices }
        ensures small { IfSome result (IsSmall table_slack_limit) }
    {
        slabs::least_new(&self.rows, &self.runs, work, &self.paid)
    }

    /// Gives the order in its turn a price. The turn is over then.
    pub(crate) fn set_price(&mut self, turn: &mut Turn, price: i64)
        requires turn { IsTurnOf self.old turn.old }
        requires price { IsPrice price }
        ensures prices { self.new.prices ≡ set self.old.prices turn.old.place price }
        ensures rest { self.new.rest ≡ self.old.rest }
        ensures colours { self.new.colours ≡ self.old.colours }
        ensures largest { self.new.largest ≡ self.old.largest }
        ensures charges { self.new.charges ≡ self.old.charges }
        ensures alone { length turn.new.alone.items ≡ length turn.old.alone.items }
        ensures beside { length turn.new.beside.items ≡ length turn.old.beside.items }
    {
        let weight = self.order(turn.place).weight as usize;
        let at = self.runs.position(turn.colour, turn.place);
        self.prices[turn.place] = price;
        self.runs.set_price(at, price);
        self.rows
            .set_price(&mut turn.alone, turn.colour, weight, price);
    }
}
