// The tables of a node: its later orders with their prices, and its groups.

ghost use Rattle.std.specs.Prelude.{◌≡◌, ℕ, ℤ, ◌+◌, ◌<◌, ◌≤◌, List, All, length, set, neg_ℤ, true};
ghost use Rattle.std.specs.Prelude.{Some, None, IfOk, IfSome, IfNone};
ghost use Rattle.mill_model.specs.Bounds.{least_new, least_new_with, least_on_with};
ghost use Rattle.mill_model.specs.Bounds.{least_on_without};
ghost use Rattle.mill_model.specs.Charges.{charge_of};
ghost use Rattle.mill_model.specs.Limits.{IsPrice};
ghost use Rattle.mill_model.specs.Prices.{least_slack};
ghost use Rattle.mill_model.specs.declared.order.Order.{Order};
ghost use Rattle.mill_model.specs.declared.order.TheConstants.{MAX_ORDERS};
ghost use Rattle.set_minima.specs.Cells.{IsSmall};
ghost use Rattle.set_minima.specs.Joins.{AreOrders};
ghost use Rattle.set_minima.specs.Packs.{with_price};
ghost use Rattle.colour_tables.specs.Grouped.{AreGroups, AreKnown, IsGroup, with_price_at};
ghost use Rattle.colour_tables.specs.Leasts.{table_slack_limit, two_colours};
ghost use Rattle.colour_tables.specs.PricedOrders.{IsTurnOf};

use crate::slab::Slab;
use crate::tables::OrderTables;
use crate::turn::Turn;
use mill_model::{Charges, Order, OutOfMemory};
use slab_rules::OpenSlab;
use std::alloc::Global;
use std::marker::Model;

/// Least slacks over the sets of a node's later orders, for a mill whose slabs carry at most two
/// colours. Orders go by their places among the later ones, groups by their numbers from 0. Prices
/// and slacks are in sixtieths of a loss unit.
///
/// All memory is taken by `new`. Calls on one order after another are fast, since the tables
/// without an order are made at the first of them.
#[derive(Drop)]
pub struct ColourTables<'a> {
    tables: OrderTables<'a>,
    groups: &'a [OpenSlab],
    slabs: Vec<Slab>,
    turn: Turn,
    in_turn: bool,
    work: Vec<i64>,
}

impl<'a> Model for ColourTables<'a> {
    ghost use Rattle.colour_tables.specs.Grouped.{GroupedOrders, IsServed};
    ghost use Rattle.colour_tables.specs.Leasts.{two_colours};

    ghost Value = { GroupedOrders };

    ghost view = { λ t. record {
      orders = t.tables.rest;
      prices = t.tables.prices;
      groups = t.groups.now;
      mill = two_colours t.tables.largest;
      charges = t.tables.charges;
    } };

    ghost invariant = { λ t.
        IsServed t.tables t.groups.now t.slabs.items t.turn t.in_turn t.work.items };
}

/// The groups as the tables know them.
fn known_slabs(
    alloc: Global,
    tables: &OrderTables,
    groups: &[OpenSlab],
) -> Result<Vec<Slab>, OutOfMemory>
    requires groups { AreGroups tables.now.largest groups.now }
    ensures count { IfOk result (λ slabs. length slabs.items ≡ length groups.now) }
    ensures known { IfOk result (λ slabs. AreKnown tables.now groups.now slabs.items) }
{
    let mut slabs = Vec::with_capacity(alloc, groups.len())?;
    for g in 0..groups.len() {
        let slab = &groups[g];
        slabs.push(tables.slab(slab.load(), slab.colours()))?;
    }
    Ok(slabs)
}

/// Makes a turn that of an order, where it isn't.
fn ready_turn(tables: &OrderTables, turn: &mut Turn, in_turn: bool, i: usize)
    requires here { i < length tables.now.rest }
    requires alone { length turn.old.alone.items ≡ tables.now.largest + 1 }
    requires beside { length turn.old.beside.items ≡ tables.now.largest + 1 }
    requires begun { in_turn ≡ true → IsTurnOf tables.now turn.old }
    ensures turn { IsTurnOf tables.now turn.new }
    ensures place { turn.new.place ≡ i }
{
    if !(in_turn && turn.place == i) {
        tables.begin_turn(turn, i);
    }
}

impl<'a> ColourTables<'a> {
    /// The tables of some orders with a price for each, and of the groups that they may join. The
    /// largest size of the mill is `largest`.
    pub fn new(
        alloc: Global,
        orders: &[Order],
        prices: &[i64],
        groups: &'a [OpenSlab],
        charges: &'a Charges,
        largest: u32,
    ) -> Result<ColourTables<'a>, OutOfMemory>
        requires few { length orders.now ≤ MAX_ORDERS }
        requires orders { AreOrders orders.now }
        requires one_each { length prices.now ≡ length orders.now }
        requires priced { All IsPrice prices.now }
        requires groups { AreGroups largest groups.now }
        requires size { largest ≤ 20000 }
        requires reach { length charges.now.list ≡ largest + 1 }
        ensures is { IfOk result (λ tables. tables ≡ record {
          orders = orders.now;
          prices = prices.now;
          groups = groups.now;
          mill = two_colours largest;
          charges = charges.now;
        }) }
    {
        let tables = OrderTables::new(alloc, orders, prices, charges, largest)?;
        let slabs = known_slabs(alloc, &tables, groups)?;
        let turn = Turn::new(alloc, largest)?;
        let work = vec![in alloc; 0; largest as usize + 1]?;
        Ok(ColourTables {
            tables,
            groups,
            slabs,
            turn,
            in_turn: false,
            work,
        })
    }

    /// The least slack of a new slab with something in it. None where no order fits a slab.
    pub fn least_new(&mut self) -> Option<i64>
        ensures is { result ≡ least_new self.old.mill (charge_of self.old.charges)
            self.old.orders self.old.prices }
        ensures small { IfSome result (IsSmall table_slack_limit) }
        ensures kept { self.new ≡ self.old }
    {
        self.tables.least_new(&mut self.work)
    }

    /// The least slack of a group over all sets that may join it, the empty one included.
    pub fn least_on(&mut self, g: usize) -> i64
        requires here { g < length self.old.groups }
        ensures is { (group : List Order) → IsGroup self.old g group → result ≡
            least_slack self.old.mill (charge_of self.old.charges) group self.old.orders
            self.old.prices }
        ensures small { IsSmall table_slack_limit result }
        ensures kept { self.new ≡ self.old }
    {
        self.tables.least_on(&mut self.work, self.slabs[g])
    }

    /// The least slack of a new slab with the order at `i`, whose own price doesn't count here.
    /// None where that order fits no slab.
    pub fn least_new_with(&mut self, i: usize) -> Option<i64>
        requires here { i < length self.old.orders }
        ensures is { (price : ℤ) → least_new_with self.old.mill (charge_of self.old.charges)
            self.old.orders (set self.old.prices i price) i ≡ with_price (neg_ℤ price) result }
        ensures small { IfSome result (IsSmall table_slack_limit) }
        ensures kept { self.new ≡ self.old }
    {
        ready_turn(&self.tables, &mut self.turn, self.in_turn, i);
        self.in_turn = true;
        self.tables.least_new_with(&self.turn)
    }

    /// The least slack of a group over the sets that hold the order at `i`, whose own price doesn't
    /// count here. None where that order can't join the group.
    pub fn least_on_with(&mut self, g: usize, i: usize) -> Option<i64>
        requires here { g < length self.old.groups }
        requires order { i < length self.old.orders }
        ensures is { (price : ℤ) → (group : List Order) → IsGroup self.old g group →
            least_on_with self.old.mill (charge_of self.old.charges) group self.old.orders
            (set self.old.prices i price) i ≡ with_price (neg_ℤ price) result }
        ensures small { IfSome result (IsSmall table_slack_limit) }
        ensures kept { self.new ≡ self.old }
    {
        ready_turn(&self.tables, &mut self.turn, self.in_turn, i);
        self.in_turn = true;
        self.tables
            .least_on_with(&mut self.work, self.slabs[g], &self.turn)
    }

    /// The least slack of a group over the sets that don't hold the order at `i`. None only where
    /// that order can't join the group: then no set holds it, and the group's least slack says the
    /// same.
    pub fn least_on_without(&mut self, g: usize, i: usize) -> Option<i64>
        requires here { g < length self.old.groups }
        requires order { i < length self.old.orders }
        ensures some { (price : ℤ) → (group : List Order) → IsGroup self.old g group →
            IfSome result (λ least. least_on_without self.old.mill (charge_of self.old.charges)
            group self.old.orders (set self.old.prices i price) i ≡ Some least) }
        ensures none { (price : ℤ) → (group : List Order) → IsGroup self.old g group →
            IfNone result (least_on_with self.old.mill (charge_of self.old.charges) group
            self.old.orders (set self.old.prices i price) i ≡ None) }
        ensures small { IfSome result (IsSmall table_slack_limit) }
        ensures kept { self.new ≡ self.old }
    {
        ready_turn(&self.tables, &mut self.turn, self.in_turn, i);
        self.in_turn = true;
        self.tables
            .least_on_without(&mut self.work, self.slabs[g], &self.turn)
    }

    /// Gives the order at `i` another price.
    pub fn set_price(&mut self, i: usize, price: i64)
        requires here { i < length self.old.orders }
        requires price { IsPrice price }
        ensures { self.new ≡ with_price_at self.old i price }
    {
        ready_turn(&self.tables, &mut self.turn, self.in_turn, i);
        self.in_turn = false;
        self.tables.set_price(&mut self.turn, price);
    }
}
