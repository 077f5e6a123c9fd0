// The knapsack over later orders: tables that are made once, and the least slacks that they give,
// of new slabs and of slabs with orders, over all sets or those with or without one order.

ghost use Rattle.std.specs.Prelude.{◌≡◌, ℕ, ℤ, List, [], All, Option, Some, None, pos, neg_ℤ};
ghost use Rattle.std.specs.Prelude.{◌+◌, ◌*◌, ◌^◌, ◌<◌, ◌≤◌, length, drop, IfOk, IfSome};
ghost use Rattle.std.specs.Prelude.{slice_index_or};
ghost use Rattle.list_laws.specs.Sets.{different};
ghost use Rattle.mill_model.specs.Charges.{Reaches, charge_of};
ghost use Rattle.mill_model.specs.Limits.{IsPrice};
ghost use Rattle.mill_model.specs.Prices.{least_slack};
ghost use Rattle.mill_model.specs.Bounds.{least_new, least_new_with, least_on_with};
ghost use Rattle.mill_model.specs.Bounds.{least_on_without};
ghost use Rattle.mill_model.specs.declared.order.Order.{Order};
ghost use Rattle.order_symmetry.specs.Ranked.{orders_of};
ghost use Rattle.slab_rules.specs.OpenSlab.{Carries, IsWithinBounds, joined};
ghost use Rattle.mill_model.specs.declared.prices.TheConstants.{MAX_PRICE};
ghost use Rattle.set_minima.specs.Packs.{IsTop, nobody, with_price};
ghost use Rattle.set_minima.specs.Joins.{gain, Joins, all_but, opposite};
ghost use Rattle.set_minima.specs.Cells.{found, IsNear, IsSmall, slack_limit};
ghost use Rattle.knap_bound.specs.Later.{later_from};
ghost use Rattle.knap_bound.specs.Knapsacks.{IsLater};

use crate::best_prices::NOTHING;
use crate::gains::greatest_gain;
use crate::orders_by_colour::{Item, Packing, by_colour};
use mill_model::{Charges, Order, OutOfMemory};
use order_symmetry::Ranked;
use slab_rules::OpenSlab;
use std::alloc::Global;
use std::marker::Model;

/// Later orders colour by colour, with the tables in which their best sets are found. The tables
/// are made once and serve every slab and all prices.
#[derive(Drop)]
pub struct Knapsack<'a> {
    orders: Vec<Order>,
    items: Vec<Item>,
    charges: &'a Charges,
    largest: usize,
    most: usize,
    layers: Vec<i64>,
    one: Vec<i64>,
}

impl<'a> Model for Knapsack<'a> {
    ghost use Rattle.std.specs.Prelude.{length};
    ghost use Rattle.knap_bound.specs.Later.{Later};
    ghost use Rattle.knap_bound.specs.Knapsacks.{IsReady};

    ghost Value = { Later };

    ghost view = { λ k. record {
      orders = k.orders.items;
      mill = record { largest = k.largest; most_colours = k.most };
      charges = k.charges.now;
    } };

    ghost invariant = { λ k. IsReady (record {
      orders = k.orders.items;
      mill = record { largest = k.largest; most_colours = k.most };
      charges = k.charges.now;
    }) k.items.items (length k.layers.items) (length k.one.items) };
}

/// The orders from a rank on.
pub fn orders_from(alloc: Global, ranked: &Ranked, from: u16) -> Result<Vec<Order>, OutOfMemory>
    requires { from ≤ length ranked.now.placed }
    ensures { IfOk result (λ orders. orders.items ≡ drop from (orders_of ranked.now)) }
{
    let mut orders = Vec::with_capacity(alloc, (ranked.len() - from) as usize)?;
    for rank in from..ranked.len() {
        orders.push(ranked.order(rank))?;
    }
    Ok(orders)
}

/// A slab with one order more.
fn with_order(slab: &OpenSlab, order: Order) -> OpenSlab
    requires { IsWithinBounds (joined slab.now order) }
    ensures { result ≡ joined slab.now order }
{
    let mut joined = slab.copy();
    joined.join(order);
    joined
}

/// The least slack that a greatest gain stands for, where there is a set.
fn least_of(gain: i64) -> Option<i64>
    requires near { IsNear (2 ^ 60) gain }
    ensures is { result ≡ opposite (found gain) }
    ensures small { (n : ℕ) → ((v : ℤ) → found gain ≡ Some v → IsSmall n v) →
        IfSome result (IsSmall n) }
{
    if gain < NOTHING / 2 {
        None
    } else {
        Some(-gain)
    }
}

/// The same where each set has one thing more, of a price.
fn least_with(gain: i64, price: i64) -> Option<i64>
    requires near { IsNear (2 ^ 59) gain }
    requires price { IsSmall MAX_PRICE price }
    ensures is { result ≡ opposite (with_price price (found gain)) }
    ensures small { ((v : ℤ) → found gain ≡ Some v → IsSmall 20600000000000 v) →
        IfSome result (IsSmall slack_limit) }
{
    least_of(gain + price)
}

/// A greatest gain with the other sign.
fn negated(gain: i64) -> i64
    requires near { IsNear (2 ^ 59) gain }
    ensures is { result ≡ neg_ℤ gain }
{
    -gain
}

impl<'a> Knapsack<'a> {
    /// The orders from a rank on, and tables for them.
    pub fn new(
        alloc: Global,
        ranked: &Ranked,
        charges: &'a Charges,
        from: u16,
    ) -> Result<Knapsack<'a>, OutOfMemory>
        requires rank { from ≤ length ranked.now.placed }
        requires reach { Reaches charges.now ranked.now.mill }
        ensures is { IfOk result (λ knapsack. knapsack ≡ later_from ranked.now charges.now from) }
        ensures kept { IfOk result IsLater }
    {
        let orders = orders_from(alloc, ranked, from)?;
        let items = by_colour(alloc, &orders)?;
        let largest = ranked.largest() as usize;
        let most = ranked.p() as usize;
        let layers = vec![in alloc; NOTHING; (most + 1) * (largest + 1)]?;
        let one = vec![in alloc; NOTHING; largest + 1]?;
        Ok(Knapsack {
            orders,
            items,
            charges,
            largest,
            most,
            layers,
            one,
        })
    }

    // The greatest gain of the sets that weigh `low` or more, don't hold the order at `skip`, and
    // may join a slab of some load and colours.
    fn gain_beside(
        &mut self,
        base: usize,
        own: &[u16],
        prices: &[i64],
        skip: usize,
        low: usize,
    ) -> i64
        requires base { base ≤ self.old.mill.largest }
        requires once { length own.now ≡ different own.now }
        requires colours { length own.now ≤ self.old.mill.most_colours }
        requires one_each { length prices.now ≡ length self.old.orders }
        requires priced { All IsPrice prices.now }
        requires low { low ≤ 1 }
        ensures top { IsTop (Joins (all_but skip) low self.old.mill.largest base own.now
            self.old.mill.most_colours self.old.orders)
            (gain (charge_of self.old.charges) base self.old.orders prices.now) (found result) }
        ensures near { IsNear (2 ^ 59) result }
        ensures limits { IsLater self.old }
        ensures kept { self.new ≡ self.old }
    {
        let packing = Packing {
            rest: &self.orders,
            prices,
            items: &self.items,
            skip,
        };
        greatest_gain(
            &mut self.layers,
            &mut self.one,
            &packing,
            self.charges,
            self.largest,
            self.most,
            base,
            own,
            low,
        )
    }

    // The same for a slab, and sets of any load.
    fn gain_on(&mut self, slab: &OpenSlab, prices: &[i64], skip: usize) -> i64
        requires mill { slab.now.mill ≡ self.old.mill }
        requires one_each { length prices.now ≡ length self.old.orders }
        requires priced { All IsPrice prices.now }
        ensures top { IsTop (Joins (all_but skip) 0 self.old.mill.largest slab.now.load
            slab.now.colours self.old.mill.most_colours self.old.orders)
            (gain (charge_of self.old.charges) slab.now.load self.old.orders prices.now)
            (found result) }
        ensures near { IsNear (2 ^ 59) result }
        ensures small { IsSmall 20600000000000 result }
        ensures some { found result ≡ Some result }
        ensures light { slab.now.load ≤ self.old.mill.largest }
        ensures few { different slab.now.colours ≤ self.old.mill.most_colours }
        ensures kept { self.new ≡ self.old }
    {
        self.gain_beside(slab.load() as usize, slab.colours(), prices, skip, 0)
    }

    // How many orders there are.
    fn len(&self) -> usize
        ensures is { result ≡ length self.now.orders }
        ensures kept { IsLater self.now }
    {
        self.orders.len()
    }

    // The largest load of a slab.
    fn largest(&self) -> usize
        ensures is { result ≡ self.now.mill.largest }
    {
        self.largest
    }

    // The order at a place.
    fn order(&self, i: usize) -> Order
        requires { i < length self.now.orders }
        ensures is { result ≡ slice_index_or self.now.orders i nobody }
        ensures kept { IsLater self.now }
    {
        self.orders[i]
    }

    /// The least slack of a new slab with something in it. None where no order fits a slab.
    pub fn least_new(&mut self, prices: &[i64]) -> Option<i64>
        requires one_each { length prices.now ≡ length self.old.orders }
        requires priced { All IsPrice prices.now }
        ensures is { result
            ≡ least_new self.old.mill (charge_of self.old.charges) self.old.orders prices.now }
        ensures small { IfSome result (IsSmall slack_limit) }
        ensures kept { self.new ≡ self.old }
    {
        let none: [u16; 0] = [];
        let skip = self.len();
        least_of(self.gain_beside(0, &none, prices, skip, 1))
    }

    /// The least slack of a new slab with the order at `i`. None where that order fits no slab.
    pub fn least_new_with(&mut self, prices: &[i64], i: usize) -> Option<i64>
        requires one_each { length prices.now ≡ length self.old.orders }
        requires priced { All IsPrice prices.now }
        requires here { i < length self.old.orders }
        ensures is { result ≡ least_new_with self.old.mill (charge_of self.old.charges)
            self.old.orders prices.now i }
        ensures small { IfSome result (IsSmall slack_limit) }
        ensures kept { self.new ≡ self.old }
    {
        let order = self.order(i);
        let weight = order.weight as usize;
        if self.largest() < weight {
            return None;
        }
        let own = [order.colour];
        let gain = self.gain_beside(weight, &own, prices, i, 0);
        least_with(gain, prices[i])
    }

    /// The least slack of the orders on a slab.
    pub fn least_on(&mut self, slab: &OpenSlab, prices: &[i64]) -> i64
        requires mill { slab.now.mill ≡ self.old.mill }
        requires one_each { length prices.now ≡ length self.old.orders }
        requires priced { All IsPrice prices.now }
        ensures is { (group : List Order) → Carries slab.now group →
            result ≡ least_slack self.old.mill (charge_of self.old.charges) group
            self.old.orders prices.now }
        ensures small { IsSmall slack_limit result }
        ensures kept { self.new ≡ self.old }
    {
        let skip = self.len();
        negated(self.gain_on(slab, prices, skip))
    }

    /// The least slack of the orders on a slab over the sets that hold the order at `i`. None
    /// where that order can't join the slab.
    pub fn least_on_with(&mut self, slab: &OpenSlab, prices: &[i64], i: usize) -> Option<i64>
        requires mill { slab.now.mill ≡ self.old.mill }
        requires one_each { length prices.now ≡ length self.old.orders }
        requires priced { All IsPrice prices.now }
        requires here { i < length self.old.orders }
        ensures is { (group : List Order) → Carries slab.now group →
            result ≡ least_on_with self.old.mill (charge_of self.old.charges) group
            self.old.orders prices.now i }
        ensures small { IfSome result (IsSmall slack_limit) }
        ensures kept { self.new ≡ self.old }
    {
        let order = self.order(i);
        if !slab.fits(order) {
            return None;
        }
        let joined = with_order(slab, order);
        let gain = self.gain_on(&joined, prices, i);
        least_with(gain, prices[i])
    }

    /// The least slack of the orders on a slab over the sets that don't hold the order at `i`.
    pub fn least_on_without(&mut self, slab: &OpenSlab, prices: &[i64], i: usize) -> Option<i64>
        requires mill { slab.now.mill ≡ self.old.mill }
        requires one_each { length prices.now ≡ length self.old.orders }
        requires priced { All IsPrice prices.now }
        ensures is { (group : List Order) → Carries slab.now group →
            result ≡ least_on_without self.old.mill (charge_of self.old.charges) group
            self.old.orders prices.now i }
        ensures small { IfSome result (IsSmall slack_limit) }
        ensures kept { self.new ≡ self.old }
    {
        least_of(self.gain_on(slab, prices, i))
    }
}
