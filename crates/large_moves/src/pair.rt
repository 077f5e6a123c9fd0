//! The orders of a pair of slabs: gathered, and laid anew where a cheaper split is found.
ghost use Rattle.std.specs.Prelude.{◌≡◌, ◌<◌, ◌≤◌, true, eqb, ltb, All, length, take};
ghost use Rattle.std.specs.Prelude.{IfSome, IfNone};
ghost use Rattle.std.specs.List.Sorted.{IsPermutation, IsSortedBy};
ghost use Rattle.index_links.specs.Lists.{AreSlabLists, places_where, plan_of};
ghost use Rattle.mill_model.specs.Charges.{Reaches, charge_of};
ghost use Rattle.mill_model.specs.Pairs.{one_of, complement, pair_orders, pair_loss, closed_pair};
ghost use Rattle.mill_model.specs.Plan.{loss, IsLegalPlan};
ghost use Rattle.list_laws.specs.Sets.{chosen, holds, SameTimes};
ghost use Rattle.mill_model.specs.Slab.{load};
ghost use Rattle.mill_model.specs.declared.order.TheConstants.{MAX_ORDERS};
ghost use Rattle.pair_split.specs.Splits.{grouped};
ghost use Rattle.large_moves.specs.Laid.{AreLoads, StayElsewhere};
ghost use Rattle.large_moves.specs.Moves.{orders_at, put_at};

use crate::room::Room;
use crate::slabs::second_slab;
use index_links::SlabLinks;
use mill_model::{Charges, Order};
use pair_split::Splitter;

/// Orders, and what a slab of each load is charged.
#[derive(Clone, Copy, Debug)]
pub struct ChargedOrders<'a> {
    pub list: &'a [Order],
    pub charges: &'a Charges,
}

/// A pair of slabs, or twice the same slab, and what it loses.
#[derive(Clone, Copy, Debug)]
pub struct Pair {
    pub first: u16,
    pub second: u16,
    pub loss: u64,
}

/// The orders of a pair of slabs, with their places among all, which rise.
#[derive(Clone, Copy, Debug)]
struct Gathered<'a> {
    places: &'a [u16],
    items: &'a [Order],
}

/// Writes the places on a pair of slabs, in any order; how many they are.
fn list_pair(links: &SlabLinks, a: u16, b: u16, places: &mut [u16]) -> usize
    requires lists { AreSlabLists links.now }
    requires rise { a ≤ b }
    requires second { b < length links.now }
    requires room { length places.old ≡ length links.now }
    ensures places { SameTimes eqb (take result places.new)
        (places_where (one_of a b) 0 (plan_of links.now)) }
    ensures within { result ≤ length links.now }
{
    let end = links.write_list(a, places, 0);
    if a < b {
        links.write_list(b, places, end)
    } else {
        end
    }
}

/// Sorts places.
fn sort_places(places: &mut [u16])
    ensures permutation { IsPermutation places.old places.new }
    ensures sorted { IsSortedBy ltb places.new }
{
    places.sort_unstable();
}

/// Writes the places on a pair of slabs, rising; how many they are.
fn places_of_pair(links: &SlabLinks, a: u16, b: u16, places: &mut [u16]) -> usize
    requires lists { AreSlabLists links.now }
    requires rise { a ≤ b }
    requires second { b < length links.now }
    requires room { length places.old ≡ length links.now }
    ensures places { take result places.new
        ≡ places_where (one_of a b) 0 (plan_of links.now) }
    ensures within { result ≤ length links.now }
{
    let count = list_pair(links, a, b, places);
    sort_places(&mut places[..count]);
    count
}

/// Gathers the orders at some places.
fn gather(orders: &[Order], places: &[u16], items: &mut [Order])
    requires within { All (λ i. i < length orders.now) places.now }
    requires room { length places.now ≤ length items.old }
    ensures { take (length places.now) items.new ≡ orders_at orders.now places.now }
{
    for i in 0..places.len() {
        items[i] = orders[places[i] as usize];
    }
}

/// Gathers the orders of a pair of slabs and their places, which rise; how many they are.
fn gather_pair(
    orders: &[Order],
    links: &SlabLinks,
    a: u16,
    b: u16,
    places: &mut [u16],
    items: &mut [Order],
) -> usize
    requires lists { AreSlabLists links.now }
    requires rise { a ≤ b }
    requires second { b < length links.now }
    requires same { length links.now ≡ length orders.now }
    requires places { length places.old ≡ length orders.now }
    requires items { length items.old ≡ length orders.now }
    ensures places { take result places.new
        ≡ places_where (one_of a b) 0 (plan_of links.now) }
    ensures items { take result items.new ≡ pair_orders orders.now (plan_of links.now) a b }
    ensures within { result ≤ length orders.now }
{
    let count = places_of_pair(links, a, b, places);
    gather(orders, &places[..count], items);
    count
}

/// What the two parts of a split weigh: the marked orders, and the others.
fn part_loads(items: &[Order], marks: &[bool]) -> (u64, u64)
    requires marks { length marks.now ≡ length items.now }
    requires few { length items.now ≤ MAX_ORDERS }
    ensures first { result.0 ≡ load (chosen marks.now items.now) }
    ensures second { result.1 ≡ load (chosen (complement marks.now) items.now) }
{
    let mut first: u64 = 0;
    let mut second: u64 = 0;
    for i in 0..items.len() {
        let weight = items[i].weight as u64;
        if marks[i] {
            first += weight;
        } else {
            second += weight;
        }
    }
    (first, second)
}

/// Moves the orders at some places: the marked ones to slab `a`, the others to `c`.
fn lay(links: &mut SlabLinks, places: &[u16], marks: &[bool], a: u16, c: u16)
    requires lists { AreSlabLists links.old }
    requires within { All (λ i. i < length links.old) places.now }
    requires marks { length marks.now ≡ length places.now }
    requires first { a < length links.old }
    requires second { c < length links.old }
    ensures plan { plan_of links.new ≡ put_at places.now marks.now a c (plan_of links.old) }
    ensures count { length links.new ≡ length links.old }
    ensures kept { AreSlabLists links.new }
{
    for i in 0..places.len() {
        links.move_to(places[i], if marks[i] { a } else { c });
    }
}

/// Lays the orders of a pair of slabs by their cheapest split, where that loses less than they do;
/// the slab besides the first that changes.
fn resplit(
    splitter: &mut Splitter,
    gathered: &Gathered,
    marks: &mut [bool],
    orders: &ChargedOrders,
    links: &mut SlabLinks,
    loads: &mut [u64],
    pair: Pair,
) -> Option<u16>
    requires places { gathered.now.places.now
        ≡ places_where (one_of pair.first pair.second) 0 (plan_of links.old) }
    requires items { gathered.now.items.now
        ≡ pair_orders orders.now.list.now (plan_of links.old) pair.first pair.second }
    requires marks { length marks.old ≡ length gathered.now.items.now }
    requires lists { AreSlabLists links.old }
    requires reach { Reaches orders.now.charges.now splitter.old }
    requires few { length orders.now.list.now ≤ MAX_ORDERS }
    requires together { grouped orders.now.list.now ≡ true }
    requires legal { IsLegalPlan splitter.old orders.now.list.now (plan_of links.old) }
    requires loads { AreLoads orders.now.list.now (plan_of links.old) loads.old }
    requires rise { pair.first ≤ pair.second }
    requires second { pair.second < length orders.now.list.now }
    requires used { holds pair.first (plan_of links.old) ≡ true }
    requires loss { pair.loss ≡ pair_loss (charge_of orders.now.charges.now)
        orders.now.list.now (plan_of links.old) pair.first pair.second }
    ensures mill { splitter.new ≡ splitter.old }
    ensures kept { IfNone result ((plan_of links.new) ≡ (plan_of links.old)) }
    ensures closed { IfNone result (closed_pair splitter.old (charge_of orders.now.charges.now)
        orders.now.list.now (plan_of links.old) pair.first pair.second ≡ true) }
    ensures less { IfSome result (λ c.
        loss (charge_of orders.now.charges.now) (plan_of links.new) orders.now.list.now
        < loss (charge_of orders.now.charges.now) (plan_of links.old) orders.now.list.now) }
    ensures second { IfSome result (λ c. c < length orders.now.list.now) }
    ensures stay { IfSome result (λ c.
        StayElsewhere pair.first c (plan_of links.old) (plan_of links.new)) }
    ensures legal { IsLegalPlan splitter.old orders.now.list.now (plan_of links.new) }
    ensures lists { AreSlabLists links.new }
    ensures count { length links.new ≡ length links.old }
    ensures loads { AreLoads orders.now.list.now (plan_of links.new) loads.new }
{
    let Some(_) = splitter.better_split(orders.charges, gathered.items, pair.loss, marks) else {
        return None;
    };
    let Some(c) = second_slab(links, pair.first, pair.second) else {
        return None;
    };
    let (first, second) = part_loads(gathered.items, marks);
    loads[pair.first as usize] = first;
    loads[c as usize] = second;
    lay(links, gathered.places, marks, pair.first, c);
    Some(c)
}

/// Gathers the orders of a pair of slabs, and lays them anew where a split of them loses less than
/// they do; the slab besides the first that changes.
pub fn try_split(
    splitter: &mut Splitter,
    room: &mut Room,
    marks: &mut [bool],
    orders: &ChargedOrders,
    links: &mut SlabLinks,
    loads: &mut [u64],
    pair: Pair,
) -> Option<u16>
    requires places { length room.old.places.items ≡ length orders.now.list.now }
    requires items { length room.old.items.items ≡ length orders.now.list.now }
    requires marks { length marks.old ≡ length orders.now.list.now }
    requires lists { AreSlabLists links.old }
    requires reach { Reaches orders.now.charges.now splitter.old }
    requires few { length orders.now.list.now ≤ MAX_ORDERS }
    requires together { grouped orders.now.list.now ≡ true }
    requires legal { IsLegalPlan splitter.old orders.now.list.now (plan_of links.old) }
    requires loads { AreLoads orders.now.list.now (plan_of links.old) loads.old }
    requires rise { pair.first ≤ pair.second }
    requires second { pair.second < length orders.now.list.now }
    requires used { holds pair.first (plan_of links.old) ≡ true }
    requires loss { pair.loss ≡ pair_loss (charge_of orders.now.charges.now)
        orders.now.list.now (plan_of links.old) pair.first pair.second }
    ensures mill { splitter.new ≡ splitter.old }
    ensures kept { IfNone result ((plan_of links.new) ≡ (plan_of links.old)) }
    ensures closed { IfNone result (closed_pair splitter.old (charge_of orders.now.charges.now)
        orders.now.list.now (plan_of links.old) pair.first pair.second ≡ true) }
    ensures less { IfSome result (λ c.
        loss (charge_of orders.now.charges.now) (plan_of links.new) orders.now.list.now
        < loss (charge_of orders.now.charges.now) (plan_of links.old) orders.now.list.now) }
    ensures second { IfSome result (λ c. c < length orders.now.list.now) }
    ensures stay { IfSome result (λ c.
        StayElsewhere pair.first c (plan_of links.old) (plan_of links.new)) }
    ensures legal { IsLegalPlan splitter.old orders.now.list.now (plan_of links.new) }
    ensures places { length room.new.places.items ≡ length room.old.places.items }
    ensures items { length room.new.items.items ≡ length room.old.items.items }
    ensures lists { AreSlabLists links.new }
    ensures count { length links.new ≡ length links.old }
    ensures loads { AreLoads orders.now.list.now (plan_of links.new) loads.new }
{
    let count = gather_pair(
        orders.list,
        links,
        pair.first,
        pair.second,
        &mut room.places,
        &mut room.items,
    );
    let gathered = Gathered {
        places: &room.places[..count],
        items: &room.items[..count],
    };
    resplit(
        splitter,
        &gathered,
        &mut marks[..count],
        orders,
        links,
        loads,
        pair,
    )
}
