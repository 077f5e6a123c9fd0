//! Least slacks for two colours a slab, from tables in which prices change: by hand, and beside
//! those of the knapsack for any number of colours. Prices and slacks are in sixtieths of a loss
//! unit.
ghost use Rattle.std.specs.Prelude.{◌≡◌, ◌<◌, All, IfOk, length};
ghost use Rattle.mill_model.specs.Limits.{IsPrice};
ghost use Rattle.set_minima.specs.Joins.{AreOrders};
ghost use Rattle.colour_tables.specs.Grouped.{AreGroups};

use crate::mill::{THREE_ORDERS, charges_to_four, ranked_of};
use colour_tables::ColourTables;
use knap_bound::Knapsack;
use mill_model::{Order, OutOfMemory};
use order_symmetry::Ranked;
use slab_rules::OpenSlab;
use std::alloc::Global;
use std::test::Fail;

/// Orders of these weights and colours.
fn orders_of(alloc: Global, list: &[(u32, u16)]) -> Result<Vec<Order>, OutOfMemory>
    ensures orders { IfOk result (λ orders. AreOrders orders.items) }
    ensures count { IfOk result (λ orders. length orders.items ≡ length list.now) }
{
    let mut orders = Vec::with_capacity(alloc, list.len())?;
    for i in 0..list.len() {
        let (weight, colour) = list[i];
        orders.push(Order {
            weight: weight.clamp(1, 1_000_000),
            colour: colour.clamp(1, 4096),
        })?;
    }
    Ok(orders)
}

/// One group, of a mill with the one size 4: a slab with an order of weight 1 on it.
fn one_group(alloc: Global, colour: u16) -> Result<Vec<OpenSlab>, OutOfMemory>
    ensures groups { IfOk result (λ groups. AreGroups 4 groups.items) }
    ensures count { IfOk result (λ groups. length groups.items ≡ 1) }
{
    let mut slab = OpenSlab::empty(alloc, 4, 2);
    slab.join(Order { weight: 1, colour });
    let mut groups = Vec::with_capacity(alloc, 1)?;
    groups.push(slab)?;
    Ok(groups)
}

// In rank the three orders are (2, 3), (1, 1) and (1, 2). With no prices the best of the new slabs
// weighs 3; 60 for the first order take its charge away.
#[test]
fn new_slabs_as_a_price_changes(rt: HostRuntime) -> Result<(), Fail> {
    let alloc = rt.alloc();
    let charges = charges_to_four(alloc)?;
    let orders = orders_of(alloc, &[(2, 3), (1, 1), (1, 2)])?;
    let none: [OpenSlab; 0] = [];
    let mut tables = ColourTables::new(alloc, &orders, &[0, 0, 0], &none, &charges, 4)?;
    assert_eq!(rt; tables.least_new(), Some(60));
    assert_eq!(rt; tables.least_new_with(0), Some(60));
    tables.set_price(0, 60);
    assert_eq!(rt; tables.least_new(), Some(0));
    assert_eq!(rt; tables.least_new_with(0), Some(60));
    assert_eq!(rt; tables.least_new_with(2), Some(0));
    Ok(())
}

// The slab weighs 1, of colour 1. With (1, 1) and (2, 3) it is full; with (1, 2) or without (2, 3)
// it weighs 3 at most. An order of weight 4 can't join.
#[test]
fn a_group(rt: HostRuntime) -> Result<(), Fail> {
    let alloc = rt.alloc();
    let charges = charges_to_four(alloc)?;
    let orders = orders_of(alloc, &[(4, 1), (2, 3), (1, 1), (1, 2)])?;
    let groups = one_group(alloc, 1)?;
    let mut tables = ColourTables::new(alloc, &orders, &[0, 0, 0, 0], &groups, &charges, 4)?;
    assert_eq!(rt; tables.least_on(0), 0);
    assert_eq!(rt; tables.least_on_with(0, 3), Some(60));
    assert_eq!(rt; tables.least_on_without(0, 1), Some(60));
    assert_eq!(rt; tables.least_on_with(0, 0), None);
    assert_eq!(rt; tables.least_on_without(0, 0), None);
    Ok(())
}

/// A slack that doesn't count the price of an order, with that price counted.
fn less_price(slack: Option<i64>, price: i64) -> Option<i64> {
    Some(slack?.wrapping_sub(price))
}

/// Whether tables and knapsack agree on new slabs, over all sets and those with the order at `i`,
/// under prices that they both have.
fn agree_on_new(
    tables: &mut ColourTables,
    knapsack: &mut Knapsack,
    prices: &[i64],
    i: usize,
) -> bool
    requires tables { length tables.old.orders ≡ 3 }
    requires knapsack { length knapsack.old.orders ≡ 3 }
    requires one_each { length prices.now ≡ 3 }
    requires priced { All IsPrice prices.now }
    requires here { i < 3 }
    ensures tables { tables.new ≡ tables.old }
    ensures knapsack { knapsack.new ≡ knapsack.old }
{
    let all = tables.least_new() == knapsack.least_new(prices);
    let with = less_price(tables.least_new_with(i), prices[i]);
    all && with == knapsack.least_new_with(prices, i)
}

/// Whether they agree on a group over all sets and those with the order at `i`.
fn agree_on_group(
    tables: &mut ColourTables,
    knapsack: &mut Knapsack,
    group: &OpenSlab,
    prices: &[i64],
    i: usize,
) -> bool
    requires tables { length tables.old.orders ≡ 3 }
    requires groups { length tables.old.groups ≡ 1 }
    requires knapsack { length knapsack.old.orders ≡ 3 }
    requires mill { group.now.mill ≡ knapsack.old.mill }
    requires one_each { length prices.now ≡ 3 }
    requires priced { All IsPrice prices.now }
    requires here { i < 3 }
    ensures tables { tables.new ≡ tables.old }
    ensures knapsack { knapsack.new ≡ knapsack.old }
{
    let all = tables.least_on(0) == knapsack.least_on(group, prices);
    let with = less_price(tables.least_on_with(0, i), prices[i]);
    all && with == knapsack.least_on_with(group, prices, i)
}

/// Whether they agree on a group over the sets without the order at `i`. Where that order can't
/// join it, the tables leave the answer to the group's least slack.
fn agree_without(
    tables: &mut ColourTables,
    knapsack: &mut Knapsack,
    group: &OpenSlab,
    prices: &[i64],
    i: usize,
) -> bool
    requires tables { length tables.old.orders ≡ 3 }
    requires groups { length tables.old.groups ≡ 1 }
    requires knapsack { length knapsack.old.orders ≡ 3 }
    requires mill { group.now.mill ≡ knapsack.old.mill }
    requires one_each { length prices.now ≡ 3 }
    requires priced { All IsPrice prices.now }
    requires here { i < 3 }
    ensures tables { tables.new ≡ tables.old }
    ensures knapsack { knapsack.new ≡ knapsack.old }
{
    let all = tables.least_on(0);
    let without = tables.least_on_without(0, i).unwrap_or(all);
    knapsack.least_on_without(group, prices, i) == Some(without)
}

/// A slab of the mill of ranked orders, with an order of weight 1 and colour 1 on it, if one fits.
fn light_slab(alloc: Global, ranked: &Ranked) -> OpenSlab
    ensures { result.mill ≡ ranked.now.mill }
{
    let mut slab = OpenSlab::empty(alloc, ranked.largest(), ranked.p());
    let order = Order {
        weight: 1,
        colour: 1,
    };
    if slab.fits(order) {
        slab.join(order);
    }
    slab
}

/// Whether they agree on new slabs and on a group, at each of three orders.
fn agree(
    tables: &mut ColourTables,
    knapsack: &mut Knapsack,
    group: &OpenSlab,
    prices: &[i64],
) -> bool
    requires tables { length tables.old.orders ≡ 3 }
    requires groups { length tables.old.groups ≡ 1 }
    requires knapsack { length knapsack.old.orders ≡ 3 }
    requires mill { group.now.mill ≡ knapsack.old.mill }
    requires one_each { length prices.now ≡ 3 }
    requires priced { All IsPrice prices.now }
    ensures tables { tables.new ≡ tables.old }
    ensures knapsack { knapsack.new ≡ knapsack.old }
{
    let mut all = true;
    for i in 0..3 {
        let new = agree_on_new(tables, knapsack, prices, i);
        let on = agree_on_group(tables, knapsack, group, prices, i);
        let without = agree_without(tables, knapsack, group, prices, i);
        all = all && new && on && without;
    }
    all
}

// The group weighs 1, of colour 1: (1, 1) and one of (2, 3) and (1, 2) can join it.
#[test]
fn as_the_knapsack_has_them(rt: HostRuntime) -> Result<(), Fail> {
    let alloc = rt.alloc();
    let charges = charges_to_four(alloc)?;
    let ranked = ranked_of(alloc, &THREE_ORDERS, 2)?;
    let orders = orders_of(alloc, &[(2, 3), (1, 1), (1, 2)])?;
    assert_eq!(rt; ranked.len(), 3);
    assert_eq!(rt; ranked.largest(), 4);
    let groups = one_group(alloc, 1)?;
    let group = light_slab(alloc, &ranked);
    let mut knapsack = Knapsack::new(alloc, &ranked, &charges, 0)?;
    let mut tables = ColourTables::new(alloc, &orders, &[90, 0, 0], &groups, &charges, 4)?;
    assert!(rt; agree(&mut tables, &mut knapsack, &group, &[90, 0, 0]));
    tables.set_price(1, -60);
    assert!(rt; agree(&mut tables, &mut knapsack, &group, &[90, -60, 0]));
    tables.set_price(2, 150);
    assert!(rt; agree(&mut tables, &mut knapsack, &group, &[90, -60, 150]));
    tables.set_price(0, -20_000_000_000);
    assert!(rt;
        agree(
            &mut tables,
            &mut knapsack,
            &group,
            &[-20_000_000_000, -60, 150]
        )
    );
    Ok(())
}
