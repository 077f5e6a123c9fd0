// The tables of two colours, asked with the orders' own prices.

ghost use Rattle.std.specs.Prelude.{◌≡◌, ◌<◌, List, All, length, neg_ℤ, true, IfOk, IfSome};
ghost use Rattle.colour_tables.specs.Grouped.{IsGroup};
ghost use Rattle.colour_tables.specs.Leasts.{table_slack_limit};
ghost use Rattle.mill_model.specs.Bounds.{least_new_with, least_on_with, least_on_without};
ghost use Rattle.mill_model.specs.Charges.{Reaches, charge_of};
ghost use Rattle.mill_model.specs.Limits.{IsPrice};
ghost use Rattle.mill_model.specs.Slab.{legal};
ghost use Rattle.mill_model.specs.declared.order.Order.{Order};
ghost use Rattle.set_minima.specs.Cells.{IsSmall, slack_limit};
ghost use Rattle.set_minima.specs.Packs.{with_price};
ghost use Rattle.column_price.specs.Nodes.{AreFor};
ghost use Rattle.column_price.specs.Served.{AreOf};

use colour_tables::ColourTables;
use knap_bound::orders_from;
use mill_model::{Charges, OutOfMemory};
use split_tree::NodeState;
use std::alloc::Global;

/// The tables of the orders that a node hasn't placed, with these prices.
pub(crate) fn tables_of<'a>(
    alloc: Global,
    node: &'a NodeState,
    charges: &'a Charges,
    prices: &[i64],
) -> Result<ColourTables<'a>, OutOfMemory>
    requires reach { Reaches charges.now node.now.ranked.mill }
    requires prices { AreFor node.now prices.now }
    requires two { node.now.ranked.mill.most_colours ≡ 2 }
    ensures { IfOk result (AreOf (record {
      node = node.now;
      charges = charges.now;
      prices = prices.now;
    })) }
{
    let ranked = node.ranked();
    let orders = orders_from(alloc, ranked, node.depth())?;
    ColourTables::new(
        alloc,
        &orders,
        prices,
        node.groups(),
        charges,
        ranked.largest(),
    )
}

/// A number, if there is one, less a price.
fn less_price(found: Option<i64>, price: i64) -> Option<i64>
    requires small { IfSome found (IsSmall table_slack_limit) }
    requires price { IsPrice price }
    ensures is { result ≡ with_price (neg_ℤ price) found }
    ensures small { IfSome result (IsSmall slack_limit) }
{
    match found {
        None => None,
        Some(slack) => Some(slack - price),
    }
}

/// The least slack of a new slab with the order at `i`. None where that order fits no slab.
pub(crate) fn least_new_at(tables: &mut ColourTables, prices: &[i64], i: usize) -> Option<i64>
    requires same { prices.now ≡ tables.old.prices }
    requires one_each { length prices.now ≡ length tables.old.orders }
    requires priced { All IsPrice prices.now }
    requires here { i < length tables.old.orders }
    ensures is { result ≡ least_new_with tables.old.mill (charge_of tables.old.charges)
        tables.old.orders prices.now i }
    ensures small { IfSome result (IsSmall slack_limit) }
    ensures kept { tables.new ≡ tables.old }
{
    less_price(tables.least_new_with(i), prices[i])
}

/// The least slack of a group over the sets that hold the order at `i`. None where that order can't
/// join the group.
pub(crate) fn least_on_with_at(
    tables: &mut ColourTables,
    prices: &[i64],
    g: usize,
    i: usize,
) -> Option<i64>
    requires same { prices.now ≡ tables.old.prices }
    requires one_each { length prices.now ≡ length tables.old.orders }
    requires priced { All IsPrice prices.now }
    requires group { g < length tables.old.groups }
    requires here { i < length tables.old.orders }
    ensures is { (group : List Order) → IsGroup tables.old g group →
        result ≡ least_on_with tables.old.mill (charge_of tables.old.charges) group
        tables.old.orders prices.now i }
    ensures small { IfSome result (IsSmall slack_limit) }
    ensures kept { tables.new ≡ tables.old }
{
    less_price(tables.least_on_with(g, i), prices[i])
}

/// The least slack of a group over the sets that don't hold the order at `i`. Where that order
/// can't join the group, that is the group's least slack.
pub(crate) fn least_on_without_at(
    tables: &mut ColourTables,
    prices: &[i64],
    g: usize,
    i: usize,
) -> Option<i64>
    requires same { prices.now ≡ tables.old.prices }
    requires group { g < length tables.old.groups }
    requires one_each { length prices.now ≡ length tables.old.orders }
    ensures is { (group : List Order) → IsGroup tables.old g group →
        legal tables.old.mill group ≡ true →
        result ≡ least_on_without tables.old.mill (charge_of tables.old.charges) group
        tables.old.orders prices.now i }
    ensures small { IfSome result (IsSmall slack_limit) }
    ensures kept { tables.new ≡ tables.old }
{
    if prices.len() <= i {
        return Some(tables.least_on(g));
    }
    match tables.least_on_without(g, i) {
        Some(slack) => Some(slack),
        None => Some(tables.least_on(g)),
    }
}
