//! Prices at all nodes of many small trees beside minima over all sets of orders: among them nodes
//! with equal orders, and with groups that are full. The one size is 4.
ghost use Rattle.std.specs.Prelude.{◌≡◌, ◌≤◌, length};
ghost use Rattle.column_price.specs.Nodes.{EachIsLight};
ghost use Rattle.mill_model.specs.Charges.{Reaches};
ghost use Rattle.mill_model.specs.declared.order.TheConstants.{MAX_ORDERS};

use crate::all_sets::{Charging, Small};
use crate::mill::{all_fit, node_at, ranked_of};
use column_price::{NodePrices, worth};
use knap_bound::least_new;
use mill_model::{Charges, OutOfMemory, Path, Prices};
use order_symmetry::Ranked;
use split_tree::NodeState;
use std::alloc::Global;
use std::test::Fail;

/// Whether the ascent's prices, those after one sweep, and their worths are what they are over all
/// sets.
fn is_ascent_exact(
    alloc: Global,
    node: &NodeState,
    charges: &Charges,
    small: &Small,
) -> Result<bool, OutOfMemory>
    requires reach { Reaches charges.now node.now.ranked.mill }
    requires light { EachIsLight node.now }
{
    let mut priced = NodePrices::ascend(alloc, node, charges)?;
    let mut prices = small.ascent(alloc)?;
    let ascent = priced.worth() == small.worth(&prices);
    priced.improve();
    small.sweep(&mut prices);
    let swept = priced.worth() == small.worth(&prices);
    Ok(ascent && swept && priced.into_prices().list() == prices.as_slice())
}

/// Whether the least prices there are are valid, and they, those after one sweep, and their worths
/// are what they are over all sets.
fn are_least_prices_exact(
    alloc: Global,
    node: &NodeState,
    charges: &Charges,
    small: &Small,
) -> Result<bool, OutOfMemory>
    requires reach { Reaches charges.now node.now.ranked.mill }
    requires light { EachIsLight node.now }
{
    let later = usize::from(node.ranked().len() - node.depth());
    let least = Prices::from_list(vec![in alloc; -20_000_000_000; later]?);
    let Some(found) = worth(alloc, node, charges, &least)? else {
        return Ok(false);
    };
    let mut priced = NodePrices::of(alloc, node, charges, &least)?;
    let mut prices = vec![in alloc; -20_000_000_000; later]?;
    let given = found == small.worth(&prices) && priced.worth() == found;
    priced.improve();
    small.sweep(&mut prices);
    let swept = priced.worth() == small.worth(&prices);
    Ok(given && swept && priced.into_prices().list() == prices.as_slice())
}

/// Whether the least slack of a new slab under the greatest prices there are is that over all sets,
/// and these prices aren't valid, but for no order.
fn are_greatest_prices_refused(
    alloc: Global,
    node: &NodeState,
    charges: &Charges,
    small: &Small,
) -> Result<bool, OutOfMemory>
    requires reach { Reaches charges.now node.now.ranked.mill }
{
    let later = usize::from(node.ranked().len() - node.depth());
    let greatest = Prices::from_list(vec![in alloc; 20_000_000_000; later]?);
    let ranked = node.ranked();
    let found = least_new(alloc, ranked, charges, node.depth(), &greatest, None)?;
    let refused = worth(alloc, node, charges, &greatest)?.is_none();
    Ok(found == small.least_new(greatest.list()) && (later == 0 || refused))
}

/// Whether prices and worths at the node that these numbers lead to are what they are over all
/// sets.
fn is_exact(
    alloc: Global,
    ranked: &Ranked,
    numbers: &[u16],
    charging: Charging,
) -> Result<bool, OutOfMemory> {
    let node = node_at(alloc, ranked, numbers)?;
    if ranked.largest() != 4 || !all_fit(ranked) || usize::from(node.depth()) != numbers.len() {
        return Ok(false);
    }
    let charges = charging.table(alloc)?;
    let small = Small::of(alloc, ranked, numbers, charging)?;
    Ok(
        is_ascent_exact(alloc, &node, &charges, &small)?
            && are_least_prices_exact(alloc, &node, &charges, &small)?
            && are_greatest_prices_refused(alloc, &node, &charges, &small)?,
    )
}

/// The children of the nodes of some paths.
fn children_of(alloc: Global, ranked: &Ranked, paths: &[Path]) -> Result<Vec<Path>, OutOfMemory> {
    let mut children = Vec::new(alloc);
    for path in paths {
        let node = node_at(alloc, ranked, path.numbers())?;
        if node.depth() < ranked.len() {
            for child in &node.children(alloc)? {
                children.push(child.copy()?)?;
            }
        }
    }
    Ok(children)
}

/// Whether prices and worths are exact at all nodes of the tree of these orders, and there is a
/// node at each depth.
fn is_tree_exact(
    alloc: Global,
    orders: &[(u32, u16)],
    p: u8,
    charging: Charging,
) -> Result<bool, OutOfMemory>
    requires few { length orders.now ≤ MAX_ORDERS }
    requires low { 1 ≤ p }
    requires high { p ≤ 8 }
{
    let ranked = ranked_of(alloc, orders, p)?;
    let mut paths = Vec::new(alloc);
    paths.push(Path::root(alloc))?;
    for _depth in 0..=orders.len() {
        if paths.is_empty() {
            return Ok(false);
        }
        for path in &paths {
            if !is_exact(alloc, &ranked, path.numbers(), charging)? {
                return Ok(false);
            }
        }
        paths = children_of(alloc, &ranked, &paths)?;
    }
    Ok(true)
}

/// Five orders of weights from 1 to 3 and one of three colours, each a digit of the code, of which
/// there are 9 ^ 5.
fn orders_of(code: u16) -> [(u32, u16); 5] {
    let mut orders = [(1, 1); 5];
    let mut digits = code;
    for i in 0..5 {
        let digit = digits % 9;
        digits /= 9;
        orders[i] = (u32::from(1 + digit % 3), 1 + digit / 3);
    }
    orders
}

const LOSS: Charging = Charging { times: 1, more: 0 };

/// Charges that count slabs among plans of the same loss.
const LOSS_THEN_SLABS_OF_FOUR: Charging = Charging { times: 5, more: 1 };

const LOSS_THEN_SLABS_OF_FIVE: Charging = Charging { times: 6, more: 1 };

// 1,200 trees, in each of which a path of five nodes leads to a leaf.
#[test]
fn trees_of_four_orders(rt: HostRuntime) -> Result<(), Fail> {
    let alloc = rt.alloc();
    for i in 0u16..1200 {
        // 49 shares no factor with 9, so that each digit takes all of its values.
        let orders = orders_of(49 * i);
        let p = 1 + (i % 4) as u8;
        let charging = if i / 4 % 2 == 0 {
            LOSS
        } else {
            LOSS_THEN_SLABS_OF_FOUR
        };
        assert!(rt; is_tree_exact(alloc, &orders[..4], p, charging)?);
    }
    Ok(())
}

// 100 trees, in each of which a path of six nodes leads to a leaf.
#[test]
fn trees_of_five_orders(rt: HostRuntime) -> Result<(), Fail> {
    let alloc = rt.alloc();
    for i in 0u16..100 {
        let orders = orders_of(590 * i);
        let p = 1 + (i % 4) as u8;
        let charging = if i / 4 % 2 == 0 {
            LOSS
        } else {
            LOSS_THEN_SLABS_OF_FIVE
        };
        assert!(rt; is_tree_exact(alloc, &orders, p, charging)?);
    }
    Ok(())
}
