//! A mill with the one size 4, its charges, and orders in rank. Orders and ranks are counted from
//! 0.
ghost use Rattle.std.specs.Prelude.{◌≡◌, ◌≤◌, All, IfOk, IsTrue, length};
ghost use Rattle.mill_model.specs.declared.order.TheConstants.{MAX_ORDERS};
ghost use Rattle.order_symmetry.specs.Ranked.{orders_of};

use mill_model::{Charges, Instance, Order, OutOfMemory, Path};
use order_symmetry::Ranked;
use split_tree::NodeState;
use std::alloc::Global;

/// Orders as weights and colours, which stand in rank as (2, 3), (1, 1) and (1, 2).
pub const THREE_ORDERS: [(u32, u16); 3] = [(1, 1), (1, 2), (2, 3)];

/// These stand in rank as (3, 2) and (1, 1).
pub const TWO_ORDERS: [(u32, u16); 2] = [(1, 1), (3, 2)];

/// The ranked orders of these weights and colours, within the limits, with `p` colours a slab.
pub fn ranked_of(alloc: Global, orders: &[(u32, u16)], p: u8) -> Result<Ranked, OutOfMemory>
    requires few { length orders.now ≤ MAX_ORDERS }
    requires low { 1 ≤ p }
    requires high { p ≤ 8 }
{
    let mut list = Vec::with_capacity(alloc, orders.len())?;
    for &(weight, colour) in orders {
        list.push(Order {
            weight: weight.clamp(1, 1_000_000),
            colour: colour.clamp(1, 4096),
        })?;
    }
    Ranked::new(alloc, &Instance::new(vec![in alloc; 4]?, 0, list, p))
}

/// What the loads from 0 to 4 are charged: 4 less the load, but for no load.
pub fn charges_to_four(alloc: Global) -> Result<Charges, OutOfMemory>
    ensures { IfOk result (λ charges. length charges.list ≡ 5) }
{
    Ok(Charges::from_list(vec![in alloc; 0, 3, 2, 1, 0]?))
}

/// Whether no order is heavier than the largest size.
pub fn all_fit(ranked: &Ranked) -> bool
    ensures { IsTrue result →
        All (λ order. order.weight ≤ ranked.now.mill.largest) (orders_of ranked.now) }
{
    for rank in 0..ranked.len() {
        if ranked.order(rank).weight > ranked.largest() {
            return false;
        }
    }
    true
}

/// The node that these numbers lead to, from child to child, as far as there are such children.
pub fn node_at<'a>(
    alloc: Global,
    ranked: &'a Ranked,
    numbers: &[u16],
) -> Result<NodeState<'a>, OutOfMemory>
    ensures { IfOk result (λ node. node.ranked ≡ ranked.now) }
{
    let mut path = Path::root(alloc);
    for &number in numbers {
        let node = NodeState::of(alloc, ranked, &path)?;
        if node.depth() < ranked.len() {
            let children = node.children(alloc)?;
            for child in &children {
                if child.numbers().last() == Some(&number) {
                    path = child.copy()?;
                }
            }
        }
    }
    NodeState::of(alloc, ranked, &path)
}
