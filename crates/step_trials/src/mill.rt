//! Small mills with the one size 4, their charges, and paths of their trees. Orders, groups and
//! ranks are counted from 0.
ghost use Rattle.std.specs.Prelude.{◌≡◌, ◌≤◌, All, IfOk, IsTrue, length};
ghost use Rattle.mill_model.specs.declared.order.TheConstants.{MAX_ORDERS};
ghost use Rattle.mill_model.specs.Instance.{IsOrder};
ghost use Rattle.order_symmetry.specs.Ranked.{orders_of};
ghost use Rattle.search_step.specs.Serving.{IsPathOf};

use mill_model::{Charges, Instance, Order, OutOfMemory, Path};
use order_symmetry::Ranked;
use split_tree::NodeState;
use std::alloc::Global;

/// Orders as weights and colours, which stand in rank as (2, 3), (1, 1) and (1, 2).
pub const THREE_ORDERS: [(u32, u16); 3] = [(1, 1), (1, 2), (2, 3)];

/// Orders that stand in rank as they are, one class for each.
pub const FOUR_CLASSES: [(u32, u16); 4] = [(3, 1), (1, 2), (1, 3), (1, 4)];

/// Orders that stand in rank as they are. The last two are one class.
pub const THREE_CLASSES: [(u32, u16); 4] = [(2, 1), (1, 1), (1, 2), (1, 2)];

// An order of this weight and colour, within the limits.
fn order_of(weight: u32, colour: u16) -> Order
    ensures { IsOrder result }
{
    Order {
        weight: weight.clamp(1, 1_000_000),
        colour: colour.clamp(1, 4096),
    }
}

/// The ranked orders of these weights and colours, within the limits, with `p` colours a slab.
pub fn ranked_of(
    alloc: Global,
    size: u32,
    orders: &[(u32, u16)],
    p: u8,
) -> Result<Ranked, OutOfMemory>
    requires few { length orders.now ≤ MAX_ORDERS }
    requires low { 1 ≤ p }
    requires high { p ≤ 8 }
{
    let mut list = Vec::with_capacity(alloc, orders.len())?;
    for &(weight, colour) in orders {
        list.push(order_of(weight, colour))?;
    }
    let sizes = vec![in alloc; size.clamp(1, 20_000)]?;
    Ranked::new(alloc, &Instance::new(sizes, 0, list, p))
}

/// What the loads from 0 to 4 are charged: 4 less the load, but for no load.
pub fn charges_to_four(alloc: Global) -> Result<Charges, OutOfMemory>
    ensures { IfOk result (λ charges. length charges.list ≡ 5) }
{
    Ok(Charges::from_list(vec![in alloc; 0, 3, 2, 1, 0]?))
}

/// Whether no order is heavier than the largest size.
pub fn all_fit(ranked: &Ranked) -> bool
    ensures { IsTrue result →
        All (λ order. order.weight ≤ ranked.now.mill.largest) (orders_of ranked.now) }
{
    for rank in 0..ranked.len() {
        if ranked.order(rank).weight > ranked.largest() {
            return false;
        }
    }
    true
}

/// The path of these numbers, from child to child, as far as there are such children.
pub fn path_of(alloc: Global, ranked: &Ranked, numbers: &[u16]) -> Result<Path, OutOfMemory>
    ensures { IfOk result (IsPathOf ranked.now) }
{
    let mut path = Path::root(alloc);
    for &number in numbers {
        let node = NodeState::of(alloc, ranked, &path)?;
        if node.depth() < ranked.len() {
            let children = node.children(alloc)?;
            for child in &children {
                if child.numbers().last() == Some(&number) {
                    path = child.copy()?;
                }
            }
        }
    }
    Ok(path)
}
