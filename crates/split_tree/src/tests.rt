//! Nodes of two small trees. Orders, groups and ranks are counted from 0.
ghost use Rattle.std.specs.Prelude.{◌≡◌, ◌≤◌, length, IfOk};
ghost use Rattle.mill_model.specs.declared.order.TheConstants.{MAX_ORDERS};

use super::*;
use mill_model::{Charges, Instance, Order, OutOfMemory, Path};
use order_symmetry::Ranked;
use std::alloc::Global;
use std::test::Fail;

// The ranked orders of these weights and colours, within the limits, where 4 is the one size.
fn ranked_of(alloc: Global, orders: &[(u32, u16)]) -> Result<Ranked, OutOfMemory>
    requires { length orders.now ≤ MAX_ORDERS }
{
    let mut list = Vec::with_capacity(alloc, orders.len())?;
    for &(weight, colour) in orders {
        list.push(Order {
            weight: weight.clamp(1, 1_000_000),
            colour: colour.clamp(1, 4096),
        })?;
    }
    Ranked::new(alloc, &Instance::new(vec![in alloc; 4]?, 0, list, 2))
}

// The node that these numbers lead to, from child to child.
fn node_at<'a>(
    alloc: Global,
    ranked: &'a Ranked,
    numbers: &[u16],
) -> Result<NodeState<'a>, OutOfMemory>
    ensures { IfOk result (λ node. node.ranked ≡ ranked.now) }
{
    let mut path = Path::root(alloc);
    for &number in numbers {
        let node = NodeState::of(alloc, ranked, &path)?;
        if node.depth() < ranked.len() {
            let children = node.children(alloc)?;
            for child in &children {
                if child.numbers().last() == Some(&number) {
                    path = child.copy()?;
                }
            }
        }
    }
    NodeState::of(alloc, ranked, &path)
}

// Whether the node that numbers lead to has these children.
fn has_children(
    alloc: Global,
    ranked: &Ranked,
    numbers: &[u16],
    expected: &[&[u16]],
) -> Result<bool, OutOfMemory> {
    let node = node_at(alloc, ranked, numbers)?;
    if node.depth() >= ranked.len() {
        return Ok(false);
    }
    let children = node.children(alloc)?;
    let mut same = children.len() == expected.len();
    for (child, numbers) in children.iter().zip(expected) {
        same = same && child.numbers() == *numbers;
    }
    Ok(same)
}

#[test]
fn children_keep_slabs_legal(rt: HostRuntime) -> Result<(), Fail> {
    let alloc = rt.alloc();
    let ranked = ranked_of(alloc, &[(1, 1), (1, 2), (2, 3)])?;
    assert!(rt; has_children(alloc, &ranked, &[], &[&[0]])?);
    assert!(rt; has_children(alloc, &ranked, &[0], &[&[0, 0], &[0, 1]])?);
    assert!(rt; has_children(alloc, &ranked, &[0, 0], &[&[0, 0, 1]])?);
    assert!(rt;
        has_children(
            alloc,
            &ranked,
            &[0, 1],
            &[&[0, 1, 0], &[0, 1, 1], &[0, 1, 2]]
        )?
    );
    Ok(())
}

#[test]
fn numbers_of_equal_orders_do_not_fall(rt: HostRuntime) -> Result<(), Fail> {
    let alloc = rt.alloc();
    let ranked = ranked_of(alloc, &[(1, 5), (1, 5), (1, 5)])?;
    assert!(rt; has_children(alloc, &ranked, &[0, 0], &[&[0, 0, 0], &[0, 0, 1]])?);
    assert!(rt; has_children(alloc, &ranked, &[0, 1], &[&[0, 1, 1], &[0, 1, 2]])?);
    Ok(())
}

#[test]
fn a_leaf_has_its_groups_and_its_plan(rt: HostRuntime) -> Result<(), Fail> {
    let alloc = rt.alloc();
    let ranked = ranked_of(alloc, &[(1, 1), (1, 2), (2, 3)])?;
    let node = node_at(alloc, &ranked, &[0, 1, 0])?;
    let mut loads = Vec::new(alloc);
    for group in node.groups() {
        loads.push(group.load())?;
    }
    assert_eq!(rt; loads.as_slice(), [3, 1].as_slice());
    assert_eq!(rt; node.ranked().largest(), 4);
    let charges = Charges::from_list(vec![in alloc; 0, 3, 2, 1, 0]?);
    assert_eq!(rt; node.groups_loss(&charges), 4);
    assert_eq!(rt; node.depth(), ranked.len());
    assert_eq!(rt; node.plan_of_leaf(alloc)?.slabs(), [1, 0, 0].as_slice());
    Ok(())
}

#[test]
fn live_keys_of_two_paths(rt: HostRuntime) -> Result<(), Fail> {
    let alloc = rt.alloc();
    let ranked = ranked_of(alloc, &[(1, 1), (1, 2), (2, 3)])?;
    let charges = Charges::from_list(vec![in alloc; 0, 3, 2, 1, 0]?);
    // The group of load 3 has two colours, and neither is that of the last order.
    let full = node_at(alloc, &ranked, &[0, 0])?;
    assert_eq!(rt; full.live_key(alloc)?.groups().len(), 0);
    assert_eq!(rt; full.ranked().largest(), 4);
    assert_eq!(rt; full.dead_loss(&charges), 1);
    let apart = node_at(alloc, &ranked, &[0, 1])?;
    let key = apart.live_key(alloc)?;
    assert_eq!(rt; key.depth(), 2);
    let mut loads = Vec::new(alloc);
    for group in key.groups() {
        loads.push((group.load, group.colours))?;
        assert_eq!(rt; group.coming, [NO_COLOUR; 8]);
    }
    assert_eq!(rt; loads.as_slice(), [(1, 1), (2, 1)].as_slice());
    assert_eq!(rt; apart.ranked().largest(), 4);
    assert_eq!(rt; apart.dead_loss(&charges), 0);
    assert!(rt; key != full.live_key(alloc)?);
    Ok(())
}

#[test]
fn a_colour_that_comes_again_is_in_the_key(rt: HostRuntime) -> Result<(), Fail> {
    let alloc = rt.alloc();
    let ranked = ranked_of(alloc, &[(2, 7), (1, 3), (1, 3), (1, 7)])?;
    // In rank: (2, 7), (1, 3), (1, 3), (1, 7).
    let node = node_at(alloc, &ranked, &[0, 0])?;
    let key = node.live_key(alloc)?;
    assert_eq!(rt; key.groups().len(), 1);
    for group in key.groups() {
        assert_eq!(rt; (group.load, group.colours), (3, 2));
        assert_eq!(rt;
            group.coming,
            [
                3, 7, NO_COLOUR, NO_COLOUR, NO_COLOUR, NO_COLOUR, NO_COLOUR, NO_COLOUR
            ]
        );
    }
    let other = node_at(alloc, &ranked, &[0, 1])?;
    assert!(rt; other.live_key(alloc)? != key);
    assert!(rt; node.live_key(alloc)? == key);
    Ok(())
}
