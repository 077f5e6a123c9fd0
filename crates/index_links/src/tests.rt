//! A move by hand, random moves against a plain list of slab numbers, and a small forest.
ghost use Rattle.std.specs.Prelude.{◌≡◌, ◌<◌, IfOk, length};
ghost use Rattle.index_links.specs.Rows.{small_forest};

use super::*;
use mill_model::{MAX_ORDERS, OutOfMemory, Plan};
use std::alloc::Global;
use std::test::Fail;

// The list of a slab.
fn list_of(alloc: Global, links: &SlabLinks, slab: u16) -> Result<Vec<u16>, OutOfMemory>
    requires { slab < length links.now }
{
    let mut list = Vec::new(alloc);
    let mut next = links.first(slab);
    for _ in 0..MAX_ORDERS {
        let Some(order) = next else {
            break;
        };
        list.push(order)?;
        next = links.next(order);
    }
    Ok(list)
}

#[test]
fn an_order_goes_first_into_another_list(rt: HostRuntime) -> Result<(), Fail> {
    let alloc = rt.alloc();
    let plan = Plan::from_list(vec![in alloc; 0, 0, 1]?);
    let mut links = SlabLinks::new(alloc, &plan)?;
    assert_eq!(rt; list_of(alloc, &links, 0)?.as_slice(), [0, 1].as_slice());
    links.move_to(0, 1);
    assert_eq!(rt; list_of(alloc, &links, 0)?.as_slice(), [1].as_slice());
    assert_eq!(rt; list_of(alloc, &links, 1)?.as_slice(), [0, 2].as_slice());
    assert_eq!(rt; list_of(alloc, &links, 2)?.as_slice(), [].as_slice());
    assert_eq!(rt; (links.slab_of(0), links.slab_of(1)), (1, 0));
    assert_eq!(rt; links.to_plan(alloc)?.slabs(), [1, 0, 1].as_slice());
    Ok(())
}

#[test]
fn lists_are_written_one_behind_the_other(rt: HostRuntime) -> Result<(), Fail> {
    let alloc = rt.alloc();
    let plan = Plan::from_list(vec![in alloc; 1, 0, 1, 1]?);
    let links = SlabLinks::new(alloc, &plan)?;
    let mut places = [9; 8];
    assert_eq!(rt; links.len(), 4);
    let end = links.write_list(1, &mut places, 1);
    assert_eq!(rt; links.write_list(0, &mut places, end), 5);
    assert_eq!(rt; places.as_slice(), [9, 0, 2, 3, 1, 9, 9, 9].as_slice());
    assert_eq!(rt; links.write_list(2, &mut places, 7), 7);
    Ok(())
}

const ORDERS: u16 = 40;

// The list that plain lists of slab numbers and of the times of the moves give: the orders of the
// slab, the one that moved last first.
fn expected(alloc: Global, slabs: &[u16], times: &[u32], slab: u16) -> Result<Vec<u16>, OutOfMemory>
    requires slabs { length slabs.now ≡ ORDERS }
    requires times { length times.now ≡ ORDERS }
{
    let mut list = Vec::new(alloc);
    for order in 0..ORDERS {
        if slabs[order as usize] == slab {
            list.push((times[order as usize], order))?;
        }
    }
    list.sort_unstable();
    list.reverse();
    Ok(list.iter().map(|&(_, order)| order).collect(alloc)?)
}

// Moves orders at random, and notes the slab and the time of each move.
fn move_at_random(links: &mut SlabLinks, slabs: &mut [u16], times: &mut [u32])
    requires links { length links.old ≡ ORDERS }
    requires slabs { length slabs.old ≡ ORDERS }
    requires times { length times.old ≡ ORDERS }
    ensures { length links.new ≡ ORDERS }
{
    let mut seed = 1u64;
    for time in 0..10_000 {
        seed = seed
            .wrapping_mul(6_364_136_223_846_793_005)
            .wrapping_add(1_442_695_040_888_963_407);
        let order = (seed >> 33) % u64::from(ORDERS);
        let slab = (seed >> 49) % u64::from(ORDERS);
        links.move_to(order as u16, slab as u16);
        slabs[order as usize] = slab as u16;
        times[order as usize] = time + 1;
    }
}

#[test]
fn random_moves_agree_with_slab_numbers(rt: HostRuntime) -> Result<(), Fail> {
    let alloc = rt.alloc();
    let mut slabs = [0; ORDERS as usize];
    let mut times = [0; ORDERS as usize];
    let plan = Plan::from_list(vec![in alloc; 0; ORDERS as usize]?);
    let mut links = SlabLinks::new(alloc, &plan)?;
    move_at_random(&mut links, &mut slabs, &mut times);
    assert_eq!(rt; links.to_plan(alloc)?.slabs(), slabs.as_slice());
    for slab in 0..ORDERS {
        let found = list_of(alloc, &links, slab)?;
        let wanted = expected(alloc, &slabs, &times, slab)?;
        assert_eq!(rt; found.as_slice(), wanted.as_slice());
    }
    Ok(())
}

// A root with the children 2 and 1, in this order of coming, and a second root.
fn small_forest(alloc: Global) -> Result<TreeLinks, OutOfMemory>
    ensures { IfOk result (λ tree. tree ≡ small_forest) }
{
    let mut tree = TreeLinks::new(alloc);
    tree.add(None, 0)?;
    tree.add(Some(0), 2)?;
    tree.add(Some(0), 1)?;
    tree.add(None, 0)?;
    Ok(tree)
}

#[test]
fn children_stand_by_rising_label(rt: HostRuntime) -> Result<(), Fail> {
    let tree = small_forest(rt.alloc())?;
    assert_eq!(rt;
        (tree.first_child(0), tree.next_sibling(2)),
        (Some(2), Some(1))
    );
    assert_eq!(rt; (tree.label(2), tree.label(1)), (1, 2));
    assert_eq!(rt; (tree.next_sibling(1), tree.first_child(1)), (None, None));
    assert_eq!(rt; (tree.parent(1), tree.parent(2)), (Some(0), Some(0)));
    assert_eq!(rt; (tree.parent(0), tree.parent(3)), (None, None));
    assert_eq!(rt;
        (tree.next_sibling(0), tree.next_sibling(3)),
        (Some(3), None)
    );
    Ok(())
}
