//! Moves of two orders by hand; and at every instance of a grid each pair of what moves leave is
//! closed by a plain search through all splits.
ghost use Rattle.std.specs.Prelude.{◌≡◌, ◌≤◌, All, IfOk, IfSome, length, true};
ghost use Rattle.mill_model.specs.Charges.{Reaches, charge_of};
ghost use Rattle.mill_model.specs.Instance.{IsSize, mill_of};
ghost use Rattle.mill_model.specs.Plan.{numbers_each};

use crate::grid::{MASKS, alone, instance_of};
use crate::starts::start_at;
use large_moves::{Closed, pair_moves};
use loss_table::loss_charges;
use mill_model::{Charges, Instance, Order, OutOfMemory, Start};
use order_symmetry::Ranked;
use std::alloc::Global;
use std::test::Fail;

// What so many moves make of these slabs, if they make a legal plan.
fn moved(
    alloc: Global,
    instance: &Instance,
    charges: &Charges,
    slabs: Vec<u16>,
    moves: u64,
) -> Result<Option<(Start, Closed)>, OutOfMemory>
    requires each { numbers_each slabs.items instance.now.orders ≡ true }
    requires reach { Reaches charges.now (mill_of instance.now) }
{
    let ranked = Ranked::new(alloc, instance)?;
    let Some(start) = start_at(alloc, instance, charges, slabs)? else {
        return Ok(None);
    };
    Ok(Some(pair_moves(alloc, &ranked, charges, start, moves)?))
}

// What so many moves make of two orders of one colour on two slabs, where both fit one.
fn two_orders(alloc: Global, moves: u64) -> Result<Option<(Start, Closed)>, OutOfMemory> {
    let orders = vec![in alloc;
        Order {
            weight: 2,
            colour: 1
        },
        Order {
            weight: 3,
            colour: 1
        },
    ]?;
    let instance = Instance::new(vec![in alloc; 5]?, 0, orders, 2);
    let charges = loss_charges(alloc, &instance)?;
    moved(alloc, &instance, &charges, vec![in alloc; 0, 1]?, moves)
}

#[test]
fn two_orders_come_together(rt: HostRuntime) -> Result<(), Fail> {
    let alloc = rt.alloc();
    let (start, closed) = two_orders(alloc, 1000)?.ok_or("not legal")?;
    assert_eq!(rt; (start.loss, closed), (0, Closed::Yes));
    let slabs = start.plan.slabs();
    let is_together = slabs == [0, 0].as_slice() || slabs == [1, 1].as_slice();
    assert!(rt; is_together);
    let (start, closed) = two_orders(alloc, 0)?.ok_or("not legal")?;
    assert_eq!(rt; (start.loss, closed), (5, Closed::Spent));
    assert_eq!(rt; start.plan.slabs(), [0, 1].as_slice());
    Ok(())
}

// What a load loses: the least size that holds it, less the load.
fn load_loss(sizes: &[u32], load: u32) -> Option<u64> {
    if load == 0 {
        return Some(0);
    }
    for &size in sizes {
        if load <= size {
            return Some(u64::from(size - load));
        }
    }
    None
}

// What the orders whose bit of a mask is `bit` lose on one slab, if they may lie there.
fn part_loss(instance: &Instance, items: &[Order], mask: u32, bit: u32) -> Option<u64> {
    let mut load = 0u32;
    let mut colours = 0u32;
    let mut bits = mask;
    for order in items {
        if bits % 2 == bit {
            load = load.saturating_add(order.weight);
            colours |= 1 << u32::from(order.colour % 32);
        }
        bits /= 2;
    }
    if colours.count_ones() > u32::from(instance.p()) {
        return None;
    }
    load_loss(instance.sizes(), load)
}

// What some orders lose on one slab; more than any, if they may not lie there.
fn slab_loss(instance: &Instance, items: &[Order]) -> u64 {
    part_loss(instance, items, 0, 0).unwrap_or(1_000_000)
}

// What the cheapest of all splits of up to seven orders loses.
fn least_loss(instance: &Instance, items: &[Order]) -> u64 {
    let mut least = u64::MAX;
    let unused = items.len().min(7) as u32;
    for mask in 0u32..128 {
        if mask >> unused > 0 {
            break;
        }
        let first = part_loss(instance, items, mask, 1);
        let second = part_loss(instance, items, mask, 0);
        if let (Some(first), Some(second)) = (first, second) {
            least = least.min(first.saturating_add(second));
        }
    }
    least
}

// The orders of one or two slabs.
fn orders_on(
    alloc: Global,
    instance: &Instance,
    slabs: &[u16],
    pair: (u16, u16),
) -> Result<Vec<Order>, OutOfMemory> {
    let mut items = Vec::new(alloc);
    for (order, &slab) in instance.orders().iter().zip(slabs) {
        if slab == pair.0 || slab == pair.1 {
            items.push(*order)?;
        }
    }
    Ok(items)
}

// Whether no split of a pair loses less than the pair.
fn is_closed(
    alloc: Global,
    instance: &Instance,
    slabs: &[u16],
    pair: (u16, u16),
) -> Result<bool, OutOfMemory> {
    let mut loss = slab_loss(
        instance,
        &orders_on(alloc, instance, slabs, (pair.0, pair.0))?,
    );
    if pair.0 < pair.1 {
        let second = orders_on(alloc, instance, slabs, (pair.1, pair.1))?;
        loss = loss.saturating_add(slab_loss(instance, &second));
    }
    if loss == 0 {
        return Ok(true);
    }
    Ok(least_loss(instance, &orders_on(alloc, instance, slabs, pair)?) >= loss)
}

// A pair of slabs that a split betters.
fn open_pair(
    alloc: Global,
    instance: &Instance,
    slabs: &[u16],
) -> Result<Option<(u16, u16)>, OutOfMemory> {
    for b in 0..7 {
        for a in 0..b + 1 {
            if !is_closed(alloc, instance, slabs, (a, b))? {
                return Ok(Some((a, b)));
            }
        }
    }
    Ok(None)
}

// What a plan loses by the plain reading.
fn plan_loss(alloc: Global, instance: &Instance, slabs: &[u16]) -> Result<u64, OutOfMemory> {
    let mut loss = 0u64;
    for s in 0..7 {
        let items = orders_on(alloc, instance, slabs, (s, s))?;
        loss = loss.saturating_add(slab_loss(instance, &items));
    }
    Ok(loss)
}

// What moves make of each order alone.
fn moved_apart(alloc: Global, instance: &Instance) -> Result<Option<(Start, Closed)>, OutOfMemory>
    requires { length instance.now.orders ≤ 13 }
{
    let charges = loss_charges(alloc, instance)?;
    let slabs = alone(alloc, instance.orders().len() as u16)?;
    moved(alloc, instance, &charges, slabs, 1000)
}

// The first mask of the grid at which a pair is left open, or the loss told isn't the plan's.
fn first_open(alloc: Global, sizes: &[u32], p: u8) -> Result<Option<u32>, OutOfMemory>
    requires some { 1 ≤ length sizes.now }
    requires few { length sizes.now ≤ 1024 }
    requires each { All IsSize sizes.now }
    requires low { 1 ≤ p }
    requires high { p ≤ 8 }
{
    for mask in 0..MASKS {
        if mask.count_ones() != 6 {
            continue;
        }
        let instance = instance_of(alloc, sizes, p, mask)?;
        let Some((start, closed)) = moved_apart(alloc, &instance)? else {
            return Ok(Some(mask));
        };
        let slabs = start.plan.slabs();
        let is_open = open_pair(alloc, &instance, slabs)?.is_some();
        if closed == Closed::Spent || is_open || plan_loss(alloc, &instance, slabs)? != start.loss {
            return Ok(Some(mask));
        }
    }
    Ok(None)
}

#[test]
fn every_pair_of_the_grid_is_closed(rt: HostRuntime) -> Result<(), Fail> {
    let alloc = rt.alloc();
    for p in 1..4 {
        assert_eq!(rt; first_open(alloc, &[5], p)?, None);
        assert_eq!(rt; first_open(alloc, &[4, 7], p)?, None);
        assert_eq!(rt; first_open(alloc, &[3, 6, 8], p)?, None);
    }
    Ok(())
}
