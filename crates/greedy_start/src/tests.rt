//! Plans by hand, and both calls on a grid of instances against a plain reading of their
//! definitions.
ghost use Rattle.std.specs.Prelude.{◌≡◌, ◌+◌, ◌≤◌, All, IfOk, IsTrue, length};
ghost use Rattle.mill_model.specs.Instance.{IsOrder, IsSize};
ghost use Rattle.order_symmetry.specs.Ranked.{orders_of};

use super::*;
use mill_model::{Charges, Instance, Order, OutOfMemory};
use order_symmetry::Ranked;
use std::alloc::Global;
use std::test::Fail;

// What a load is charged by rising sizes, by hand: the least size that holds it, less the load.
fn charge(sizes: &[u32], load: u32) -> u64
    ensures { result ≤ 100000 }
{
    for &size in sizes {
        if 0 < load && load <= size {
            return u64::from((size - load).min(100_000));
        }
    }
    0
}

fn charges_up_to(alloc: Global, sizes: &[u32], largest: u32) -> Result<Charges, OutOfMemory>
    ensures { IfOk result (λ charges. length charges.list ≡ largest + 1) }
{
    let mut table = vec![in alloc; 0]?;
    for load in 0..largest {
        table.push(charge(sizes, load.saturating_add(1)))?;
    }
    Ok(Charges::from_list(table))
}

// Whether no order is heavier than the largest size.
fn all_fit(ranked: &Ranked) -> bool
    ensures { IsTrue result →
        All (λ order. order.weight ≤ ranked.now.mill.largest) (orders_of ranked.now) }
{
    for rank in 0..ranked.len() {
        if ranked.order(rank).weight > ranked.largest() {
            return false;
        }
    }
    true
}

// An order of this weight and colour, within the limits.
fn order_of(weight: u32, colour: u16) -> Order
    ensures { IsOrder result }
{
    Order {
        weight: weight.clamp(1, 1_000_000),
        colour: colour.clamp(1, 4096),
    }
}

// The orders of these weights and colours, within the limits.
fn orders_from(alloc: Global, orders: &[(u32, u16)]) -> Result<Vec<Order>, OutOfMemory>
    ensures count { IfOk result (λ list. length list.items ≡ length orders.now) }
    ensures limits { IfOk result (λ list. All IsOrder list.items) }
{
    let mut list = Vec::with_capacity(alloc, orders.len())?;
    for &(weight, colour) in orders {
        list.push(order_of(weight, colour))?;
    }
    Ok(list)
}

// The slab of each order by first fit and by the better start, and the loss of the latter.
#[derive(Debug, Drop, PartialEq, Eq)]
struct Starts {
    first: Vec<u16>,
    better: Vec<u16>,
    loss: u64,
}

// What both calls give, or nothing where an order is too heavy.
fn found(alloc: Global, sizes: &[u32], ranked: &Ranked) -> Result<Option<Starts>, OutOfMemory> {
    if !all_fit(ranked) {
        return Ok(None);
    }
    let charges = charges_up_to(alloc, sizes, ranked.largest())?;
    let first = first_fit(alloc, ranked)?;
    let start = best_start(alloc, ranked, &charges)?;
    Ok(Some(Starts {
        first: first.slabs().to_vec(alloc)?,
        better: start.plan.slabs().to_vec(alloc)?,
        loss: start.loss,
    }))
}

// Orders of these weights and colours, with two colours a slab.
fn ranked_of(alloc: Global, sizes: &[u32], orders: &[(u32, u16)]) -> Result<Ranked, OutOfMemory>
    requires some { 1 ≤ length sizes.now }
    requires few { length sizes.now ≤ 1024 }
    requires each { All IsSize sizes.now }
    requires orders { length orders.now ≤ 1024 }
{
    let list = orders_from(alloc, orders)?;
    Ranked::new(alloc, &Instance::new(sizes.to_vec(alloc)?, 0, list, 2))
}

#[test]
fn plans_by_hand(rt: HostRuntime) -> Result<(), Fail> {
    let alloc = rt.alloc();
    let ranked = ranked_of(alloc, &[4], &[(1, 1), (1, 2), (2, 3)])?;
    let wanted = Starts {
        first: vec![in alloc; 0, 1, 0]?,
        better: vec![in alloc; 0, 1, 0]?,
        loss: 4,
    };
    assert_eq!(rt; found(alloc, &[4], &ranked)?, Some(wanted));
    let ranked = ranked_of(alloc, &[5, 7], &[(3, 1), (3, 1), (2, 1), (2, 1)])?;
    let wanted = Starts {
        first: vec![in alloc; 0, 0, 1, 1]?,
        better: vec![in alloc; 0, 0, 1, 1]?,
        loss: 2,
    };
    assert_eq!(rt; found(alloc, &[5, 7], &ranked)?, Some(wanted));
    Ok(())
}

#[test]
fn best_fit_loses_less(rt: HostRuntime) -> Result<(), Fail> {
    let alloc = rt.alloc();
    let sizes = [
        12, 14, 17, 18, 19, 20, 23, 24, 25, 26, 27, 28, 29, 30, 32, 35, 39, 42, 43, 44,
    ];
    let orders = [(4, 1), (22, 2), (9, 3), (5, 4), (8, 5), (4, 5)];
    let ranked = ranked_of(alloc, &sizes, &orders)?;
    let wanted = Starts {
        first: vec![in alloc; 2, 0, 0, 1, 1, 1]?,
        better: vec![in alloc; 2, 0, 0, 1, 1, 2]?,
        loss: 6,
    };
    assert_eq!(rt; found(alloc, &sizes, &ranked)?, Some(wanted));
    Ok(())
}

// The plain reading: a slab is the list of its orders.

fn load(slab: &[Order]) -> u32 {
    let mut load = 0u32;
    for order in slab {
        load = load.saturating_add(order.weight);
    }
    load
}

fn stays_legal(slab: &[Order], order: Order, ranked: &Ranked) -> bool {
    let mut colours = 1u8;
    for (i, other) in slab.iter().enumerate() {
        let seen = slab[..i].iter().any(|before| before.colour == other.colour);
        if !seen && other.colour != order.colour {
            colours = colours.saturating_add(1);
        }
    }
    load(slab).saturating_add(order.weight) <= ranked.largest() && colours <= ranked.p()
}

// What an order adds on a slab.
fn added(slab: &[Order], order: Order, sizes: &[u32]) -> i64 {
    let before = charge(sizes, load(slab));
    let after = charge(sizes, load(slab).saturating_add(order.weight));
    after as i64 - before as i64
}

fn first_number(slabs: &[Vec<Order>], order: Order, ranked: &Ranked) -> usize {
    for (number, slab) in slabs.iter().enumerate() {
        if stays_legal(slab, order, ranked) {
            return number;
        }
    }
    slabs.len()
}

fn best_number(slabs: &[Vec<Order>], order: Order, ranked: &Ranked, sizes: &[u32]) -> usize {
    let mut best = slabs.len();
    let mut least = i64::MAX;
    for (number, slab) in slabs.iter().enumerate() {
        if stays_legal(slab, order, ranked) && added(slab, order, sizes) < least {
            best = number;
            least = added(slab, order, sizes);
        }
    }
    if added(&[], order, sizes) < least {
        slabs.len()
    } else {
        best
    }
}

// The plan by one of the two, and its loss.
fn plain(
    alloc: Global,
    ranked: &Ranked,
    sizes: &[u32],
    is_first: bool,
) -> Result<(Vec<u16>, u64), OutOfMemory> {
    let mut slabs: Vec<Vec<Order>> = Vec::new(alloc);
    let mut plan = vec![in alloc; 0u16; ranked.len() as usize]?;
    for rank in 0..ranked.len() {
        let order = ranked.order(rank);
        let number = if is_first {
            first_number(&slabs, order, ranked)
        } else {
            best_number(&slabs, order, ranked, sizes)
        };
        match slabs.get_mut(number) {
            Some(slab) => slab.push(order)?,
            None => slabs.push(vec![in alloc; order]?)?,
        }
        if let Some(slab) = plan.get_mut(ranked.home(rank) as usize) {
            *slab = u16::try_from(number).unwrap_or(u16::MAX);
        }
    }
    let mut loss = 0u64;
    for slab in &slabs {
        loss = loss.saturating_add(charge(sizes, load(slab)));
    }
    Ok((plan, loss))
}

fn plain_found(alloc: Global, sizes: &[u32], ranked: &Ranked) -> Result<Starts, OutOfMemory> {
    let (first, first_loss) = plain(alloc, ranked, sizes, true)?;
    let (best, best_loss) = plain(alloc, ranked, sizes, false)?;
    let better = if best_loss < first_loss {
        best
    } else {
        first.clone()?
    };
    Ok(Starts {
        first,
        better,
        loss: first_loss.min(best_loss),
    })
}

// An instance of the grid: up to seven orders of six kinds, from the lowest bit of a mask up. A
// zero is an order of a kind, a one goes on to the next kind, and behind the sixth kind there are
// no orders; so each mask of six ones among thirteen bits is another instance.
fn instance_of(alloc: Global, sizes: &[u32], p: u8, mask: u32) -> Result<Instance, OutOfMemory>
    requires some { 1 ≤ length sizes.now }
    requires few { length sizes.now ≤ 1024 }
    requires each { All IsSize sizes.now }
    requires low { 1 ≤ p }
    requires high { p ≤ 8 }
{
    let mut orders = Vec::new(alloc);
    let mut kind = 0u32;
    let mut bits = mask;
    for _ in 0..13u32 {
        if bits % 2 == 1 {
            kind = kind.saturating_add(1);
        } else if kind < 6 {
            orders.push((1 + kind % 2, 1 + (kind / 2 % 3) as u16))?;
        }
        bits /= 2;
    }
    let list = orders_from(alloc, &orders)?;
    Ok(Instance::new(sizes.to_vec(alloc)?, 0, list, p))
}

// Whether both calls agree with the plain reading at every instance of the grid.
fn agrees(alloc: Global, sizes: &[u32], p: u8) -> Result<bool, OutOfMemory>
    requires some { 1 ≤ length sizes.now }
    requires few { length sizes.now ≤ 1024 }
    requires each { All IsSize sizes.now }
    requires low { 1 ≤ p }
    requires high { p ≤ 8 }
{
    for mask in 0..8192u32 {
        if mask.count_ones() != 6 {
            continue;
        }
        let ranked = Ranked::new(alloc, &instance_of(alloc, sizes, p, mask)?)?;
        let plain = plain_found(alloc, sizes, &ranked)?;
        if found(alloc, sizes, &ranked)? != Some(plain) {
            return Ok(false);
        }
    }
    Ok(true)
}

#[test]
fn a_grid_agrees_with_the_plain_reading(rt: HostRuntime) -> Result<(), Fail> {
    let alloc = rt.alloc();
    for p in 1..4 {
        assert!(rt; agrees(alloc, &[4], p)?);
        assert!(rt; agrees(alloc, &[3, 5], p)?);
        assert!(rt; agrees(alloc, &[2, 4, 7], p)?);
    }
    Ok(())
}
