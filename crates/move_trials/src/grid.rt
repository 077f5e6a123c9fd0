//! A grid of small instances: up to seven orders of six kinds.
ghost use Rattle.std.specs.Prelude.{◌≡◌, ◌≤◌, All, IfOk, length, ltb, true};
ghost use Rattle.std.specs.List.{list_all};
ghost use Rattle.mill_model.specs.Instance.{IsOrder, IsSize};

use mill_model::{Instance, Order, OutOfMemory};
use std::alloc::Global;

/// How many masks there are; those with six ones give each instance of the grid once.
pub const MASKS: u32 = 8192;

// One of six orders.
fn order_of(kind: u32) -> Order
    ensures { IsOrder result }
{
    Order {
        weight: 2 + kind % 2,
        colour: 1 + (kind / 2 % 3) as u16,
    }
}

/// Orders by kind, from the lowest bit of a mask up: a zero is an order of a kind, a one goes on to
/// the next kind, and behind the sixth kind there are no orders.
pub fn orders_of(alloc: Global, mask: u32) -> Result<Vec<Order>, OutOfMemory>
    ensures few { IfOk result (λ orders. length orders.items ≤ 13) }
    ensures limits { IfOk result (λ orders. All IsOrder orders.items) }
{
    let mut orders = Vec::new(alloc);
    let mut kind = 0u32;
    let mut bits = mask;
    for _ in 0..13u32 {
        if bits % 2 == 1 {
            kind = kind.saturating_add(1);
        } else if kind < 6 {
            orders.push(order_of(kind))?;
        }
        bits /= 2;
    }
    Ok(orders)
}

/// An instance of the grid.
pub fn instance_of(alloc: Global, sizes: &[u32], p: u8, mask: u32) -> Result<Instance, OutOfMemory>
    requires some { 1 ≤ length sizes.now }
    requires few { length sizes.now ≤ 1024 }
    requires each { All IsSize sizes.now }
    requires low { 1 ≤ p }
    requires high { p ≤ 8 }
    ensures { IfOk result (λ instance. length instance.orders ≤ 13) }
{
    let orders = orders_of(alloc, mask)?;
    Ok(Instance::new(sizes.to_vec(alloc)?, 0, orders, p))
}

/// Each order on a slab of its own.
pub fn alone(alloc: Global, count: u16) -> Result<Vec<u16>, OutOfMemory>
    ensures count { IfOk result (λ slabs. length slabs.items ≡ count) }
    ensures below { IfOk result (λ slabs. list_all (λ s. ltb s count) slabs.items ≡ true) }
{
    let mut slabs = Vec::new(alloc);
    for s in 0..count {
        slabs.push(s)?;
    }
    Ok(slabs)
}
