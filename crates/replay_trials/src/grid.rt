//! A grid of small instances: up to five orders of six kinds.
ghost use Rattle.std.specs.Prelude.{◌≤◌, All, IfOk, length};
ghost use Rattle.mill_model.specs.Instance.{IsOrder, IsSize};

use mill_model::{Instance, Order, OutOfMemory};
use std::alloc::Global;

/// How many masks there are; those with six ones give each instance of the grid once.
pub const MASKS: u32 = 2048;

// One of six orders.
fn order_of(kind: u32) -> Order
    ensures { IsOrder result }
{
    Order {
        weight: 1 + kind % 2 * 2,
        colour: 1 + (kind / 2 % 3) as u16,
    }
}

// Orders by kind, from the lowest bit of a mask up: a zero is an order of a kind, a one goes on to
// the next kind, and behind the sixth kind there are no orders.
fn orders_of(alloc: Global, mask: u32) -> Result<Vec<Order>, OutOfMemory>
    ensures few { IfOk result (λ orders. length orders.items ≤ 11) }
    ensures limits { IfOk result (λ orders. All IsOrder orders.items) }
{
    let mut orders = Vec::new(alloc);
    let mut kind = 0u32;
    let mut bits = mask;
    for _ in 0..11u32 {
        if bits % 2 == 1 {
            kind = kind.saturating_add(1);
        } else if kind < 6 {
            orders.push(order_of(kind))?;
        }
        bits /= 2;
    }
    Ok(orders)
}

/// An instance of the grid, with at most five orders where its mask has six ones.
pub fn instance_of(alloc: Global, sizes: &[u32], p: u8, mask: u32) -> Result<Instance, OutOfMemory>
    requires some { 1 ≤ length sizes.now }
    requires few { length sizes.now ≤ 1024 }
    requires each { All IsSize sizes.now }
    requires low { 1 ≤ p }
    requires high { p ≤ 8 }
{
    let orders = orders_of(alloc, mask)?;
    Ok(Instance::new(sizes.to_vec(alloc)?, 0, orders, p))
}

/// Two light orders and one of weight two, each of a colour of its own, for one size, 4, and two
/// colours a slab.
pub fn three_orders(alloc: Global) -> Result<Instance, OutOfMemory> {
    let orders = vec![in alloc;
        Order {
            weight: 1,
            colour: 1
        },
        Order {
            weight: 1,
            colour: 2
        },
        Order {
            weight: 2,
            colour: 3
        },
    ]?;
    Ok(Instance::new(vec![in alloc; 4]?, 0, orders, 2))
}
