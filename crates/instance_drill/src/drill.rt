ghost use Rattle.std.specs.Prelude.{◌≡◌, ◌≤◌, IfOk};
ghost use Rattle.mill_model.specs.Heavy.{NoneHeavy};
ghost use Rattle.mill_model.specs.Instance.{largest};
ghost use Rattle.mill_model.specs.declared.order.TheConstants.{MAX_ORDERS};
ghost use Rattle.instance_drill.specs.Drilled.{drilled, orders_from};

use crate::draws::{COLOURS, Draws};
use mill_model::{Instance, Order, OutOfMemory};
use std::alloc::Global;

// The sizes of the slabs of each instance: those of the instance that CSPLib gives.
const SIZES: [u32; 20] = [
    12, 14, 17, 18, 19, 20, 23, 24, 25, 26, 27, 28, 29, 30, 32, 35, 39, 42, 43, 44,
];

/// The instance of so many orders that a seed gives, where a slab may carry `p` colours. None of
/// its orders is heavier than the largest size.
pub fn drill_instance(alloc: Global, seed: u32, orders: u16, p: u8) -> Result<Instance, OutOfMemory>
    requires few { orders ≤ MAX_ORDERS }
    requires low { 1 ≤ p }
    requires high { p ≤ 8 }
    ensures made { IfOk result (λ instance. instance ≡ drilled seed orders p) }
    ensures light { IfOk result (λ instance. NoneHeavy (largest instance.sizes) instance.orders) }
{
    let mut sizes = Vec::with_capacity(alloc, SIZES.len())?;
    sizes.extend_from_slice(&SIZES)?;
    let orders = orders_of(alloc, seed, orders)?;
    Ok(Instance::new(sizes, COLOURS, orders, p))
}

// So many orders, drawn one after the other.
fn orders_of(alloc: Global, seed: u32, count: u16) -> Result<Vec<Order>, OutOfMemory>
    ensures { IfOk result (λ orders. orders.items ≡ orders_from seed count) }
{
    let mut orders = Vec::with_capacity(alloc, usize::from(count))?;
    let mut draws = Draws::new(seed);
    for _ in 0..count {
        orders.push(draws.order())?;
    }
    Ok(orders)
}
