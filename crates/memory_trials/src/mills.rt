//! Two mills with the one size 4 and two colours a slab.
ghost use Rattle.std.specs.Prelude.{◌≡◌, ◌≤◌, All, IfOk, IsTrue, length};
ghost use Rattle.order_symmetry.specs.Ranked.{orders_of};

use mill_model::{Charges, Instance, Order, OutOfMemory};
use order_symmetry::Ranked;
use std::alloc::Global;

/// Three orders, which stand in rank as the last, the first, the second.
pub fn three_orders(alloc: Global) -> Result<Ranked, OutOfMemory> {
    let orders = vec![in alloc;
        Order {
            weight: 1,
            colour: 1,
        },
        Order {
            weight: 1,
            colour: 2,
        },
        Order {
            weight: 2,
            colour: 3,
        },
    ]?;
    Ranked::new(alloc, &Instance::new(vec![in alloc; 4]?, 0, orders, 2))
}

/// Five orders of one weight and five colours: any two of them fill a slab.
pub fn five_orders(alloc: Global) -> Result<Ranked, OutOfMemory> {
    let orders = vec![in alloc;
        Order {
            weight: 2,
            colour: 1,
        },
        Order {
            weight: 2,
            colour: 2,
        },
        Order {
            weight: 2,
            colour: 3,
        },
        Order {
            weight: 2,
            colour: 4,
        },
        Order {
            weight: 2,
            colour: 5,
        },
    ]?;
    Ranked::new(alloc, &Instance::new(vec![in alloc; 4]?, 0, orders, 2))
}

/// What the loads from 0 to 4 are charged: 4 less the load, but for no load.
pub fn charges_to_four(alloc: Global) -> Result<Charges, OutOfMemory>
    ensures { IfOk result (λ charges. length charges.list ≡ 5) }
{
    Ok(Charges::from_list(vec![in alloc; 0, 3, 2, 1, 0]?))
}

/// Whether no order is heavier than the largest size.
pub fn all_fit(ranked: &Ranked) -> bool
    ensures { IsTrue result →
        All (λ order. order.weight ≤ ranked.now.mill.largest) (orders_of ranked.now) }
{
    for rank in 0..ranked.len() {
        if ranked.order(rank).weight > ranked.largest() {
            return false;
        }
    }
    true
}
