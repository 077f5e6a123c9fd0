//! The cheapest splits of up to five orders, beside a search through all their splits.
ghost use Rattle.std.specs.Prelude.{◌≡◌, ◌≤◌, true, length, IfOk};
ghost use Rattle.pair_split.specs.Splits.{grouped};

use mill_model::{Charges, Order, OutOfMemory};
use pair_split::Splitter;
use std::alloc::Global;
use std::test::Fail;

// What a slab of each load up to 5 is charged: the steel left over, or numbers in no order.
fn charges_of(alloc: Global, steel: bool) -> Result<Charges, OutOfMemory>
    ensures { IfOk result (λ charges. length charges.list ≡ 6) }
{
    if steel {
        return Ok(Charges::from_list(vec![in alloc; 0, 4, 3, 2, 1, 0]?));
    }
    Ok(Charges::from_list(vec![in alloc; 0, 3, 6, 2, 5, 1]?))
}

// Five orders of three colours, with weights up to 3.
fn orders_of(kinds: u32) -> [Order; 5]
    ensures { grouped result ≡ true }
{
    [
        Order {
            weight: 1 + kinds % 3,
            colour: 1,
        },
        Order {
            weight: 1 + kinds / 3 % 3,
            colour: 1,
        },
        Order {
            weight: 1 + kinds / 9 % 3,
            colour: 2,
        },
        Order {
            weight: 1 + kinds / 27 % 3,
            colour: 2,
        },
        Order {
            weight: 1 + kinds / 81 % 3,
            colour: 3,
        },
    ]
}

// What the slab of the orders with this mark loses, if they may lie on one.
fn part_loss(charges: &Charges, p: u8, orders: &[Order], marks: &[bool], mark: bool) -> Option<u64>
    requires { length charges.now.list ≡ 6 }
{
    let mut load = 0u32;
    let mut colours = 0u8;
    let mut last = 0;
    for (order, &at) in orders.iter().zip(marks) {
        if at == mark {
            load = load.saturating_add(order.weight);
            if order.colour != last {
                colours = colours.saturating_add(1);
            }
            last = order.colour;
        }
    }
    if load > 5 || colours > p {
        return None;
    }
    Some(charges.charge(load))
}

// What the split with these marks loses, if it is legal.
fn split_loss(charges: &Charges, p: u8, orders: &[Order], marks: &[bool]) -> Option<u64>
    requires { length charges.now.list ≡ 6 }
{
    let first = part_loss(charges, p, orders, marks, true)?;
    let second = part_loss(charges, p, orders, marks, false)?;
    Some(first.saturating_add(second))
}

// What the cheapest of all splits of up to five orders loses, if one is legal.
fn least_loss(charges: &Charges, p: u8, orders: &[Order]) -> Option<u64>
    requires { length charges.now.list ≡ 6 }
{
    let mut least: Option<u64> = None;
    for mask in 0u32..32 {
        let marks = [
            mask & 1 > 0,
            mask & 2 > 0,
            mask & 4 > 0,
            mask & 8 > 0,
            mask & 16 > 0,
        ];
        if let Some(loss) = split_loss(charges, p, orders, &marks) {
            least = Some(loss.min(least.unwrap_or(loss)));
        }
    }
    least
}

// Whether the split that is found loses as little as any, its marks are such a split, and no split
// is found that loses less.
fn is_least(alloc: Global, charges: &Charges, p: u8, orders: &[Order]) -> Result<bool, OutOfMemory>
    requires charges { length charges.now.list ≡ 6 }
    requires few { length orders.now ≤ 5 }
    requires colours { p ≤ 8 }
    requires together { grouped orders.now ≡ true }
{
    let mut splitter = Splitter::new(alloc, 5, p)?;
    let mut marks = vec![in alloc; false; orders.len()]?;
    let least = least_loss(charges, p, orders);
    let found = splitter.better_split(charges, orders, 1000, &mut marks);
    let Some(loss) = found else {
        return Ok(least.is_none());
    };
    let marked = split_loss(charges, p, orders, &marks);
    let better = splitter.better_split(charges, orders, loss, &mut marks);
    Ok(least == Some(loss) && marked == Some(loss) && better.is_none())
}

#[test]
fn splits_lose_least(rt: HostRuntime) -> Result<(), Fail> {
    let alloc = rt.alloc();
    for steel in [true, false] {
        let charges = charges_of(alloc, steel)?;
        for p in 1..4 {
            for kinds in 0..243 {
                let orders = orders_of(kinds);
                assert!(rt; is_least(alloc, &charges, p, &orders)?, "{kinds} on {p}");
                assert!(rt;
                    is_least(alloc, &charges, p, &orders[..4])?,
                    "{kinds} on {p}"
                );
            }
        }
    }
    Ok(())
}
