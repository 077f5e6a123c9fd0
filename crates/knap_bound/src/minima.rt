// The least slacks at a rank, each from a knapsack of its own.

ghost use Rattle.std.specs.Prelude.{◌≡◌, ◌+◌, ◌-◌, ◌<◌, ◌≤◌, List, Some, length, map, IfOk};
ghost use Rattle.std.specs.Prelude.{IfSome};
ghost use Rattle.mill_model.specs.Charges.{Reaches, charge_of};
ghost use Rattle.mill_model.specs.declared.order.Order.{Order};
ghost use Rattle.slab_rules.specs.OpenSlab.{Carries};
ghost use Rattle.knap_bound.specs.Later.{later_from, least_new_holding, least_on_holding};
ghost use Rattle.knap_bound.specs.Later.{place_from};

use crate::knapsack::Knapsack;
use mill_model::{Charges, OutOfMemory, Prices};
use order_symmetry::Ranked;
use slab_rules::OpenSlab;
use std::alloc::Global;

/// The least slack of a new slab over the sets of orders of rank `from` or later that aren't empty
/// and hold the forced one, if there is one. `prices` has one for each rank from `from` on. None
/// where there is no such set.
pub fn least_new(
    alloc: Global,
    ranked: &Ranked,
    charges: &Charges,
    from: u16,
    prices: &Prices,
    forced: Option<u16>,
) -> Result<Option<i64>, OutOfMemory>
    requires rank { from ≤ length ranked.now.placed }
    requires reach { Reaches charges.now ranked.now.mill }
    requires one_each { from + length prices.now ≡ length ranked.now.placed }
    requires forced { IfSome forced (λ rank. (from ≤ rank) × (rank < length ranked.now.placed)) }
    ensures { IfOk result (λ least. least ≡ least_new_holding
        (later_from ranked.now charges.now from) (charge_of charges.now) prices.now
        (place_from from forced)) }
{
    let mut knapsack = Knapsack::new(alloc, ranked, charges, from)?;
    let prices = prices.list();
    Ok(match forced {
        None => knapsack.least_new(prices),
        Some(rank) => knapsack.least_new_with(prices, (rank - from) as usize),
    })
}

/// The least slack of the orders on a slab over the sets of orders of rank `from` or later that may
/// join it and hold the forced one. Where none is forced, the empty set counts too. `prices` has
/// one for each rank from `from` on. None where the forced order can't join.
pub fn least_on(
    alloc: Global,
    ranked: &Ranked,
    charges: &Charges,
    slab: &OpenSlab,
    from: u16,
    prices: &Prices,
    forced: Option<u16>,
) -> Result<Option<i64>, OutOfMemory>
    requires rank { from ≤ length ranked.now.placed }
    requires reach { Reaches charges.now ranked.now.mill }
    requires one_each { from + length prices.now ≡ length ranked.now.placed }
    requires mill { slab.now.mill ≡ ranked.now.mill }
    requires forced { IfSome forced (λ rank. (from ≤ rank) × (rank < length ranked.now.placed)) }
    ensures { (group : List Order) → Carries slab.now group → IfOk result (λ least. least
        ≡ least_on_holding (later_from ranked.now charges.now from) (charge_of charges.now) group
        prices.now (place_from from forced)) }
{
    let mut knapsack = Knapsack::new(alloc, ranked, charges, from)?;
    let prices = prices.list();
    Ok(match forced {
        None => Some(knapsack.least_on(slab, prices)),
        Some(rank) => knapsack.least_on_with(slab, prices, (rank - from) as usize),
    })
}
