//! Orders by colour, and plans of the file's orders as plans of theirs and back.
ghost use Rattle.std.specs.Prelude.{◌≡◌, IfOk, length};
ghost use Rattle.std.specs.List.Sorted.{IsPermutation, IsSortedBy};
ghost use Rattle.order_symmetry.specs.Ranked.{IsRanked};
ghost use Rattle.large_moves.specs.Coloured.{IsByColour, AreHomes, orders_of, plan_of, homes_of};
ghost use Rattle.large_moves.specs.Coloured.{has_lower_colour};

use crate::coloured::Coloured;
use mill_model::{Order, OutOfMemory, Plan};
use order_symmetry::Ranked;
use std::alloc::Global;

/// Sorts orders by colour.
fn sort_by_colour(coloured: &mut Vec<Coloured>)
    ensures permutation { IsPermutation coloured.old.items coloured.new.items }
    ensures sorted { IsSortedBy has_lower_colour coloured.new.items }
{
    coloured.sort_unstable_by_key(|c| c.order.colour);
}

/// The ranked orders with their places in the file, those of each colour together.
pub fn by_colour(alloc: Global, ranked: &Ranked) -> Result<Vec<Coloured>, OutOfMemory>
    ensures sorted { IfOk result (λ coloured. IsByColour ranked.now.placed coloured.items) }
    ensures kept { IsRanked ranked.now }
{
    let mut coloured = Vec::with_capacity(alloc, ranked.len() as usize)?;
    for rank in 0..ranked.len() {
        coloured.push(Coloured {
            order: ranked.order(rank),
            home: ranked.home(rank),
        })?;
    }
    sort_by_colour(&mut coloured);
    Ok(coloured)
}

/// The orders alone.
pub fn orders_alone(alloc: Global, coloured: &[Coloured]) -> Result<Vec<Order>, OutOfMemory>
    ensures { IfOk result (λ orders. orders.items ≡ orders_of coloured.now) }
{
    Ok(coloured.iter().map(|c| c.order).collect(alloc)?)
}

/// The slabs that a plan of the file's orders gives orders by colour.
pub fn read_plan(
    alloc: Global,
    coloured: &[Coloured],
    slabs: &[u16],
) -> Result<Vec<u16>, OutOfMemory>
    requires { AreHomes (homes_of coloured.now) (length slabs.now) }
    ensures { IfOk result (λ plan. plan.items ≡ plan_of coloured.now slabs.now) }
{
    let mut plan = Vec::with_capacity(alloc, coloured.len())?;
    for c in coloured {
        plan.push(slabs[c.home as usize])?;
    }
    Ok(plan)
}

/// The plan of the file's orders that gives orders by colour these slabs.
pub fn put_back(alloc: Global, coloured: &[Coloured], plan: &[u16]) -> Result<Plan, OutOfMemory>
    requires homes { AreHomes (homes_of coloured.now) (length coloured.now) }
    requires plan { length plan.now ≡ length coloured.now }
    ensures back { IfOk result (λ slabs. plan_of coloured.now slabs ≡ plan.now) }
    ensures count { IfOk result (λ slabs. length slabs ≡ length coloured.now) }
{
    let mut slabs = vec![in alloc; 0u16; coloured.len()]?;
    for (i, c) in coloured.iter().enumerate() {
        slabs[c.home as usize] = plan[i];
    }
    Ok(Plan::from_list(slabs))
}
