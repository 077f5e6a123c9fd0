//! The walk from a plan: it goes over the orders by colour, as an instance of its own, and what it
//! finds is put back into the file's order.
ghost use Rattle.std.specs.Prelude.{◌≡◌, ◌<◌, ◌≤◌, ◌+◌, List, IfOk, length, true};
ghost use Rattle.mill_model.specs.Charges.{Reaches, charge_of};
ghost use Rattle.mill_model.specs.Instance.{mill_of};
ghost use Rattle.mill_model.specs.Plan.{IsPlanWithLoss};
ghost use Rattle.mill_model.specs.Rank.{rank};
ghost use Rattle.mill_model.specs.declared.order.Order.{Order};
ghost use Rattle.large_moves.specs.Coloured.{IsByColour, orders_of, plan_of};
ghost use Rattle.large_moves.specs.Moved.{IsNoWorse};

use crate::by_colour::{by_colour, orders_alone, put_back, read_plan};
use crate::coloured::Coloured;
use mill_model::{Charges, Instance, OutOfMemory, Plan, Start};
use order_symmetry::Ranked;
use plan_walk::better_plan;
use std::alloc::Global;

/// Walks from a plan through others, none of which loses more than the one before, and gives the
/// last one where it loses less than the start; else the start itself.
///
/// The walk takes so many steps, each of which lays a few slabs anew, by numbers that are the same
/// in each run. It ends before where nothing is lost.
pub fn walk(
    alloc: Global,
    ranked: &Ranked,
    charges: &Charges,
    start: Start,
    steps: u64,
) -> Result<Start, OutOfMemory>
    requires reach { Reaches charges.now ranked.now.mill }
    requires start { (orders : List Order) → ranked.now.placed ≡ rank orders →
        IsPlanWithLoss ranked.now.mill (charge_of charges.now) orders start.plan start.loss }
    ensures no_worse { IfOk result (λ walked. (orders : List Order) →
        ranked.now.placed ≡ rank orders →
        IsNoWorse ranked.now.mill (charge_of charges.now) orders start walked) }
    ensures kept { IfOk result (λ walked. walked.loss ≡ start.loss → walked ≡ start) }
{
    let coloured = by_colour(alloc, ranked)?;
    let instance = instance_of(alloc, ranked, &coloured)?;
    let plan = Plan::from_list(read_plan(alloc, &coloured, start.plan.slabs())?);
    let Some(found) = better_plan(alloc, &instance, charges, &plan, start.loss, steps)? else {
        return Ok(start);
    };
    let plan = put_back(alloc, &coloured, found.plan.slabs())?;
    Ok(Start {
        plan,
        loss: found.loss,
    })
}

// The orders by colour as an instance of its own, with the largest size alone.
fn instance_of(
    alloc: Global,
    ranked: &Ranked,
    coloured: &[Coloured],
) -> Result<Instance, OutOfMemory>
    requires { IsByColour ranked.now.placed coloured.now }
    ensures orders { IfOk result (λ instance. instance.orders ≡ orders_of coloured.now) }
    ensures mill { IfOk result (λ instance. mill_of instance ≡ ranked.now.mill) }
{
    let largest = ranked.largest();
    let sizes = vec![in alloc; largest]?;
    let orders = orders_alone(alloc, coloured)?;
    Ok(Instance::new(sizes, 0, orders, ranked.p()))
}
