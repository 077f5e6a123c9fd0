//! The first-fit plan, and the better of the plans that first fit and best fit give.
ghost use Rattle.std.specs.Prelude.{◌≡◌, ◌≤◌, ◌+◌, All, List, IfOk, length, slice_index};
ghost use Rattle.mill_model.specs.Charges.{Reaches, charge_of};
ghost use Rattle.mill_model.specs.Plan.{IsLegalPlan, loss};
ghost use Rattle.mill_model.specs.Rank.{rank};
ghost use Rattle.mill_model.specs.Starts.{best_start_loss, first_fit_path};
ghost use Rattle.mill_model.specs.declared.order.Order.{Order};
ghost use Rattle.order_symmetry.specs.Ranked.{IsPlanOf, orders_of};
ghost use Rattle.greedy_start.specs.Start.{better_path};

use crate::open_path::OpenPath;
use mill_model::{Charges, OutOfMemory, Plan, Start};
use order_symmetry::Ranked;
use std::alloc::Global;

/// The first-fit plan: in rank, each order goes to the lowest slab that stays legal, or else to a
/// new one.
pub fn first_fit(alloc: Global, ranked: &Ranked) -> Result<Plan, OutOfMemory>
    requires { All (λ order. order.weight ≤ ranked.now.mill.largest) (orders_of ranked.now) }
    ensures is { IfOk result (λ plan. (orders : List Order) → ranked.now.placed ≡ rank orders →
        IsPlanOf orders (first_fit_path ranked.now.mill (orders_of ranked.now)) plan) }
    ensures legal { IfOk result (λ plan. (orders : List Order) →
        ranked.now.placed ≡ rank orders → IsLegalPlan ranked.now.mill orders plan) }
{
    OpenPath::first_fit(alloc, ranked)?.into_plan(alloc)
}

/// The first-fit plan with its loss where the best-fit plan doesn't lose less, else the best-fit
/// plan with its loss. Best fit puts each order in rank where it adds the least charge.
pub fn best_start(alloc: Global, ranked: &Ranked, charges: &Charges) -> Result<Start, OutOfMemory>
    requires light { All (λ order. order.weight ≤ ranked.now.mill.largest) (orders_of ranked.now) }
    requires reach { Reaches charges.now ranked.now.mill }
    ensures plan { IfOk result (λ start. (orders : List Order) → ranked.now.placed ≡ rank orders →
        IsPlanOf orders (better_path ranked.now.mill (charge_of charges.now)
        (orders_of ranked.now)) start.plan) }
    ensures legal { IfOk result (λ start. (orders : List Order) →
        ranked.now.placed ≡ rank orders → IsLegalPlan ranked.now.mill orders start.plan) }
    ensures loses { IfOk result (λ start. (orders : List Order) →
        ranked.now.placed ≡ rank orders →
        loss (charge_of charges.now) start.plan orders ≡ start.loss) }
    ensures least { IfOk result (λ start. start.loss ≡ best_start_loss ranked.now.mill
        (charge_of charges.now) (orders_of ranked.now)) }
{
    let first = OpenPath::first_fit(alloc, ranked)?;
    let first_loss = first.loss(charges);
    let best = OpenPath::best_fit(alloc, ranked, charges)?;
    let best_loss = best.loss(charges);
    if best_loss < first_loss {
        Ok(Start {
            plan: best.into_plan(alloc)?,
            loss: best_loss,
        })
    } else {
        Ok(Start {
            plan: first.into_plan(alloc)?,
            loss: first_loss,
        })
    }
}
