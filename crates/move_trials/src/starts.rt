//! Starts at given slabs.
ghost use Rattle.std.specs.Prelude.{◌≡◌, true, IfOk, IfSome};
ghost use Rattle.mill_model.specs.Charges.{Reaches, charge_of};
ghost use Rattle.mill_model.specs.Instance.{mill_of};
ghost use Rattle.mill_model.specs.Plan.{numbers_each, IsPlanWithLoss};

use mill_model::{Charges, Instance, OutOfMemory, Plan, Start};
use plan_check::{Verdict, judge};
use std::alloc::Global;

/// A start at these slabs, if they make a legal plan.
pub fn start_at(
    alloc: Global,
    instance: &Instance,
    charges: &Charges,
    slabs: Vec<u16>,
) -> Result<Option<Start>, OutOfMemory>
    requires each { numbers_each slabs.items instance.now.orders ≡ true }
    requires reach { Reaches charges.now (mill_of instance.now) }
    ensures { IfOk result (λ found. IfSome found (λ start. IsPlanWithLoss (mill_of instance.now)
        (charge_of charges.now) instance.now.orders start.plan start.loss)) }
{
    let plan = Plan::from_list(slabs);
    if let Verdict::Legal { loss } = judge(alloc, instance, charges, &plan)? {
        return Ok(Some(Start { plan, loss }));
    }
    Ok(None)
}
