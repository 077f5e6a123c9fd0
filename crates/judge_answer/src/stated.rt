//! An answer is judged without its log: by its plan and stated loss, or by the order that it names.
ghost use Rattle.std.specs.Prelude.{◌≡◌, length, true, IfOk};
ghost use Rattle.mill_model.specs.Plan.{numbers_each};
ghost use Rattle.answer_text.specs.Text.{Fits};
ghost use Rattle.loss_table.specs.Charges.{AreCharges};
ghost use Rattle.judge_answer.specs.Check.{IsSaidOf, IsSaidOfOrder, IsSaidOfPlan};

use answer_text::Answer;
use instance_facts::first_heavy;
use loss_table::loss_charges;
use mill_model::{Charges, Instance, OutOfMemory, Plan};
use plan_check::{Verdict, judge};
use reply_text::Judgement;
use std::alloc::Global;

/// What is said of an answer to an instance, without its log.
pub fn check(alloc: Global, instance: &Instance, answer: &Answer) -> Result<Judgement, OutOfMemory>
    requires { Fits (length instance.now.orders) answer.now }
    ensures { IfOk result (IsSaidOf instance.now answer.now) }
{
    match answer {
        Answer::Optimal { loss, plan, .. } | Answer::Feasible { loss, plan, .. } => {
            let charges = loss_charges(alloc, instance)?;
            check_plan(alloc, instance, &charges, *loss, plan)
        }
        Answer::Infeasible { order } => Ok(check_order(instance, *order)),
    }
}

/// What is said of a plan that is stated to lose so much.
pub fn check_plan(
    alloc: Global,
    instance: &Instance,
    charges: &Charges,
    stated: u64,
    plan: &Plan,
) -> Result<Judgement, OutOfMemory>
    requires charges { AreCharges instance.now charges.now }
    requires numbers { numbers_each plan.now instance.now.orders ≡ true }
    ensures { IfOk result (IsSaidOfPlan instance.now stated plan.now) }
{
    let judgement = match judge(alloc, instance, charges, plan)? {
        Verdict::Legal { loss } if loss == stated => Judgement::Legal { loss },
        Verdict::Legal { loss } => Judgement::LossDiffers {
            stated,
            found: loss,
        },
        Verdict::Heavy { slab, load } => Judgement::Heavy { slab, load },
        Verdict::Colourful { slab, colours } => Judgement::Colourful { slab, colours },
    };
    Ok(judgement)
}

/// What is said of an order that is stated to be the first that no slab holds.
pub fn check_order(instance: &Instance, stated: u16) -> Judgement
    ensures { IsSaidOfOrder instance.now stated result }
{
    match first_heavy(instance) {
        Some(order) if order == stated => Judgement::Confirmed { order },
        found => Judgement::OrderDiffers { stated, found },
    }
}
