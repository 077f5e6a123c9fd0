//! An answer is judged with its log: the plan first, then the stated loss, then the log.
ghost use Rattle.std.specs.Prelude.{◌≡◌, length, true, IfOk, IfSome, IfNone};
ghost use Rattle.mill_model.specs.Plan.{numbers_each};
ghost use Rattle.answer_text.specs.Text.{Fits};
ghost use Rattle.judge_answer.specs.Verify.{IsSaidOfProof, IsVerdictOn, ProvesNothing};

use crate::stated::{check_order, check_plan};
use answer_text::Answer;
use log_checker::{LogVerdict, check_log};
use loss_table::loss_charges;
use mill_model::{Instance, OutOfMemory, Plan};
use refute_log::Log;
use reply_text::Judgement;
use std::alloc::Global;

/// What is said of an answer and the log that it has, or none where it proves nothing.
pub fn verify(
    alloc: Global,
    instance: &Instance,
    answer: &Answer,
) -> Result<Option<Judgement>, OutOfMemory>
    requires { Fits (length instance.now.orders) answer.now }
    ensures some { IfOk result (λ said. IfSome said (IsVerdictOn instance.now answer.now)) }
    ensures none { IfOk result (λ said. IfNone said (ProvesNothing answer.now)) }
{
    match answer {
        Answer::Optimal {
            loss,
            plan,
            refutation: Some(log),
        } => Ok(Some(verify_proof(alloc, instance, *loss, plan, log)?)),
        Answer::Infeasible { order } => Ok(Some(check_order(instance, *order))),
        Answer::Optimal {
            refutation: None,
            ..
        }
        | Answer::Feasible { .. } => Ok(None),
    }
}

// What is said of a plan, its stated loss and a log, in this order.
fn verify_proof(
    alloc: Global,
    instance: &Instance,
    stated: u64,
    plan: &Plan,
    log: &Log,
) -> Result<Judgement, OutOfMemory>
    requires numbers { numbers_each plan.now instance.now.orders ≡ true }
    requires orders { log.now.orders ≡ length instance.now.orders }
    ensures { IfOk result (IsSaidOfProof instance.now stated plan.now log.now.entries) }
{
    let charges = loss_charges(alloc, instance)?;
    let judgement = check_plan(alloc, instance, &charges, stated, plan)?;
    let Judgement::Legal { .. } = judgement else {
        return Ok(judgement);
    };
    let judgement = match check_log(alloc, instance, &charges, stated, log)? {
        LogVerdict::Refutes => Judgement::Verified { loss: stated },
        LogVerdict::Missing { path } => Judgement::Missing { path },
        LogVerdict::Stray { path } => Judgement::Stray { path },
        LogVerdict::Unsound { path } => Judgement::Unsound { path },
    };
    Ok(judgement)
}
