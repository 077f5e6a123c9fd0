//! What is answered where a search ended, or where none is needed.
ghost use Rattle.std.specs.Prelude.{◌≡◌, ◌≤◌, None, IfOk};
ghost use Rattle.answer_text.specs.Text.{Fits, most_orders};
ghost use Rattle.answer_text.specs.declared.answer.Answer.TheVariants.{Optimal, Infeasible};
ghost use Rattle.mill_model.specs.Heavy.{NoneHeavy};
ghost use Rattle.mill_model.specs.Instance.{IsInstance, largest};
ghost use Rattle.mill_model.specs.declared.limits.TheConstants.{MAX_NODES};
ghost use Rattle.solve_answer.specs.Course.{Course};
ghost use Rattle.solve_answer.specs.Search.{HasLogAsAsked, HasSearched};
ghost use Rattle.solve_answer.specs.Solved.{IsTold, WhereOptimal};

use answer_text::Answer;
use mill_model::{Instance, Limits, OutOfMemory, Plan};
use piece_merge::merge;
use refute_log::{Log, Run};
use reply_text::Solution;
use std::alloc::Global;

/// An order that no slab holds is answered.
pub fn infeasible(order: u16) -> Solution
    ensures { result ≡ record { answer = Infeasible order; run = None } }
{
    Solution {
        answer: Answer::Infeasible { order },
        run: None,
    }
}

/// The answer of a search, from the run that it left: a best plan where no path is left, with a log
/// where that is asked for, and else the plan that was found. It is right whichever course the
/// workers took.
pub fn answer_of(
    alloc: Global,
    instance: &Instance,
    limits: Limits,
    run: Run,
    with_log: bool,
) -> Result<Solution, OutOfMemory>
    requires instance { IsInstance instance.now }
    requires light { NoneHeavy (largest instance.now.sizes) instance.now.orders }
    requires nodes { limits.nodes ≤ MAX_NODES }
    requires searched { (course : Course) × HasSearched limits course instance.now run }
    ensures is { IfOk result (λ solution. (course : Course)
        → HasSearched limits course instance.now run
        → IsTold limits course instance.now solution) }
    ensures log { IfOk result (λ solution. (course : Course)
        → HasSearched limits course instance.now run
        → WhereOptimal (HasLogAsAsked with_log limits course instance.now) solution.answer) }
    ensures told { IfOk result (λ solution.
        Fits (most_orders solution.answer) solution.answer) }
{
    let loss = run.loss;
    let plan = run.plan.tidy(alloc)?;
    if !run.unclosed.is_empty() {
        let spent = limits.nodes;
        return Ok(Solution {
            answer: Answer::Feasible { loss, plan, spent },
            run: Some(run),
        });
    }
    if !with_log {
        return Ok(optimal(loss, plan, None));
    }
    let log = merge(alloc, instance.orders().len() as u16, run.pieces)?;
    Ok(optimal(loss, plan, Some(log)))
}

// A best plan is answered, with its log if there is one.
fn optimal(loss: u64, plan: Plan, refutation: Option<Log>) -> Solution
    ensures { result ≡ record { answer = Optimal loss plan refutation; run = None } }
{
    Solution {
        answer: Answer::Optimal {
            loss,
            plan,
            refutation,
        },
        run: None,
    }
}
