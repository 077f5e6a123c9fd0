//! Answers of a search on one thread, by workers that take turns.
ghost use Rattle.std.specs.Prelude.{◌<◌, ◌≤◌, [], IfOk};
ghost use Rattle.std.specs.List.{AllByRecursion};
ghost use Rattle.answer_text.specs.Text.{Fits, most_orders};
ghost use Rattle.mill_model.specs.Heavy.{NoneHeavy};
ghost use Rattle.mill_model.specs.Instance.{largest};
ghost use Rattle.mill_model.specs.declared.limits.TheConstants.{MAX_NODES};
ghost use Rattle.solve_answer.specs.Course.{Scheduled};
ghost use Rattle.solve_answer.specs.Search.{HasLogAsAsked, HasSearched};
ghost use Rattle.solve_answer.specs.Solved.{IsProved, IsSolved, IsTold, WhereOptimal};

use crate::answer::{answer_of, infeasible};
use crate::start::beginning_of;
use core_replay::replay;
use instance_facts::first_heavy;
use mill_model::{Instance, Limits, OutOfMemory};
use refute_log::Run;
use reply_text::Solution;
use std::alloc::Global;

/// The answer to an instance: a best plan, or what was found until `limits.nodes` paths of the tree
/// were closed. The search starts from a plan that was made better by `limits.moves`.
pub fn solve(alloc: Global, instance: &Instance, limits: Limits) -> Result<Solution, OutOfMemory>
    requires some { 1 ≤ limits.workers }
    requires few { limits.workers ≤ 64 }
    requires nodes { limits.nodes ≤ MAX_NODES }
    ensures is { IfOk result (IsSolved limits (Scheduled []) instance.now) }
    ensures told { IfOk result (λ solution.
        Fits (most_orders solution.answer) solution.answer) }
{
    solution_of(alloc, instance, limits, &[], false)
}

/// The same with workers that take turns as a schedule says, and with a best plan a log that
/// refutes each lesser loss.
pub fn prove(
    alloc: Global,
    instance: &Instance,
    limits: Limits,
    schedule: &[u16],
) -> Result<Solution, OutOfMemory>
    requires some { 1 ≤ limits.workers }
    requires few { limits.workers ≤ 64 }
    requires nodes { limits.nodes ≤ MAX_NODES }
    requires numbers { AllByRecursion (λ number. number < limits.workers) schedule.now }
    ensures is { IfOk result (IsProved limits (Scheduled schedule.now) instance.now) }
    ensures told { IfOk result (λ solution.
        Fits (most_orders solution.answer) solution.answer) }
{
    solution_of(alloc, instance, limits, schedule, true)
}

// The answer to an instance, with a log of a best plan where that is asked for.
fn solution_of(
    alloc: Global,
    instance: &Instance,
    limits: Limits,
    schedule: &[u16],
    with_log: bool,
) -> Result<Solution, OutOfMemory>
    requires some { 1 ≤ limits.workers }
    requires few { limits.workers ≤ 64 }
    requires nodes { limits.nodes ≤ MAX_NODES }
    requires numbers { AllByRecursion (λ number. number < limits.workers) schedule.now }
    ensures is { IfOk result (IsTold limits (Scheduled schedule.now) instance.now) }
    ensures log { IfOk result (λ solution. WhereOptimal
        (HasLogAsAsked with_log limits (Scheduled schedule.now) instance.now) solution.answer) }
    ensures told { IfOk result (λ solution.
        Fits (most_orders solution.answer) solution.answer) }
{
    if let Some(order) = first_heavy(instance) {
        return Ok(infeasible(order));
    }
    let run = searched(alloc, instance, limits, schedule)?;
    let solution = answer_of(alloc, instance, limits, run, with_log)?;
    Ok(solution)
}

// The run that searches an instance's tree.
fn searched(
    alloc: Global,
    instance: &Instance,
    limits: Limits,
    schedule: &[u16],
) -> Result<Run, OutOfMemory>
    requires light { NoneHeavy (largest instance.now.sizes) instance.now.orders }
    requires some { 1 ≤ limits.workers }
    requires few { limits.workers ≤ 64 }
    requires nodes { limits.nodes ≤ MAX_NODES }
    requires numbers { AllByRecursion (λ number. number < limits.workers) schedule.now }
    ensures { IfOk result (HasSearched limits (Scheduled schedule.now) instance.now) }
{
    let beginning = beginning_of(alloc, instance, limits.moves)?;
    let start = beginning.start;
    let run = replay(
        alloc,
        &beginning.ranked,
        &beginning.charges,
        start,
        limits,
        schedule,
    )?;
    Ok(run)
}
