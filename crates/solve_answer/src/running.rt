//! Answers of a search by workers that run beside each other. What is promised of them is what is
//! promised of workers that take turns, but for the core run, which no schedule names here.
ghost use Rattle.std.specs.Prelude.{◌≤◌, IfOk};
ghost use Rattle.answer_text.specs.Text.{Fits, most_orders};
ghost use Rattle.mill_model.specs.Heavy.{NoneHeavy};
ghost use Rattle.mill_model.specs.Instance.{largest};
ghost use Rattle.mill_model.specs.declared.limits.TheConstants.{MAX_NODES};
ghost use Rattle.solve_answer.specs.Course.{Running};
ghost use Rattle.solve_answer.specs.Search.{HasLogAsAsked, HasSearched};
ghost use Rattle.solve_answer.specs.Solved.{IsProved, IsSolved, IsTold, WhereOptimal};

use crate::answer::{answer_of, infeasible};
use crate::start::beginning_of;
use instance_facts::first_heavy;
use mill_model::{Instance, Limits, OutOfMemory};
use refute_log::Run;
use reply_text::Solution;
use std::alloc::Global;
use std::sync::Wait;
use std::thread::Threads;
use steal_workers::{Gate, run_workers};

/// As `solve`, by so many workers that run beside each other. A worker passes the gate with each
/// path that it is to close.
pub fn solve_running<R: Threads + Wait + Sync, G: Gate>(
    rt: &R,
    alloc: Global,
    instance: &Instance,
    limits: Limits,
    gate: &G,
) -> Result<Solution, OutOfMemory>
    requires some { 1 ≤ limits.workers }
    requires few { limits.workers ≤ 64 }
    requires nodes { limits.nodes ≤ MAX_NODES }
    ensures is { IfOk result (IsSolved limits Running instance.now) }
    ensures told { IfOk result (λ solution.
        Fits (most_orders solution.answer) solution.answer) }
{
    solution_of(rt, alloc, instance, limits, gate, false)
}

/// The same, with a best plan and a log that refutes each lesser loss.
pub fn prove_running<R: Threads + Wait + Sync, G: Gate>(
    rt: &R,
    alloc: Global,
    instance: &Instance,
    limits: Limits,
    gate: &G,
) -> Result<Solution, OutOfMemory>
    requires some { 1 ≤ limits.workers }
    requires few { limits.workers ≤ 64 }
    requires nodes { limits.nodes ≤ MAX_NODES }
    ensures is { IfOk result (IsProved limits Running instance.now) }
    ensures told { IfOk result (λ solution.
        Fits (most_orders solution.answer) solution.answer) }
{
    solution_of(rt, alloc, instance, limits, gate, true)
}

// The answer to an instance, with a log of a best plan where that is asked for.
fn solution_of<R: Threads + Wait + Sync, G: Gate>(
    rt: &R,
    alloc: Global,
    instance: &Instance,
    limits: Limits,
    gate: &G,
    with_log: bool,
) -> Result<Solution, OutOfMemory>
    requires some { 1 ≤ limits.workers }
    requires few { limits.workers ≤ 64 }
    requires nodes { limits.nodes ≤ MAX_NODES }
    ensures is { IfOk result (IsTold limits Running instance.now) }
    ensures log { IfOk result (λ solution. WhereOptimal
        (HasLogAsAsked with_log limits Running instance.now) solution.answer) }
    ensures told { IfOk result (λ solution.
        Fits (most_orders solution.answer) solution.answer) }
{
    if let Some(order) = first_heavy(instance) {
        return Ok(infeasible(order));
    }
    let run = searched(rt, alloc, instance, limits, gate)?;
    let solution = answer_of(alloc, instance, limits, run, with_log)?;
    Ok(solution)
}

// The run that searches an instance's tree.
fn searched<R: Threads + Wait + Sync, G: Gate>(
    rt: &R,
    alloc: Global,
    instance: &Instance,
    limits: Limits,
    gate: &G,
) -> Result<Run, OutOfMemory>
    requires light { NoneHeavy (largest instance.now.sizes) instance.now.orders }
    requires some { 1 ≤ limits.workers }
    requires few { limits.workers ≤ 64 }
    requires nodes { limits.nodes ≤ MAX_NODES }
    ensures { IfOk result (HasSearched limits Running instance.now) }
{
    let beginning = beginning_of(alloc, instance, limits.moves)?;
    let start = beginning.start;
    let run = run_workers(
        rt,
        alloc,
        &beginning.ranked,
        &beginning.charges,
        start,
        limits,
        gate,
    )?;
    Ok(run)
}
