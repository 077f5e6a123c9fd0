//! A replay, and the end of a run that was left.
ghost use Rattle.std.specs.Prelude.{◌≡◌, ◌<◌, ◌≤◌, ◌+◌, All, IfOk, length};
ghost use Rattle.std.specs.List.{AllByRecursion};
ghost use Rattle.mill_model.specs.Charges.{Reaches};
ghost use Rattle.mill_model.specs.declared.limits.TheConstants.{MAX_NODES};
ghost use Rattle.order_symmetry.specs.Ranked.{orders_of};
ghost use Rattle.search_step.specs.Honest.{IsKept};
ghost use Rattle.search_step.specs.Promise.{IsRun, IsThrifty, EachSplitsAnew, records_of};
ghost use Rattle.search_step.specs.Resumable.{GoesOnFrom, IsResumable};
ghost use Rattle.core_replay.specs.Replayed.{IsLeftBy};

use crate::going_on::resume;
use mill_model::{Charges, Limits, OutOfMemory, Path, Start};
use order_symmetry::Ranked;
use refute_log::Run;
use std::alloc::Global;

/// Closes paths from the empty one on. First the workers that the schedule names make a step each,
/// in its order. Then all workers make steps in turn, until each answers in one round that it
/// stopped.
pub fn replay(
    alloc: Global,
    ranked: &Ranked,
    charges: &Charges,
    start: Start,
    limits: Limits,
    schedule: &[u16],
) -> Result<Run, OutOfMemory>
    requires light { All (λ order. order.weight ≤ ranked.now.mill.largest) (orders_of ranked.now) }
    requires reach { Reaches charges.now ranked.now.mill }
    requires start { IsKept ranked.now charges.now start }
    requires some { 1 ≤ limits.workers }
    requires few { limits.workers ≤ 64 }
    requires nodes { limits.nodes ≤ MAX_NODES }
    requires numbers { AllByRecursion (λ number. number < limits.workers) schedule.now }
    ensures run { IfOk result (IsRun ranked.now charges.now start.loss limits.nodes) }
    ensures thrifty { IfOk result (IsThrifty ranked.now charges.now start.loss) }
    ensures anew { IfOk result (λ run. EachSplitsAnew ranked.now charges.now (records_of run)) }
    ensures core { IfOk result (IsLeftBy ranked.now charges.now limits.nodes limits.workers
        start.loss schedule.now) }
{
    let mut unclosed = Vec::with_capacity(alloc, 1)?;
    unclosed.push(Path::root(alloc))?;
    let first = Run {
        pieces: Vec::new(alloc),
        unclosed,
        plan: start.plan,
        loss: start.loss,
        drawn: 0,
    };
    resume(alloc, ranked, charges, first, limits, schedule)
}

/// Closes what a run left, with one further worker and the tickets that weren't drawn.
pub fn finish(
    alloc: Global,
    ranked: &Ranked,
    charges: &Charges,
    run: Run,
    limits: Limits,
) -> Result<Run, OutOfMemory>
    requires light { All (λ order. order.weight ≤ ranked.now.mill.largest) (orders_of ranked.now) }
    requires reach { Reaches charges.now ranked.now.mill }
    requires nodes { limits.nodes ≤ MAX_NODES }
    requires resumable { IsResumable ranked.now charges.now limits.nodes run }
    ensures run { IfOk result (IsRun ranked.now charges.now run.loss limits.nodes) }
    ensures goes_on { IfOk result (GoesOnFrom ranked.now charges.now run) }
    ensures one_more { IfOk result (λ after.
        length (records_of after) ≤ length (records_of run) + 1) }
{
    if run.unclosed.is_empty() || run.drawn > limits.nodes {
        return Ok(run);
    }
    let alone = Limits {
        workers: 1,
        ..limits
    };
    resume(alloc, ranked, charges, run, alone, &[])
}
