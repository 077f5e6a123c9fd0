//! Rounds of running workers, until no path is left or no ticket.
ghost use Rattle.std.specs.Prelude.{◌≤◌, All, IfOk};
ghost use Rattle.mill_model.specs.Charges.{Reaches};
ghost use Rattle.mill_model.specs.declared.limits.TheConstants.{MAX_NODES};
ghost use Rattle.order_symmetry.specs.Ranked.{orders_of};
ghost use Rattle.search_step.specs.Honest.{IsKept};
ghost use Rattle.search_step.specs.Promise.{EachSplitsAnew, IsRun, IsThrifty, records_of};

use crate::round::run_round;
use mill_model::{Charges, Limits, OutOfMemory, Path, Start};
use order_symmetry::Ranked;
use refute_log::Run;
use running_worker::Gate;
use std::alloc::Global;
use std::sync::Wait;
use std::thread::Threads;

/// Closes paths from the empty one on, with workers that run beside one another. Each is in a
/// thread of its own, as far as threads can be made. They pass the gate once for each ticket.
///
/// In which order paths are closed, and by whom, is up to the threads. Where all workers stopped
/// with a path open and tickets left, a further round begins with new workers.
pub fn run_workers<R: Threads + Wait + Sync, G: Gate>(
    rt: &R,
    alloc: Global,
    ranked: &Ranked,
    charges: &Charges,
    start: Start,
    limits: Limits,
    gate: &G,
) -> Result<Run, OutOfMemory>
    requires light { All (λ order. order.weight ≤ ranked.now.mill.largest) (orders_of ranked.now) }
    requires reach { Reaches charges.now ranked.now.mill }
    requires start { IsKept ranked.now charges.now start }
    requires some { 1 ≤ limits.workers }
    requires few { limits.workers ≤ 64 }
    requires nodes { limits.nodes ≤ MAX_NODES }
    ensures run { IfOk result (IsRun ranked.now charges.now start.loss limits.nodes) }
    ensures thrifty { IfOk result (IsThrifty ranked.now charges.now start.loss) }
    ensures anew { IfOk result (λ run. EachSplitsAnew ranked.now charges.now (records_of run)) }
{
    let mut unclosed = Vec::with_capacity(alloc, 1)?;
    unclosed.push(Path::root(alloc))?;
    let mut run = Run {
        pieces: Vec::new(alloc),
        unclosed,
        plan: start.plan,
        loss: start.loss,
        drawn: 0,
    };
    for _ in rt.forever() {
        if run.unclosed.is_empty() || run.drawn > limits.nodes {
            break;
        }
        run = run_round(rt, alloc, ranked, charges, run, limits, gate)?;
    }
    Ok(run)
}
