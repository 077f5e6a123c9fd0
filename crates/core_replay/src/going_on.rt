ghost use Rattle.std.specs.Prelude.{◌≡◌, ◌+◌, IfOk, length};
ghost use Rattle.search_step.specs.Promise.{IsRun, records_of};
ghost use Rattle.search_step.specs.Resumable.{GoesOnFrom};
ghost use Rattle.core_replay.specs.Resumed.{CanResume, IsResumed};

use crate::crew::Crew;
use mill_model::{Charges, Limits, OutOfMemory, Start};
use order_symmetry::Ranked;
use refute_log::Run;
use std::alloc::Global;

// Goes on from what a run left, with further workers.
pub(crate) fn resume(
    alloc: Global,
    ranked: &Ranked,
    charges: &Charges,
    run: Run,
    limits: Limits,
    schedule: &[u16],
) -> Result<Run, OutOfMemory>
    requires { CanResume ranked.now charges.now limits.nodes limits.workers schedule.now run }
    ensures resumed { IfOk result (IsResumed ranked.now charges.now limits.nodes limits.workers
        schedule.now run) }
    ensures run { IfOk result (IsRun ranked.now charges.now run.loss limits.nodes) }
    ensures goes_on { IfOk result (GoesOnFrom ranked.now charges.now run) }
    ensures more { IfOk result (λ after.
        length (records_of after) ≡ length (records_of run) + limits.workers) }
{
    // The call brings into the proof that these are an instance's orders, in rank.
    let _orders = ranked.len();
    let mut crew = Crew::new(alloc, ranked, charges, &limits, run.loss, run.drawn)?;
    crew.give_all(run.unclosed)?;
    crew.follow(schedule)?;
    crew.run_out()?;
    let start = Start {
        plan: run.plan,
        loss: run.loss,
    };
    crew.leave(alloc, run.pieces, start)
}
