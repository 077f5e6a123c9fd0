//! The commands, each in a file of its own with one shape of contract: from a job and an input to
//! what it answers.

ghost use Rattle.job_words.specs.Words.{IsInRange};
ghost use Rattle.std.specs.Prelude.{◌≡◌, true, IfOk};
ghost use Rattle.reply_text.specs.Outcome.{IsToTell};
ghost use Rattle.slab_top.specs.Reply.{IsReply};
ghost use Rattle.slab_top.specs.Served.{Serves};
ghost use Rattle.slab_top.specs.Threads.{NeedsThreads};

mod check;
mod drill;
mod prove;
mod replay;
mod solve;
mod verify;

use crate::searcher::Searcher;
use job_words::{Command, Job};
use reply_text::{Outcome, Stop};
use std::alloc::Global;

/// What a job answers to what it reads: an input within its limit, or nothing.
pub fn serve<V: Searcher>(
    searcher: &V,
    alloc: Global,
    job: Job,
    input: &[u8],
) -> Result<Outcome, Stop>
    requires in_range { IsInRange job }
    requires ready { V.ready searcher.now }
    requires threads { NeedsThreads job → V.has_threads ≡ true }
    ensures reply { IsReply (Serves job.command job input.now) result }
    ensures told { IfOk result IsToTell }
{
    match job.command {
        Command::Solve => solve::serve(searcher, alloc, job, input),
        Command::Prove => prove::serve(searcher, alloc, job, input),
        Command::Check => check::serve(alloc, job, input),
        Command::Verify => verify::serve(alloc, job, input),
        Command::Replay => replay::serve(alloc, job, input),
        Command::Drill => Ok(drill::serve(searcher, alloc, job)?),
    }
}
