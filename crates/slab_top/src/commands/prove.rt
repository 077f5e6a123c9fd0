ghost use Rattle.std.specs.Prelude.{◌≡◌, ◌<◌, true, IfOk};
ghost use Rattle.job_words.specs.Words.{IsInRange};
ghost use Rattle.reply_text.specs.Outcome.{IsToTell};
ghost use Rattle.slab_top.specs.Reply.{IsReply};
ghost use Rattle.slab_top.specs.Prove.{Proves};

use crate::front::read_alone;
use crate::searcher::Searcher;
use job_words::Job;
use reply_text::{Outcome, Stop};
use std::alloc::Global;

/// Answers an instance as `solve` does, and shows by a log that a best plan is one.
pub fn serve<V: Searcher>(
    searcher: &V,
    alloc: Global,
    job: Job,
    input: &[u8],
) -> Result<Outcome, Stop>
    requires in_range { IsInRange job }
    requires ready { V.ready searcher.now }
    requires threads { 1 < job.limits.workers → V.has_threads ≡ true }
    ensures reply { IsReply (Proves job input.now) result }
    ensures told { IfOk result IsToTell }
{
    let instance = read_alone(alloc, job, input)?;
    let solution = searcher.prove(alloc, instance, job.limits)?;
    Ok(Outcome::Solved(solution))
}
