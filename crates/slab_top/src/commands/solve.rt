ghost use Rattle.std.specs.Prelude.{◌≡◌, ◌<◌, true, IfOk};
ghost use Rattle.job_words.specs.Words.{IsInRange};
ghost use Rattle.reply_text.specs.Outcome.{IsToTell};
ghost use Rattle.slab_top.specs.Reply.{IsReply};
ghost use Rattle.slab_top.specs.Solve.{Solves};

use crate::front::read_alone;
use crate::searcher::Searcher;
use job_words::Job;
use reply_text::{Outcome, Stop};
use std::alloc::Global;

/// Answers an instance: with a best plan, or where the budget is spent first with a legal one that
/// loses no more than a plan that the moves may leave.
pub fn serve<V: Searcher>(
    searcher: &V,
    alloc: Global,
    job: Job,
    input: &[u8],
) -> Result<Outcome, Stop>
    requires in_range { IsInRange job }
    requires ready { V.ready searcher.now }
    requires threads { 1 < job.limits.workers → V.has_threads ≡ true }
    ensures reply { IsReply (Solves job input.now) result }
    ensures told { IfOk result IsToTell }
{
    let instance = read_alone(alloc, job, input)?;
    let solution = searcher.solve(alloc, instance, job.limits)?;
    Ok(Outcome::Solved(solution))
}
