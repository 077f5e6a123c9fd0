ghost use Rattle.std.specs.Prelude.{IfOk};
ghost use Rattle.job_words.specs.Words.{IsInRange};
ghost use Rattle.reply_text.specs.Outcome.{IsToTell};
ghost use Rattle.slab_top.specs.Reply.{IsReply};
ghost use Rattle.slab_top.specs.Replay.{Replays};

use crate::front::read_with_schedule;
use job_words::Job;
use reply_text::{Outcome, Stop};
use solve_answer::prove;
use std::alloc::Global;

/// Answers an instance as `prove` does, by workers that take turns as the schedule says.
pub fn serve(alloc: Global, job: Job, input: &[u8]) -> Result<Outcome, Stop>
    requires in_range { IsInRange job }
    ensures reply { IsReply (Replays job input.now) result }
    ensures told { IfOk result IsToTell }
{
    let (instance, schedule) = read_with_schedule(alloc, job, input)?;
    let solution = prove(alloc, &instance, job.limits, &schedule)?;
    Ok(Outcome::Solved(solution))
}
