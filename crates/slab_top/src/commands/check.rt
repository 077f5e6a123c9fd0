ghost use Rattle.std.specs.Prelude.{IfOk};
ghost use Rattle.job_words.specs.Words.{IsInRange};
ghost use Rattle.reply_text.specs.Outcome.{IsToTell};
ghost use Rattle.slab_top.specs.Check.{Checks};
ghost use Rattle.slab_top.specs.Reply.{IsReply};

use crate::front::read_with_answer;
use job_words::Job;
use judge_answer::check;
use reply_text::{Outcome, Stop};
use std::alloc::Global;

/// Judges an answer's plan and what it states that the plan loses, whoever made the answer.
pub fn serve(alloc: Global, job: Job, input: &[u8]) -> Result<Outcome, Stop>
    requires in_range { IsInRange job }
    ensures reply { IsReply (Checks job input.now) result }
    ensures told { IfOk result IsToTell }
{
    let (instance, answer) = read_with_answer(alloc, job, input)?;
    let judgement = check(alloc, &instance, &answer)?;
    Ok(Outcome::Judged(judgement))
}
