ghost use Rattle.std.specs.Prelude.{IfOk};
ghost use Rattle.job_words.specs.Words.{IsInRange};
ghost use Rattle.reply_text.specs.Outcome.{IsToTell};
ghost use Rattle.slab_top.specs.Reply.{IsReply};
ghost use Rattle.slab_top.specs.Verify.{Verifies};

use crate::front::read_with_answer;
use job_words::Job;
use judge_answer::verify;
use reply_text::{Outcome, Refusal, Stop};
use std::alloc::Global;

/// Judges an answer's plan, its loss and the log that is to show that no legal plan loses less.
pub fn serve(alloc: Global, job: Job, input: &[u8]) -> Result<Outcome, Stop>
    requires in_range { IsInRange job }
    ensures reply { IsReply (Verifies job input.now) result }
    ensures told { IfOk result IsToTell }
{
    let (instance, answer) = read_with_answer(alloc, job, input)?;
    match verify(alloc, &instance, &answer)? {
        Some(judgement) => Ok(Outcome::Judged(judgement)),
        None => Err(Stop::Refused(Refusal::AnswerKind)),
    }
}
