//! What the commands read: a value for each kind of input.

ghost use Rattle.std.specs.Prelude.{◌≡◌, ◌≤◌, drop, length};
ghost use Rattle.job_words.specs.Words.{IsInRange};
ghost use Rattle.slab_top.specs.Input.{after_white, instance_alone, instance_with_answer};
ghost use Rattle.slab_top.specs.Input.{instance_with_schedule};
ghost use Rattle.slab_top.specs.Reply.{IsReading, IsReadingOf};

use answer_text::{Answer, parse_answer};
use instance_text::{first_not_blank, read_instance};
use job_words::Job;
use mill_model::Instance;
use reply_text::{Refusal, Stop};
use schedule_text::{ScheduleTextError, read_schedule};
use std::alloc::Global;

/// Reads the instance that is all of an input.
pub fn read_alone(alloc: Global, job: Job, input: &[u8]) -> Result<Instance, Stop>
    requires in_range { IsInRange job }
    ensures { IsReading (instance_alone job.p input.now) result }
{
    let (instance, end) = read_instance(alloc, input, job.p)?;
    match first_not_blank(input, end) {
        Some(at) => Err(Stop::Refused(Refusal::Rest { at })),
        None => Ok(instance),
    }
}

/// Reads an instance and the answer behind it.
pub fn read_with_answer(alloc: Global, job: Job, input: &[u8]) -> Result<(Instance, Answer), Stop>
    requires in_range { IsInRange job }
    ensures { IsReading (instance_with_answer job.p input.now) result }
{
    let (instance, end) = read_instance(alloc, input, job.p)?;
    let answer = parse_answer(alloc, &instance, text_behind(input, end))?;
    Ok((instance, answer))
}

/// Reads an instance and the schedule of a job's workers behind it.
pub fn read_with_schedule(
    alloc: Global,
    job: Job,
    input: &[u8],
) -> Result<(Instance, Vec<u16>), Stop>
    requires in_range { IsInRange job }
    ensures { IsReadingOf (λ read. (read.0, read.1.items))
        (instance_with_schedule job.p job.limits.workers input.now) result }
{
    let (instance, end) = read_instance(alloc, input, job.p)?;
    match read_schedule(alloc, job.limits.workers, text_behind(input, end)) {
        Ok(schedule) => Ok((instance, schedule)),
        Err(ScheduleTextError::BadToken { token }) => {
            Err(Stop::Refused(Refusal::Schedule { token }))
        }
        Err(ScheduleTextError::OutOfMemory) => Err(Stop::OutOfMemory),
    }
}

// What follows a place and the white space behind it.
fn text_behind(input: &[u8], end: usize) -> &[u8]
    requires { end ≤ length input.now }
    ensures { result.now ≡ after_white (drop end input.now) }
{
    match first_not_blank(input, end) {
        Some(at) => &input[at..],
        None => &[],
    }
}
