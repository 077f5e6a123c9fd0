//! What each worker of a round begins with.
ghost use Rattle.std.specs.Prelude.{◌≡◌, ◌≤◌, ◌<◌, ◌++◌, All, IfOk, OnOk, length, map};
ghost use Rattle.std.specs.List.{AllByRecursion};
ghost use Rattle.search_step.specs.Serving.{IsPathOf};
ghost use Rattle.steal_workers.specs.Deques.{thieves_in};
ghost use Rattle.steal_workers.specs.Rounds.{job_seats};

use crate::lending::Dealt;
use crate::seats::Seats;
use mill_model::{OutOfMemory, Path};
use running_worker::Job;
use std::alloc::Global;
use steal_deques::Own;

/// Puts paths into a deque.
pub(crate) fn give_paths(own: &mut Own, paths: Vec<Path>) -> Result<(), OutOfMemory>
    requires { AllByRecursion (IsPathOf own.old.ranked) paths.items }
    ensures { OnOk result (own.new
        ≡ record own.old { pushed = own.old.pushed ++ paths.items }) }
{
    for path in paths {
        own.push(path).map_err(|_| OutOfMemory)?;
    }
    Ok(())
}

/// A job for each worker, by number, with its deque, its thieves and its seats.
pub(crate) fn make_jobs(
    alloc: Global,
    dealt: Dealt,
    seats: Vec<Seats>,
) -> Result<Vec<Job>, OutOfMemory>
    requires few { length dealt.owns.items ≤ 64 }
    requires all_thieves { length (thieves_in dealt.all_thieves.items) ≡ length dealt.owns.items }
    requires seats { length seats.items ≡ length dealt.owns.items }
    ensures numbers { IfOk result (λ jobs. All (λ job. job.number < length dealt.owns.items)
        jobs.items) }
    ensures owns { IfOk result (λ jobs. map (λ job. job.own) jobs.items ≡ dealt.owns.items) }
    ensures all_thieves { IfOk result (λ jobs. map (λ job. job.thieves.items) jobs.items
        ≡ thieves_in dealt.all_thieves.items) }
    ensures seats { IfOk result (λ jobs. map job_seats jobs.items ≡ seats.items) }
{
    let Dealt { owns, all_thieves } = dealt;
    let mut jobs = Vec::with_capacity(alloc, owns.len())?;
    let mut all_thieves = all_thieves.into_iter();
    let mut seats = seats.into_iter();
    let mut number = 0;
    for own in owns {
        let Some(thieves) = all_thieves.next() else {
            unreachable!()
        };
        let Some(Seats { loss, ticket }) = seats.next() else {
            unreachable!()
        };
        jobs.push(Job {
            number,
            loss_seat: loss,
            ticket_seat: ticket,
            own,
            thieves,
        })?;
        number += 1;
    }
    Ok(jobs)
}
