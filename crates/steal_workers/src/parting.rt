//! What the workers of a round give back, by what it is.
ghost use Rattle.std.specs.Prelude.{◌≡◌, IfOk, Ok, map};
ghost use Rattle.steal_workers.specs.Deques.{thieves_in};
ghost use Rattle.steal_workers.specs.Rounds.{end_seats};

use crate::seats::Seats;
use mill_model::OutOfMemory;
use running_worker::JobEnd;
use search_step::WorkerEnd;
use std::alloc::Global;
use steal_deques::{Own, Thief};

/// The ends of all workers' deques, their seats, and what they leave.
#[derive(Drop)]
pub(crate) struct Parted {
    pub(crate) owns: Vec<Own>,
    pub(crate) all_thieves: Vec<Vec<Thief>>,
    pub(crate) seats: Vec<Seats>,
    pub(crate) left: Vec<WorkerEnd>,
}

/// The ends of all jobs, where none wanted memory.
pub(crate) fn all_ends(
    alloc: Global,
    results: Vec<Result<JobEnd, OutOfMemory>>,
) -> Result<Vec<JobEnd>, OutOfMemory>
    ensures { IfOk result (λ ends. results.items ≡ map (λ end. Ok end) ends.items) }
{
    let mut ends = Vec::with_capacity(alloc, results.len())?;
    for ended in results {
        ends.push(ended?)?;
    }
    Ok(ends)
}

/// Takes the ends of jobs apart.
pub(crate) fn part(alloc: Global, ends: Vec<JobEnd>) -> Result<Parted, OutOfMemory>
    ensures owns { IfOk result (λ parted. parted.owns.items ≡ map (λ end. end.own) ends.items) }
    ensures all_thieves { IfOk result (λ parted. thieves_in parted.all_thieves.items
        ≡ map (λ end. end.thieves.items) ends.items) }
    ensures seats { IfOk result (λ parted. parted.seats.items ≡ map end_seats ends.items) }
    ensures left { IfOk result (λ parted. parted.left.items ≡ map (λ end. end.left) ends.items) }
{
    let mut owns = Vec::with_capacity(alloc, ends.len())?;
    let mut all_thieves = Vec::with_capacity(alloc, ends.len())?;
    let mut seats = Vec::with_capacity(alloc, ends.len())?;
    let mut left = Vec::with_capacity(alloc, ends.len())?;
    for end in ends {
        owns.push(end.own)?;
        all_thieves.push(end.thieves)?;
        seats.push(Seats {
            loss: end.loss_seat,
            ticket: end.ticket_seat,
        })?;
        left.push(end.left)?;
    }
    Ok(Parted {
        owns,
        all_thieves,
        seats,
        left,
    })
}
