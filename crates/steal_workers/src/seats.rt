//! The seats of a round's workers at the words that all share. Each worker has one share.
ghost use Rattle.std.specs.Prelude.{◌≡◌, ◌≤◌, ◌<◌, ◌-◌, All, IfOk, length};
ghost use Rattle.shared_words.specs.Best.{IsLossSeatOf};
ghost use Rattle.shared_words.specs.Meter.{IsTicketSeatOf};
ghost use Rattle.steal_workers.specs.Seats.{AreJoined, AreNew, AreSeatsOf};
ghost use Rattle.steal_workers.specs.Seats.{both_seats, new_loss_seat, new_ticket_seat};

use mill_model::OutOfMemory;
use shared_words::{Best, BestSeat, Meter, MeterSeat};
use std::alloc::Global;

/// A seat at the least loss, and one at the tickets.
#[derive(Drop)]
pub(crate) struct Seats {
    pub(crate) loss: BestSeat,
    pub(crate) ticket: MeterSeat,
}

/// Seats for so many workers, from seats that have all shares.
pub(crate) fn split_seats(
    alloc: Global,
    best: &Best,
    meter: &Meter,
    mut whole: Seats,
    workers: u16,
) -> Result<Vec<Seats>, OutOfMemory>
    requires some { 1 ≤ workers }
    requires loss { whole.loss ≡ new_loss_seat best.now workers }
    requires ticket { whole.ticket ≡ new_ticket_seat meter.now workers }
    ensures count { IfOk result (λ seats. length seats.items ≡ workers) }
    ensures new { IfOk result (λ seats. All (AreNew best.now meter.now) seats.items) }
{
    let mut seats = Vec::with_capacity(alloc, usize::from(workers))?;
    for _ in 1..workers {
        seats.push(split_one(best, meter, &mut whole))?;
    }
    seats.push(whole)?;
    Ok(seats)
}

// Seats for one worker.
fn split_one(best: &Best, meter: &Meter, whole: &mut Seats) -> Seats
    requires shares { 2 ≤ whole.old.loss.shares }
    requires loss { whole.old.loss ≡ new_loss_seat best.now whole.old.loss.shares }
    requires ticket { whole.old.ticket ≡ new_ticket_seat meter.now whole.old.loss.shares }
    ensures new { AreNew best.now meter.now result }
    ensures loss { whole.new.loss ≡ new_loss_seat best.now (whole.old.loss.shares - 1) }
    ensures ticket { whole.new.ticket ≡ new_ticket_seat meter.now (whole.old.loss.shares - 1) }
{
    Seats {
        loss: best.split(&mut whole.loss),
        ticket: meter.split(&mut whole.ticket),
    }
}

/// Puts the seats of all workers together.
pub(crate) fn join_seats(best: &Best, meter: &Meter, mut seats: Vec<Seats>) -> Seats
    requires some { 0 < length seats.items }
    requires each { All (AreSeatsOf best.now meter.now) seats.items }
    ensures { AreJoined best.now meter.now seats.items result }
{
    let Some(mut whole) = seats.pop() else {
        unreachable!()
    };
    while let Some(other) = seats.pop() {
        join_one(best, meter, &mut whole, other);
    }
    whole
}

// Takes in the seats of one further worker.
fn join_one(best: &Best, meter: &Meter, whole: &mut Seats, other: Seats)
    requires loss { IsLossSeatOf best.now whole.old.loss }
    requires ticket { IsTicketSeatOf meter.now whole.old.ticket }
    requires other { AreSeatsOf best.now meter.now other }
    ensures { whole.new ≡ both_seats whole.old other }
{
    best.join(&mut whole.loss, other.loss);
    meter.join(&mut whole.ticket, other.ticket);
}
