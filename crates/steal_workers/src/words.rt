//! The words that the workers of a round share: how they are made, and how they end.
ghost use Rattle.std.specs.Prelude.{◌≡◌, ◌≤◌, ◌<◌, All, IfOk, length};
ghost use Rattle.mill_model.specs.declared.limits.TheConstants.{MAX_NODES};
ghost use Rattle.steal_workers.specs.Seats.{AreNew, AreSeatsOf};
ghost use Rattle.steal_workers.specs.Words.{IsClosed, IsOpened};

use crate::seats::{Seats, join_seats, split_seats};
use mill_model::OutOfMemory;
use running_worker::Round;
use shared_words::{Best, Meter};
use std::alloc::Global;
use std::sync::atomic::AtomicU64;

/// What the workers of a round share, and the seats of each of them.
#[derive(Drop)]
pub(crate) struct Opened {
    pub(crate) round: Round,
    pub(crate) seats: Vec<Seats>,
}

/// Words for so many workers that know a loss, may draw so many tickets, and have so many open
/// paths.
pub(crate) fn open_round(
    alloc: Global,
    workers: u16,
    loss: u64,
    nodes: u64,
    open_paths: u64,
) -> Result<Opened, OutOfMemory>
    requires some { 1 ≤ workers }
    requires limit { nodes ≤ MAX_NODES }
    ensures round { IfOk result (λ opened. IsOpened workers loss nodes opened.round) }
    ensures count { IfOk result (λ opened. length opened.seats.items ≡ workers) }
    ensures new { IfOk result (λ opened. All (AreNew opened.round.best opened.round.meter)
        opened.seats.items) }
{
    let (best, loss_seat) = Best::new(alloc, loss, workers)?;
    let (meter, ticket_seat) = Meter::new(alloc, nodes, workers)?;
    let whole = Seats {
        loss: loss_seat,
        ticket: ticket_seat,
    };
    let seats = split_seats(alloc, &best, &meter, whole, workers)?;
    let round = Round {
        best,
        meter,
        open_paths: AtomicU64::new(open_paths),
        workers,
        loss,
    };
    Ok(Opened { round, seats })
}

/// Ends the words of a round, and says how many numbers were drawn. The least loss is that of the
/// best plan, which the workers keep.
pub(crate) fn close_round(round: Round, seats: Vec<Seats>) -> u64
    requires some { 0 < length seats.items }
    requires each { All (AreSeatsOf round.best round.meter) seats.items }
    requires best { round.best.shares ≡ length seats.items }
    requires meter { round.meter.shares ≡ length seats.items }
    ensures { IsClosed round.best.start round.meter.nodes seats.items result }
{
    let Round { best, meter, .. } = round;
    let Seats { loss, ticket } = join_seats(&best, &meter, seats);
    let _least = best.close(loss);
    meter.close(ticket)
}
