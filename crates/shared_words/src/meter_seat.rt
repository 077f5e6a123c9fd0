use crate::meter_rule::MeterView;
use atomic_table::Seat;
use std::marker::Model;

/// What one worker knows of the meter: the numbers that it drew, whether it halted, and whether it
/// heard of a halt. It takes no bytes, and stands for some of the shares.
#[derive(Drop)]
pub struct MeterSeat {
    pub(crate) seat: Seat<u8, MeterView>,
}

impl Model for MeterSeat {
    ghost use Rattle.std.specs.Prelude.{◌≡◌, ◌<◌, []};
    ghost use Rattle.shared_words.specs.Meter.{TicketSeat};

    ghost Value = { TicketSeat };

    ghost view = { λ s. record {
      table = s.seat.table_id;
      nodes = s.seat.me.0.nodes;
      shares = s.seat.me.0.shares;
      spends = s.seat.me.0.spends;
      tickets = s.seat.me.0.tickets;
      mark = s.seat.me.0.mark;
      heard = s.seat.me.0.heard;
    } };

    ghost invariant = { λ s. (s.seat.me.1 ≡ []) × (0 < s.seat.me.0.shares) };
}
