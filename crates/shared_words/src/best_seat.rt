use crate::best_rule::LossTableSeat;
use std::marker::Model;

/// What one worker knows of the least loss: the least that it saw, and the losses that it
/// published. It takes no bytes, and stands for some of the shares.
#[derive(Drop)]
pub struct BestSeat {
    pub(crate) seat: LossTableSeat,
}

impl Model for BestSeat {
    ghost use Rattle.std.specs.Prelude.{◌≡◌, ◌<◌, ◌≤◌, []};
    ghost use Rattle.shared_words.specs.Best.{LossSeat};

    ghost Value = { LossSeat };

    ghost view = { λ s. record {
      table = s.seat.table_id;
      start = s.seat.me.0.start;
      shares = s.seat.me.0.shares;
      seen = s.seat.me.0.seen;
      mine = s.seat.me.0.mine;
    } };

    ghost invariant = { λ s. (s.seat.me.1 ≡ []) × (0 < s.seat.me.0.shares)
        × (s.seat.me.0.seen ≤ s.seat.me.0.start) };
}
