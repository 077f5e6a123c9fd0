//! The least loss that any worker knows: the shared word, and what may be done with it.
ghost use Rattle.std.specs.Prelude.{◌≡◌, ◌≤◌, ◌<◌, ◌+◌, ◌-◌, ◌⊎◌, [], ◌∷◌, ◌++◌, min};
ghost use Rattle.std.specs.Prelude.{All, Contains, IfOk};
ghost use Rattle.shared_words.specs.Best.{IsLossSeatOf};
ghost use Rattle.shared_words.specs.BestRule.{Told, view_after_publish};

use crate::best_rule::{BestKey, Looks, LossTable, LossTableSeat, OneShare, Publishes};
use crate::best_seat::BestSeat;
use atomic_table::Table;
use mill_model::OutOfMemory;
use std::alloc::Global;
use std::marker::Model;

/// The least loss that any worker knows, in one word that all share. Losses are in units of size,
/// as in a plan.
///
/// No call waits or takes a lock, and none but `new` takes memory.
#[derive(Drop)]
pub struct Best {
    table: LossTable,
}

impl Model for Best {
    ghost use Rattle.std.specs.Prelude.{◌≡◌};
    ghost use Rattle.shared_words.specs.Best.{LeastLoss};

    ghost Value = { LeastLoss };

    ghost view = { λ b. record {
      table = b.table.shared.table_id;
      start = b.table.shared.key.start;
      shares = b.table.shared.key.shares;
    } };

    ghost invariant = { λ b. (b.table.shared.table_id.words ≡ 1)
        × (b.table.shared.table_id.slots ≡ 0) };
}

impl Best {
    /// The loss to begin with, and a seat that has all shares.
    pub fn new(alloc: Global, start: u64, shares: u16) -> Result<(Best, BestSeat), OutOfMemory>
        requires { 0 < shares }
        ensures best { IfOk result (λ made. (made.0.start ≡ start) × (made.0.shares ≡ shares)) }
        ensures of { IfOk result (λ made. IsLossSeatOf made.0 made.1) }
        ensures seat { IfOk result (λ made. (made.1.shares ≡ shares) × (made.1.seen ≡ start)
            × (made.1.mine ≡ [])) }
    {
        let key = BestKey {
            start,
            shares: u64::from(shares),
        };
        let (table, seat) = Table::of_words(alloc, &[start], &key)?;
        Ok((Best { table }, BestSeat { seat }))
    }

    /// Hands over one share, to a seat that knows what this one saw and has published nothing.
    #[tactic(auto, using(crate::proofs::BestKeeps::splits))]
    pub fn split(&self, seat: &mut BestSeat) -> BestSeat
        requires own { IsLossSeatOf self.now seat.old }
        requires two { 2 ≤ seat.old.shares }
        ensures kept { seat.new ≡ record seat.old { shares = seat.old.shares - 1 } }
        ensures given { result ≡ record seat.old { shares = 1; mine = [] } }
    {
        BestSeat {
            seat: self.table.shared.split_seat::<OneShare>(&mut seat.seat),
        }
    }

    /// Takes in the shares of another seat, and what it knows.
    #[tactic(auto, using(crate::proofs::BestKeeps::joins))]
    pub fn join(&self, seat: &mut BestSeat, other: BestSeat)
        requires own { IsLossSeatOf self.now seat.old }
        requires too { IsLossSeatOf self.now other }
        ensures { seat.new ≡ record seat.old {
          shares = seat.old.shares + other.shares;
          seen = min seat.old.seen other.seen;
          mine = seat.old.mine ++ other.mine;
        } }
    {
        self.table
            .shared
            .join_seat::<OneShare>(&mut seat.seat, other.seat);
    }

    /// A loss that is at most the start and all that this seat saw or published. What other seats
    /// published may have lowered it further.
    pub fn look(&self, seat: &mut BestSeat) -> u64
        requires own { IsLossSeatOf self.now seat.old }
        ensures start { result ≤ self.now.start }
        ensures seen { result ≤ seat.old.seen }
        ensures mine { All (λ loss. result ≤ loss) seat.old.mine }
        ensures now { seat.new ≡ record seat.old { seen = result } }
    {
        self.table.shared.load::<Looks>(&mut seat.seat, 0)
    }

    /// Publishes the loss of a plan, and gives the least loss before it.
    pub fn publish(&self, seat: &mut BestSeat, loss: u64) -> u64
        requires own { IsLossSeatOf self.now seat.old }
        ensures start { result ≤ self.now.start }
        ensures seen { result ≤ seat.old.seen }
        ensures mine { All (λ other. result ≤ other) seat.old.mine }
        ensures now { seat.new ≡ record seat.old {
          seen = min loss result;
          mine = seat.old.mine ++ loss ∷ [];
        } }
    {
        lower(&self.table, &mut seat.seat, loss)
    }

    /// The least of all losses, to a seat that knows what every seat published.
    pub fn close(self, seat: BestSeat) -> u64
        requires own { IsLossSeatOf self seat }
        requires all { seat.shares ≡ self.shares }
        ensures from { (result ≡ self.start) ⊎ Contains seat.mine result }
        ensures start { result ≤ self.start }
        ensures seen { result ≤ seat.seen }
        ensures mine { All (λ loss. result ≤ loss) seat.mine }
    {
        let Best { table } = self;
        let BestSeat { seat } = seat;
        let closed = table.close_with(seat);
        let word = closed.word(0);
        closed.free();
        word
    }
}

// One step: the word becomes the lesser of itself and the loss.
fn lower(table: &LossTable, seat: &mut LossTableSeat, loss: u64) -> u64
    requires own { seat.old.table_id ≡ table.now.shared.table_id }
    requires words { table.now.shared.table_id.words ≡ 1 }
    requires some { 0 < seat.old.me.0.shares }
    ensures told { Told seat.old.me.0 result }
    ensures own { seat.new.table_id ≡ seat.old.table_id }
    ensures now { seat.new.me ≡ (view_after_publish seat.old.me.0 loss result, seat.old.me.1) }
{
    table.shared.fetch_min::<Publishes>(seat, 0, loss)
}
