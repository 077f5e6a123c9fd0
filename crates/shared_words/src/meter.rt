//! The tickets of a budget and the halt: the shared words, and what may be done with them.
ghost use Rattle.std.specs.Prelude.{◌≡◌, ◌≤◌, ◌<◌, ◌+◌, ◌-◌, ◌||◌, [], ◌∷◌, ◌++◌, true, false};
ghost use Rattle.std.specs.Prelude.{IfOk, IsTrue};
ghost use Rattle.shared_words.specs.Meter.{IsTicketSeatOf, AreNumbersBelow};
ghost use Rattle.shared_words.specs.Meter.{draw_at, number_of, spend_of};
ghost use Rattle.mill_model.specs.declared.limits.TheConstants.{MAX_NODES};

use crate::meter_rule::{Draws, EachOnce, Halts, Hears, MeterKey, MeterView, OneShare};
use crate::meter_seat::MeterSeat;
use atomic_table::Table;
use mill_model::{Draw, OutOfMemory};
use std::alloc::Global;
use std::marker::Model;

/// The tickets of a budget, each given once, and a halt that any worker may call. A ticket is the
/// leave to close one path.
///
/// No call waits or takes a lock, and none but `new` takes memory.
#[derive(Drop)]
pub struct Meter {
    table: Table<u8, MeterView, MeterKey, EachOnce, Global>,
    nodes: u64,
}

impl Model for Meter {
    ghost use Rattle.std.specs.Prelude.{◌≡◌};
    ghost use Rattle.shared_words.specs.Meter.{TicketMeter};

    ghost Value = { TicketMeter };

    ghost view = { λ m. record {
      table = m.table.shared.table_id;
      nodes = m.nodes;
      shares = m.table.shared.key.shares;
    } };

    ghost invariant = { λ m. (m.nodes ≡ m.table.shared.key.nodes)
        × (m.table.shared.table_id.words ≡ 2) × (m.table.shared.table_id.slots ≡ 0) };
}

impl Meter {
    /// A meter for this many tickets, and a seat that has all shares. Each share may draw once past
    /// the budget, and so learn that it is spent.
    pub fn new(alloc: Global, nodes: u64, shares: u16) -> Result<(Meter, MeterSeat), OutOfMemory>
        requires some { 0 < shares }
        requires limit { nodes ≤ MAX_NODES }
        ensures meter { IfOk result (λ made. (made.0.nodes ≡ nodes) × (made.0.shares ≡ shares)) }
        ensures of { IfOk result (λ made. IsTicketSeatOf made.0 made.1) }
        ensures seat { IfOk result (λ made. (made.1.shares ≡ shares) × (made.1.spends ≡ shares)
            × (made.1.tickets ≡ []) × (made.1.mark ≡ false) × (made.1.heard ≡ false)) }
    {
        let key = MeterKey {
            nodes,
            shares: u64::from(shares),
        };
        let (table, seat) = Table::of_words(alloc, &[0, 0], &key)?;
        Ok((Meter { table, nodes }, MeterSeat { seat }))
    }

    /// Hands over one share, with one draw past the budget, to a seat that has done nothing.
    #[tactic(auto, using(crate::proofs::MeterKeeps::splits))]
    pub fn split(&self, seat: &mut MeterSeat) -> MeterSeat
        requires own { IsTicketSeatOf self.now seat.old }
        requires two { 2 ≤ seat.old.shares }
        requires one { 1 ≤ seat.old.spends }
        ensures kept { seat.new ≡ record seat.old {
          shares = seat.old.shares - 1;
          spends = seat.old.spends - 1;
        } }
        ensures given { result ≡ record seat.old {
          shares = 1;
          spends = 1;
          tickets = [];
          mark = false;
          heard = false;
        } }
    {
        MeterSeat {
            seat: self.table.shared.split_seat::<OneShare>(&mut seat.seat),
        }
    }

    /// Takes in the shares of another seat, what it drew, and what it knows of a halt.
    #[tactic(auto, using(crate::proofs::MeterKeeps::joins))]
    pub fn join(&self, seat: &mut MeterSeat, other: MeterSeat)
        requires own { IsTicketSeatOf self.now seat.old }
        requires too { IsTicketSeatOf self.now other }
        ensures { seat.new ≡ record seat.old {
          shares = seat.old.shares + other.shares;
          spends = seat.old.spends + other.spends;
          tickets = seat.old.tickets ++ other.tickets;
          mark = seat.old.mark || other.mark;
          heard = seat.old.heard || other.heard;
        } }
    {
        self.table
            .shared
            .join_seat::<OneShare>(&mut seat.seat, other.seat);
    }

    /// The next ticket of the budget. Where none is left, `Spent` has the number drawn past it.
    pub fn draw(&self, seat: &mut MeterSeat) -> Draw
        requires own { IsTicketSeatOf self.now seat.old }
        requires one { 1 ≤ seat.old.spends }
        ensures answer { result ≡ draw_at self.now.nodes (number_of result) }
        ensures now { seat.new ≡ record seat.old {
          spends = seat.old.spends - spend_of result;
          tickets = seat.old.tickets ++ number_of result ∷ [];
        } }
    {
        let number = self.table.shared.fetch_add::<Draws>(&mut seat.seat, 0, 1);
        if number < self.nodes {
            Draw::Ticket(number)
        } else {
            Draw::Spent(number)
        }
    }

    /// Calls a halt, which every seat can hear from now on.
    pub fn halt(&self, seat: &mut MeterSeat)
        requires { IsTicketSeatOf self.now seat.old }
        ensures { seat.new ≡ record seat.old { mark = true } }
    {
        self.table.shared.store::<Halts>(&mut seat.seat, 1, 1);
    }

    /// Whether some seat called a halt, by all that this one can hear.
    pub fn halted(&self, seat: &mut MeterSeat) -> bool
        requires { IsTicketSeatOf self.now seat.old }
        ensures own { IsTrue seat.old.mark → IsTrue result }
        ensures again { IsTrue seat.old.heard → IsTrue result }
        ensures now { seat.new ≡ record seat.old { heard = seat.old.heard || result } }
    {
        self.table.shared.load::<Hears>(&mut seat.seat, 1) == 1
    }

    /// How many numbers were drawn, to a seat that knows what every seat drew.
    pub fn close(self, seat: MeterSeat) -> u64
        requires own { IsTicketSeatOf self seat }
        requires all { seat.shares ≡ self.shares }
        ensures each { AreNumbersBelow result seat.tickets }
        ensures halted { IsTrue seat.heard → IsTrue seat.mark }
    {
        let Meter { table, nodes: _ } = self;
        let MeterSeat { seat } = seat;
        let closed = table.close_with(seat);
        let word = closed.word(0);
        closed.free();
        word
    }
}
