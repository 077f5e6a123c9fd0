//! The seats with which eight threads publish losses, look for the least one and draw tickets.
ghost use Rattle.std.specs.Prelude.{◌≡◌, ◌≤◌, ◌+◌, All, IfOk, IsNone, vec_len};
ghost use Rattle.shared_words.specs.Best.{IsLossSeatOf};
ghost use Rattle.shared_words.specs.Meter.{IsTicketSeatOf};
ghost use Rattle.shared_trials.specs.Trials.{AreSeatsOf};

use mill_model::{Draw, OutOfMemory};
use shared_words::{Best, BestSeat, Meter, MeterSeat};
use std::alloc::Global;
use std::process::Abort;
use std::test::Fail;

/// How many threads there are.
pub const WORKERS: u16 = 8;

/// How often each of them goes round.
pub const ROUNDS: u64 = 100_000;

/// The loss to begin with.
pub const START: u64 = 9_000_000;

/// The number of tickets: five below the number of draws, so that at least one and at most five
/// workers find it spent.
pub const BUDGET: u64 = 799_995;

/// A worker's seats, and what it did with them: the least loss that it published, the tickets that
/// it drew, and the number past the budget, where it drew one.
#[derive(Drop)]
pub struct Seats {
    pub loss: BestSeat,
    pub ticket: MeterSeat,
    number: u64,
    least: u64,
    tickets: Vec<u64>,
    past: Option<u64>,
}

/// What all workers did.
#[derive(Drop)]
pub struct Joined {
    least: u64,
    tickets: Vec<u64>,
    past: Vec<u64>,
}

impl Joined {
    /// Whether the least loss is the least published, and the numbers drawn are those below their
    /// count.
    pub fn agree_with(self, rt: &impl Abort, least: u64, drawn: u64) -> Result<(), Fail> {
        let Joined {
            least: published,
            mut tickets,
            mut past,
        } = self;
        assert_eq!(rt; published, START - 799_999);
        assert_eq!(rt; least, published);
        assert!(rt; drawn > BUDGET);
        assert_eq!(rt; tickets.len() as u64, BUDGET);
        tickets.sort_unstable();
        past.sort_unstable();
        tickets.append(&mut past)?;
        assert_eq!(rt; tickets.len() as u64, drawn);
        for (place, &number) in tickets.iter().enumerate() {
            assert_eq!(rt; number, place as u64);
        }
        Ok(())
    }
}

// One publishing and one look. The answer is at most all that was published here.
fn publish(best: &Best, seat: &mut BestSeat, loss: u64) -> u64
    requires { IsLossSeatOf best.now seat.old }
    ensures own { IsLossSeatOf best.now seat.new }
    ensures shares { seat.new.shares ≡ seat.old.shares }
{
    let _ = best.publish(seat, loss);
    best.look(seat)
}

impl Seats {
    /// One round: publishes a loss that no other worker does, looks, and draws until the budget is
    /// spent.
    pub fn count(&mut self, best: &Best, meter: &Meter, round: u64)
        requires seats { AreSeatsOf best.now meter.now self.old.loss self.old.ticket }
        requires spend { IsNone self.old.past → 1 ≤ self.old.ticket.spends }
        ensures seats { AreSeatsOf best.now meter.now self.new.loss self.new.ticket }
        ensures spend { IsNone self.new.past → 1 ≤ self.new.ticket.spends }
    {
        let mine = START.wrapping_sub(round.wrapping_mul(8).wrapping_add(self.number));
        self.least = self.least.min(mine);
        if publish(best, &mut self.loss, mine) > self.least {
            self.least = 0;
        }
        if self.past.is_some() {
            return;
        }
        match meter.draw(&mut self.ticket) {
            Draw::Ticket(drawn) => {
                let _ = self.tickets.push(drawn);
            }
            Draw::Spent(drawn) => self.past = Some(drawn),
        }
    }
}

/// The seats of each worker, with one share.
pub fn all_seats(
    alloc: Global,
    best: &Best,
    meter: &Meter,
    loss: &mut BestSeat,
    ticket: &mut MeterSeat,
) -> Result<Vec<Seats>, OutOfMemory>
    requires loss { IsLossSeatOf best.now loss.old × (loss.old.shares ≡ 9) }
    requires ticket { IsTicketSeatOf meter.now ticket.old × (ticket.old.shares ≡ 9)
        × (ticket.old.spends ≡ 9) }
    ensures loss { IfOk result (λ _. IsLossSeatOf best.now loss.new × (loss.new.shares ≡ 1)) }
    ensures ticket { IfOk result (λ _. IsTicketSeatOf meter.now ticket.new
        × (ticket.new.shares ≡ 1)) }
    ensures len { IfOk result (λ all. vec_len all ≡ 8) }
    ensures each { IfOk result (λ all. All (λ seats. AreSeatsOf best.now meter.now seats.loss
        seats.ticket × (IsNone seats.past → 1 ≤ seats.ticket.spends)) all.items) }
{
    let mut all = Vec::new(alloc);
    for number in 0..WORKERS {
        let tickets = Vec::with_capacity(alloc, ROUNDS as usize)?;
        all.push(Seats {
            loss: best.split(loss),
            ticket: meter.split(ticket),
            number: u64::from(number),
            least: START,
            tickets,
            past: None,
        })?;
    }
    Ok(all)
}

/// Joins what all seats know, and puts together what they did.
pub fn join_all(
    alloc: Global,
    best: &Best,
    meter: &Meter,
    loss: &mut BestSeat,
    ticket: &mut MeterSeat,
    mut all: Vec<Seats>,
) -> Result<Joined, OutOfMemory>
    requires loss { IsLossSeatOf best.now loss.old }
    requires ticket { IsTicketSeatOf meter.now ticket.old }
    requires each { All (λ seats. AreSeatsOf best.now meter.now seats.loss seats.ticket)
        all.items }
    ensures loss { IfOk result (λ _. IsLossSeatOf best.now loss.new
        × (loss.new.shares ≡ loss.old.shares + vec_len all)) }
    ensures ticket { IfOk result (λ _. IsTicketSeatOf meter.now ticket.new
        × (ticket.new.shares ≡ ticket.old.shares + vec_len all)) }
{
    let mut least = START;
    let mut tickets = Vec::new(alloc);
    let mut past = Vec::new(alloc);
    while let Some(seats) = all.pop() {
        let Seats {
            loss: other,
            ticket: another,
            number: _,
            least: published,
            tickets: mut drawn,
            past: last,
        } = seats;
        best.join(loss, other);
        meter.join(ticket, another);
        least = least.min(published);
        tickets.append(&mut drawn)?;
        past.extend(last)?;
    }
    Ok(Joined {
        least,
        tickets,
        past,
    })
}
