//! The hand of a running worker. Each call is that of one of its own seats or ends.
ghost use Rattle.std.specs.Prelude.{◌≡◌, ◌≢◌};
ghost use Rattle.running_worker.specs.Jobs.{IsJobOf, hand_of};
ghost use Rattle.running_worker.specs.Running.{place_of};

use crate::job::{Job, JobEnd};
use crate::round::Round;
use mill_model::{Draw, Path, Standing};
use order_symmetry::Ranked;
use search_step::{Hand, WorkerEnd};
use shared_words::{BestSeat, MeterSeat};
use std::marker::Model;
use std::sync::atomic::Ordering;
use steal_deques::{Own, Thief};

/// The hand of a worker that runs beside others of a round.
#[derive(Drop)]
pub struct RunningHand<'a> {
    ranked: &'a Ranked,
    round: &'a Round,
    number: u16,
    loss_seat: BestSeat,
    ticket_seat: MeterSeat,
    own: Own,
    thieves: Vec<Thief>,
    // Whether a path was taken that the round still counts as open.
    owes: bool,
}

impl<'a> Model for RunningHand<'a> {
    ghost use Rattle.running_worker.specs.Running.{IsRunning, Running};

    ghost Value = { Running };

    ghost view = { λ h. record {
      ranked = h.ranked.now;
      number = h.number;
      workers = h.round.now.workers;
      best = h.round.now.best;
      meter = h.round.now.meter;
      loss_seat = h.loss_seat;
      ticket_seat = h.ticket_seat;
      own = h.own;
      thieves = h.thieves.items;
    } };

    ghost invariant = { λ h. IsRunning (record {
      ranked = h.ranked.now;
      number = h.number;
      workers = h.round.now.workers;
      best = h.round.now.best;
      meter = h.round.now.meter;
      loss_seat = h.loss_seat;
      ticket_seat = h.ticket_seat;
      own = h.own;
      thieves = h.thieves.items;
    }) };
}

impl<'a> RunningHand<'a> {
    /// The hand of a job of this round.
    pub fn new(ranked: &'a Ranked, round: &'a Round, job: Job) -> RunningHand<'a>
        requires { IsJobOf ranked.now round.now job }
        ensures { result ≡ hand_of ranked.now round.now job }
    {
        let Job {
            number,
            loss_seat,
            ticket_seat,
            own,
            thieves,
        } = job;
        RunningHand {
            ranked,
            round,
            number,
            loss_seat,
            ticket_seat,
            own,
            thieves,
            owes: false,
        }
    }

    /// Gives back its seats and ends, with what its worker leaves.
    pub fn end(self, left: WorkerEnd) -> JobEnd
        ensures number { result.number ≡ self.entry.number }
        ensures loss_seat { result.loss_seat ≡ self.entry.loss_seat }
        ensures ticket_seat { result.ticket_seat ≡ self.entry.ticket_seat }
        ensures own { result.own ≡ self.entry.own }
        ensures thieves { result.thieves.items ≡ self.entry.thieves }
        ensures left { result.left ≡ left }
    {
        JobEnd {
            number: self.number,
            loss_seat: self.loss_seat,
            ticket_seat: self.ticket_seat,
            own: self.own,
            thieves: self.thieves,
            left,
        }
    }

    // The number of the worker that it serves.
    pub(crate) fn number(&self) -> u16
        ensures { result ≡ self.now.number }
    {
        self.number
    }

    // The worker rests again: the path that it took last is open no more.
    fn settle(&mut self)
        ensures { self.new ≡ self.old }
    {
        if self.owes {
            self.round.open_paths.fetch_sub(1, Ordering::SeqCst);
            self.owes = false;
        }
    }
}

// Where the thief of a victim stands.
fn place_of(number: u16, victim: u16) -> usize
    requires { victim ≢ number }
    ensures { result ≡ place_of number victim }
{
    if victim < number {
        usize::from(victim)
    } else {
        usize::from(victim) - 1
    }
}

impl Hand for RunningHand<'_> {
    ghost use Rattle.running_worker.specs.Running.{running_serves, running_may, running_did};

    ghost serves = { running_serves };

    ghost may_draw = { running_may };

    ghost did = { running_did };

    fn take(&mut self) -> Option<Path> {
        let path = self.own.pop();
        self.owes |= path.is_some();
        path
    }

    fn steal(&mut self, victim: u16) -> Option<Path> {
        let place = place_of(self.number, victim);
        let path = self.thieves[place].steal();
        self.owes |= path.is_some();
        path
    }

    fn push(&mut self, path: Path) -> Result<(), Path> {
        self.round.open_paths.fetch_add(1, Ordering::SeqCst);
        let pushed = self.own.push(path);
        if pushed.is_err() {
            self.round.open_paths.fetch_sub(1, Ordering::SeqCst);
        }
        pushed
    }

    fn draw(&mut self) -> Draw {
        self.round.meter.draw(&mut self.ticket_seat)
    }

    fn look(&mut self) -> u64 {
        self.round.best.look(&mut self.loss_seat)
    }

    fn publish(&mut self, loss: u64) -> u64 {
        self.round.best.publish(&mut self.loss_seat, loss)
    }

    fn stop(&mut self) {
        self.round.meter.halt(&mut self.ticket_seat);
    }

    fn standing(&mut self) -> Standing {
        self.settle();
        if self.round.meter.halted(&mut self.ticket_seat) {
            Standing::Halted
        } else if self.round.open_paths.load(Ordering::SeqCst) == 0 {
            Standing::Drained
        } else {
            Standing::Going
        }
    }
}
