//! A hand over two lists of paths, one of its worker's own and one of the others', which gives the
//! answers that a trial sets and keeps the call of a step.
ghost use Rattle.std.specs.Prelude.{◌≡◌, true};
ghost use Rattle.search_step.specs.Serving.{IsPathOf};

use mill_model::{Draw, Path, Standing};
use order_symmetry::Ranked;
use search_step::Hand;
use std::alloc::Global;
use std::marker::Model;

/// A call on a hand, with what was handed over.
#[derive(Clone, Copy, Debug, Drop, PartialEq, Eq)]
pub enum Call {
    Take,
    Steal(u16),
    Push,
    Draw,
    Look,
    Publish(u64),
    Stop,
    Standing,
    /// There was more than one call.
    Several,
}

/// What a hand answers where the lists leave it open.
#[derive(Clone, Copy, Debug, Drop)]
pub struct Answers {
    /// How it stands; with none, it goes on until its lists are empty.
    pub standing: Option<Standing>,
    /// The least loss that it knows.
    pub least: u64,
    /// Whether a push comes back.
    pub refuses: bool,
}

/// A hand that serves one worker of a trial.
#[derive(Drop)]
pub struct TrialHand<'a> {
    ranked: &'a Ranked,
    number: u16,
    workers: u16,
    budget: u64,
    own: Vec<Path>,
    others: Vec<Path>,
    answers: Answers,
    drawn: u64,
    call: Option<Call>,
}

impl<'a> Model for TrialHand<'a> {
    ghost use Rattle.std.specs.Prelude.{All};
    ghost use Rattle.search_step.specs.Serving.{IsPathOf, Serving};

    ghost Value = { Serving };

    ghost view = { λ h. record {
      ranked = h.ranked.now;
      number = h.number;
      workers = h.workers;
      budget = h.budget;
    } };

    ghost invariant = { λ h. All (IsPathOf h.ranked.now) h.own.items
        × All (IsPathOf h.ranked.now) h.others.items };
}

impl<'a> TrialHand<'a> {
    /// A hand without a path, which knows this loss and stands as its lists do.
    pub fn new(
        alloc: Global,
        ranked: &'a Ranked,
        number: u16,
        workers: u16,
        budget: u64,
        least: u64,
    ) -> TrialHand<'a>
        ensures ranked { result.ranked ≡ ranked.now }
        ensures number { result.number ≡ number }
        ensures workers { result.workers ≡ workers }
        ensures budget { result.budget ≡ budget }
    {
        TrialHand {
            ranked,
            number,
            workers,
            budget,
            own: Vec::new(alloc),
            others: Vec::new(alloc),
            answers: Answers {
                standing: None,
                least,
                refuses: false,
            },
            drawn: 0,
            call: None,
        }
    }

    /// Answers so from now on.
    pub fn answer(&mut self, answers: Answers)
        ensures { self.new ≡ self.old }
    {
        self.answers = answers;
    }

    /// A path that others have from now on, if there is memory.
    pub fn give(&mut self, path: Path)
        requires { IsPathOf self.old.ranked path }
        ensures { self.new ≡ self.old }
    {
        if self.others.reserve(1).is_ok() {
            self.others.push_reserved(path);
        }
    }

    /// A path that its worker has from now on, if there is memory.
    pub fn give_own(&mut self, path: Path)
        requires { IsPathOf self.old.ranked path }
        ensures { self.new ≡ self.old }
    {
        if self.own.reserve(1).is_ok() {
            self.own.push_reserved(path);
        }
    }

    /// Takes the worker's own paths away.
    pub fn clear(&mut self)
        ensures { self.new ≡ self.old }
    {
        self.own.clear();
    }

    /// The numbers of the worker's own last path.
    pub fn last(&self) -> Option<&[u16]> {
        match self.own.last() {
            Some(path) => Some(path.numbers()),
            None => None,
        }
    }

    /// How many tickets were drawn.
    pub fn drawn(&self) -> u64 {
        self.drawn
    }

    /// The call since this was asked.
    pub fn asked(&mut self) -> Option<Call>
        ensures { self.new ≡ self.old }
    {
        self.call.take()
    }

    fn note(&mut self, call: Call)
        ensures { self.new ≡ self.old }
    {
        self.call = match self.call {
            None => Some(call),
            Some(_) => Some(Call::Several),
        };
    }
}

impl<'a> Hand for TrialHand<'a> {
    ghost serves = { λ h. h };

    ghost may_draw = { λ h. true };

    ghost did = { λ before event after. Unit {0} };

    fn take(&mut self) -> Option<Path> {
        self.note(Call::Take);
        self.own.pop()
    }

    fn steal(&mut self, victim: u16) -> Option<Path> {
        self.note(Call::Steal(victim));
        self.others.pop()
    }

    fn push(&mut self, path: Path) -> Result<(), Path> {
        self.note(Call::Push);
        if self.answers.refuses || self.own.reserve(1).is_err() {
            return Err(path);
        }
        self.own.push_reserved(path);
        Ok(())
    }

    fn draw(&mut self) -> Draw {
        self.note(Call::Draw);
        let ticket = self.drawn;
        self.drawn = ticket.saturating_add(1);
        if ticket < self.budget {
            Draw::Ticket(ticket)
        } else {
            Draw::Spent(ticket)
        }
    }

    fn look(&mut self) -> u64 {
        self.note(Call::Look);
        self.answers.least
    }

    fn publish(&mut self, loss: u64) -> u64 {
        self.note(Call::Publish(loss));
        let before = self.answers.least;
        self.answers.least = before.min(loss);
        before
    }

    fn stop(&mut self) {
        self.note(Call::Stop);
        self.answers.standing = Some(Standing::Halted);
    }

    fn standing(&mut self) -> Standing {
        self.note(Call::Standing);
        match self.answers.standing {
            Some(standing) => standing,
            None if self.own.is_empty() && self.others.is_empty() => Standing::Drained,
            None => Standing::Going,
        }
    }
}
