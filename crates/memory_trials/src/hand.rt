//! A hand over one list of paths, for one worker. Each push grows the list by one place at most, so
//! that each may want memory.
ghost use Rattle.std.specs.Prelude.{◌≡◌, true};

use mill_model::{Draw, Path, Standing};
use order_symmetry::Ranked;
use search_step::Hand;
use std::alloc::Global;
use std::marker::Model;

/// A hand with a thousand tickets.
#[derive(Drop)]
pub struct ListHand<'a> {
    ranked: &'a Ranked,
    paths: Vec<Path>,
    least: u64,
    drawn: u64,
}

impl<'a> Model for ListHand<'a> {
    ghost use Rattle.std.specs.Prelude.{All};
    ghost use Rattle.search_step.specs.Serving.{IsPathOf, Serving};

    ghost Value = { Serving };

    ghost view = { λ h. record {
      ranked = h.ranked.now;
      number = 0;
      workers = 1;
      budget = 1000;
    } };

    ghost invariant = { λ h. All (IsPathOf h.ranked.now) h.paths.items };
}

impl<'a> ListHand<'a> {
    /// A hand without a path, which knows this loss.
    pub fn new(alloc: Global, ranked: &'a Ranked, least: u64) -> ListHand<'a>
        ensures { result ≡ record {
          ranked = ranked.now;
          number = 0;
          workers = 1;
          budget = 1000;
        } }
    {
        ListHand {
            ranked,
            paths: Vec::new(alloc),
            least,
            drawn: 0,
        }
    }

    /// The least loss that it was told of.
    pub fn least(&self) -> u64 {
        self.least
    }

    /// How many tickets were drawn.
    pub fn drawn(&self) -> u64 {
        self.drawn
    }
}

impl<'a> Hand for ListHand<'a> {
    ghost serves = { λ h. h };

    ghost may_draw = { λ h. true };

    ghost did = { λ before event after. Unit {0} };

    fn take(&mut self) -> Option<Path> {
        self.paths.pop()
    }

    fn steal(&mut self, _victim: u16) -> Option<Path> {
        None
    }

    fn push(&mut self, path: Path) -> Result<(), Path> {
        if self.paths.reserve_exact(1).is_err() {
            return Err(path);
        }
        self.paths.push_reserved(path);
        Ok(())
    }

    fn draw(&mut self) -> Draw {
        let ticket = self.drawn;
        self.drawn = ticket.saturating_add(1);
        if ticket < 1000 {
            Draw::Ticket(ticket)
        } else {
            Draw::Spent(ticket)
        }
    }

    fn look(&mut self) -> u64 {
        self.least
    }

    fn publish(&mut self, loss: u64) -> u64 {
        let before = self.least;
        self.least = before.min(loss);
        before
    }

    fn stop(&mut self) {}

    fn standing(&mut self) -> Standing {
        if self.paths.is_empty() {
            Standing::Drained
        } else {
            Standing::Going
        }
    }
}
