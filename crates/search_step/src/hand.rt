//! The hand of a worker: its calls on the outside, and what each of them did.
ghost use Rattle.std.specs.Prelude.{◌≡◌, ◌≢◌, ◌<◌, ℕ, Bool, true, List, Option, Result, IfSome};
ghost use Rattle.std.specs.Prelude.{MatchResult};
ghost use Rattle.search_step.specs.declared.event.Event.{Event};
ghost use Rattle.search_step.specs.declared.event.Event.TheVariants.{Took, Stole, Drew, Looked};
ghost use Rattle.search_step.specs.declared.event.Event.TheVariants.{Published, Stopping, Stood};
ghost use Rattle.search_step.specs.Serving.{Serving, IsPathOf, push_event, draw_at, number_of};

use crate::event::Event;
use mill_model::{Draw, Path, Standing};

/// What a worker asks of the outside: paths, tickets, and the least loss that is known. `did` is a
/// relation between a hand, an event and a hand; no hand stores a history.
pub trait Hand {
    ghost serves: { Self → Serving };

    ghost may_draw: { Self → Bool };

    ghost did: { Self → Event → Self → Type 0 };

    /// A path of the worker's own, if there is one.
    fn take(&mut self) -> Option<Path>
        ensures did { did self.old (Took result) self.new }
        ensures tree { IfSome result (λ path. IsPathOf (serves self.old).ranked path) }
        ensures serves { serves self.new ≡ serves self.old }
        ensures may { may_draw self.new ≡ may_draw self.old };

    /// A path of another worker's.
    fn steal(&mut self, victim: u16) -> Option<Path>
        requires within { victim < (serves self.old).workers }
        requires other { victim ≢ (serves self.old).number }
        ensures did { did self.old (Stole victim result) self.new }
        ensures tree { IfSome result (λ path. IsPathOf (serves self.old).ranked path) }
        ensures serves { serves self.new ≡ serves self.old }
        ensures may { may_draw self.new ≡ may_draw self.old };

    /// Takes a path for later. It comes back for want of memory.
    fn push(&mut self, path: Path) -> Result<(), Path>
        requires tree { IsPathOf (serves self.old).ranked path }
        ensures did { did self.old (push_event path result) self.new }
        ensures same { MatchResult result (λ _. path ≡ path) (λ p. p ≡ path) }
        ensures serves { serves self.new ≡ serves self.old }
        ensures may { may_draw self.new ≡ may_draw self.old };

    /// A ticket, by which a path may be closed.
    fn draw(&mut self) -> Draw
        requires may { may_draw self.old ≡ true }
        ensures did { did self.old (Drew result) self.new }
        ensures value { result ≡ draw_at (serves self.old).budget (number_of result) }
        ensures serves { serves self.new ≡ serves self.old }
        ensures may { number_of result < (serves self.old).budget → may_draw self.new ≡ true };

    /// The least loss of all workers.
    fn look(&mut self) -> u64
        ensures did { did self.old (Looked result) self.new }
        ensures serves { serves self.new ≡ serves self.old }
        ensures may { may_draw self.new ≡ may_draw self.old };

    /// Tells all workers of a loss. It gives the least one before.
    fn publish(&mut self, loss: u64) -> u64
        ensures did { did self.old (Published loss result) self.new }
        ensures serves { serves self.new ≡ serves self.old }
        ensures may { may_draw self.new ≡ may_draw self.old };

    /// Calls a halt.
    fn stop(&mut self)
        ensures did { did self.old Stopping self.new }
        ensures serves { serves self.new ≡ serves self.old }
        ensures may { may_draw self.new ≡ may_draw self.old };

    /// Whether the search goes on. `Drained` is a hint.
    fn standing(&mut self) -> Standing
        ensures did { did self.old (Stood result) self.new }
        ensures serves { serves self.new ≡ serves self.old }
        ensures may { may_draw self.new ≡ may_draw self.old };
}
