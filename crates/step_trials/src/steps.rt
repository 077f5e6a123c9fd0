//! Steps of a worker over the trial's hand, beside what the table of steps says of each.
ghost use Rattle.std.specs.Prelude.{◌≡◌, true};
ghost use Rattle.search_step.specs.Serving.{Serves};
ghost use Rattle.search_step.specs.Steps.{MayStep};

use crate::hand::{Call, TrialHand};
use search_step::{Phase, Turn, Worker};

/// A step: its call on the hand, its answer, and the phase behind it.
pub type Seen = (Option<Call>, Turn, Phase);

/// Does as many steps as are listed, up to the first that isn't as listed, which it gives with its
/// place.
pub fn unlike(worker: &mut Worker, hand: &mut TrialHand, listed: &[Seen]) -> Option<(usize, Seen)>
    requires serves { Serves hand.old worker.old.ranked worker.old.workers worker.old.number }
    requires may { MayStep worker.old.parts.phase true }
    ensures ranked { worker.new.ranked ≡ worker.old.ranked }
    ensures serves { Serves hand.new worker.new.ranked worker.new.workers worker.new.number }
    ensures may { MayStep worker.new.parts.phase true }
{
    for place in 0..listed.len() {
        let turn = worker.step(hand);
        let seen = (hand.asked(), turn, worker.phase());
        if seen != listed[place] {
            return Some((place, seen));
        }
    }
    None
}
