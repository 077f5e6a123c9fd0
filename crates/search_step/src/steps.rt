//! One step of a worker, by its phase.
ghost use Rattle.std.specs.Prelude.{◌≡◌, ◌≢◌, ◌≤◌, ◌<◌, true, ℕ};
ghost use Rattle.mill_model.specs.Charges.{ChargeTable};
ghost use Rattle.order_symmetry.specs.Ranked.{RankedOrders};
ghost use Rattle.search_step.specs.Serving.{Serves};
ghost use Rattle.search_step.specs.Accounts.{Keeps};
ghost use Rattle.search_step.specs.Honest.{KeepsHonest};
ghost use Rattle.search_step.specs.Steps.{FitsMill, IsSafe, MayStep, Steps};

use crate::hand::Hand;
use crate::parts::{Phase, Turn};
use crate::setting::Setting;
use crate::work::Work;
use mill_model::{Draw, Standing};

impl Work {
    /// One step: at most one call on the hand.
    pub(crate) fn step<H: Hand>(&mut self, setting: &Setting, hand: &mut H) -> Turn
        requires among { setting.now.number < setting.now.workers }
        requires few { setting.now.workers ≤ 64 }
        requires fits { FitsMill setting.now.ranked.now setting.now.charges.now }
        requires serves { Serves (H.serves hand.old) setting.now.ranked.now setting.now.workers
            setting.now.number }
        requires may { MayStep self.old.phase (H.may_draw hand.old) }
        requires safe { IsSafe setting.now.ranked.now setting.now.charges.now setting.now.workers
            setting.now.number self.old }
        ensures step { Steps H.did setting.now.ranked.now setting.now.charges.now
            setting.now.workers setting.now.number self.old hand.old result self.new hand.new }
        ensures serves { Serves (H.serves hand.new) setting.now.ranked.now setting.now.workers
            setting.now.number }
        ensures may { MayStep self.new.phase (H.may_draw hand.new) }
        ensures keeps { Keeps H.did setting.now.ranked.now setting.now.charges.now
            setting.now.workers setting.now.number self.old hand.old result self.new hand.new }
        ensures honest { KeepsHonest setting.now.ranked.now setting.now.charges.now self.old
            self.new }
    {
        self.step_once(setting, hand)
    }

    fn step_once<H: Hand>(&mut self, setting: &Setting, hand: &mut H) -> Turn
        requires among { setting.now.number < setting.now.workers }
        requires few { setting.now.workers ≤ 64 }
        requires fits { FitsMill setting.now.ranked.now setting.now.charges.now }
        requires serves { Serves (H.serves hand.old) setting.now.ranked.now setting.now.workers
            setting.now.number }
        requires may { MayStep self.old.phase (H.may_draw hand.old) }
        requires safe { IsSafe setting.now.ranked.now setting.now.charges.now setting.now.workers
            setting.now.number self.old }
        ensures step { Steps H.did setting.now.ranked.now setting.now.charges.now
            setting.now.workers setting.now.number self.old hand.old result self.new hand.new }
        ensures serves { Serves (H.serves hand.new) setting.now.ranked.now setting.now.workers
            setting.now.number }
        ensures may { MayStep self.new.phase (H.may_draw hand.new) }
    {
        match self.phase() {
            Phase::Resting => self.rest(hand),
            Phase::Taking => self.take(setting, hand),
            Phase::Stealing => self.steal(setting, hand),
            Phase::Holding => self.draw(setting, hand),
            Phase::Halting => self.halt(hand),
            Phase::Ended => Turn::Stopped,
            Phase::Bounding => self.look(hand),
            Phase::Closing => self.close(setting),
            Phase::Publishing => self.publish(hand),
            Phase::Pushing => self.push(hand),
        }
    }

    fn rest<H: Hand>(&mut self, hand: &mut H) -> Turn
        requires phase { self.old.phase ≡ Phase.Resting }
        ensures step { (ranked : RankedOrders) (charges : ChargeTable) (workers number : ℕ) →
            Steps H.did ranked charges workers number self.old hand.old result self.new hand.new }
        ensures serves { H.serves hand.new ≡ H.serves hand.old }
        ensures may { H.may_draw hand.new ≡ H.may_draw hand.old }
    {
        match hand.standing() {
            Standing::Going => {
                self.go(Phase::Taking);
                Turn::Moved
            }
            Standing::Halted | Standing::Drained => Turn::Stopped,
        }
    }

    fn take<H: Hand>(&mut self, setting: &Setting, hand: &mut H) -> Turn
        requires phase { self.old.phase ≡ Phase.Taking }
        requires serves { Serves (H.serves hand.old) setting.now.ranked.now setting.now.workers
            setting.now.number }
        ensures step { Steps H.did setting.now.ranked.now setting.now.charges.now
            setting.now.workers setting.now.number self.old hand.old result self.new hand.new }
        ensures serves { H.serves hand.new ≡ H.serves hand.old }
        ensures may { H.may_draw hand.new ≡ H.may_draw hand.old }
    {
        match hand.take() {
            Some(path) => {
                self.hold(path);
                Turn::Moved
            }
            None => {
                self.go(if setting.workers > 1 {
                    Phase::Stealing
                } else {
                    Phase::Resting
                });
                Turn::Idle
            }
        }
    }

    fn steal<H: Hand>(&mut self, setting: &Setting, hand: &mut H) -> Turn
        requires among { setting.now.number < setting.now.workers }
        requires few { setting.now.workers ≤ 64 }
        requires phase { self.old.phase ≡ Phase.Stealing }
        requires serves { Serves (H.serves hand.old) setting.now.ranked.now setting.now.workers
            setting.now.number }
        requires within { self.old.victim < setting.now.workers }
        requires other { self.old.victim ≢ setting.now.number }
        ensures step { Steps H.did setting.now.ranked.now setting.now.charges.now
            setting.now.workers setting.now.number self.old hand.old result self.new hand.new }
        ensures serves { H.serves hand.new ≡ H.serves hand.old }
        ensures may { H.may_draw hand.new ≡ H.may_draw hand.old }
    {
        let path = hand.steal(self.victim());
        self.aim(setting.workers, setting.number);
        match path {
            Some(path) => {
                self.hold(path);
                Turn::Moved
            }
            None => {
                self.go(Phase::Resting);
                Turn::Idle
            }
        }
    }

    fn draw<H: Hand>(&mut self, setting: &Setting, hand: &mut H) -> Turn
        requires phase { self.old.phase ≡ Phase.Holding }
        requires may { H.may_draw hand.old ≡ true }
        ensures step { Steps H.did setting.now.ranked.now setting.now.charges.now
            setting.now.workers setting.now.number self.old hand.old result self.new hand.new }
        ensures serves { H.serves hand.new ≡ H.serves hand.old }
        ensures may { MayStep self.new.phase (H.may_draw hand.new) }
    {
        match hand.draw() {
            Draw::Ticket(_) => {
                self.go(Phase::Bounding);
                Turn::Drew
            }
            Draw::Spent(_) => {
                self.go(Phase::Halting);
                Turn::Moved
            }
        }
    }

    fn halt<H: Hand>(&mut self, hand: &mut H) -> Turn
        requires phase { self.old.phase ≡ Phase.Halting }
        ensures step { (ranked : RankedOrders) (charges : ChargeTable) (workers number : ℕ) →
            Steps H.did ranked charges workers number self.old hand.old result self.new hand.new }
        ensures serves { H.serves hand.new ≡ H.serves hand.old }
        ensures may { H.may_draw hand.new ≡ H.may_draw hand.old }
        ensures ended { self.new.phase ≡ Phase.Ended }
    {
        hand.stop();
        self.go(Phase::Ended);
        Turn::Stopped
    }

    fn look<H: Hand>(&mut self, hand: &mut H) -> Turn
        requires phase { self.old.phase ≡ Phase.Bounding }
        ensures step { (ranked : RankedOrders) (charges : ChargeTable) (workers number : ℕ) →
            Steps H.did ranked charges workers number self.old hand.old result self.new hand.new }
        ensures serves { H.serves hand.new ≡ H.serves hand.old }
        ensures may { H.may_draw hand.new ≡ H.may_draw hand.old }
    {
        let least = hand.look();
        self.learn(least);
        Turn::Moved
    }

    fn publish<H: Hand>(&mut self, hand: &mut H) -> Turn
        requires phase { self.old.phase ≡ Phase.Publishing }
        ensures step { (ranked : RankedOrders) (charges : ChargeTable) (workers number : ℕ) →
            Steps H.did ranked charges workers number self.old hand.old result self.new hand.new }
        ensures serves { H.serves hand.new ≡ H.serves hand.old }
        ensures may { H.may_draw hand.new ≡ H.may_draw hand.old }
    {
        // The loss before isn't needed: the worker looks anew before it closes its next path.
        let _before = hand.publish(self.known());
        self.go(Phase::Resting);
        Turn::Moved
    }
}
