//! What the owner of a deque and its thieves know, the rule over them, and the steps that keep it.

use crossbeam_deque::protocol::{Join, Outcome, Protocol, Split};
use crossbeam_deque::{Pass, Stealer, Worker};
use mill_model::Path;
use order_symmetry::Ranked;
use std::alloc::Global;
use std::collections::LinkedList;
use std::marker::{Brand, PhantomData};

// What an end knows. No value of it is made.
pub struct DequeView {
    pub opened: bool,
    pub owns: bool,
    pub ranked: Ranked,
    pub all: u64,
    pub shares: u64,
    pub pushed: LinkedList<Path>,
    pub popped: LinkedList<Path>,
    pub stolen: LinkedList<Path>,
}

// For which orders and with how many shares a deque is opened. Each call picks them.
pub trait Setting {
    ghost use Rattle.std.specs.Prelude.{ℕ};
    ghost use Rattle.order_symmetry.specs.Ranked.{RankedOrders};

    ghost ranked: { RankedOrders };

    ghost shares: { ℕ };
}

impl Setting for Brand {
    ghost use Rattle.steal_deques.specs.Views.{no_orders};

    ghost ranked = { no_orders };

    ghost shares = { 0 };
}

pub struct NothingLost;

impl Protocol<Path, DequeView> for NothingLost {
    ghost use Rattle.steal_deques.specs.Views.{unopened_view, spent_view};
    ghost use Rattle.steal_deques.specs.Rule.{Kept};

    ghost holds = { Kept };

    ghost first = { unopened_view };

    ghost guest = { spent_view };
}

pub struct Pushes;

impl Outcome<Path, DequeView> for Pushes {
    ghost use Rattle.std.specs.Prelude.{◌≡◌};
    ghost use Rattle.steal_deques.specs.Views.{view_after_push};

    ghost then = { λ old paths new. new ≡ view_after_push old paths };
}

pub struct Pops;

impl Outcome<Path, DequeView> for Pops {
    ghost use Rattle.std.specs.Prelude.{◌≡◌, ◌≤◌, All, length};
    ghost use Rattle.steal_deques.specs.Views.{view_after_pop};
    ghost use Rattle.steal_deques.specs.Rule.{IsInTree, ViewWasEmpty};

    ghost then = { λ old paths new. (new ≡ view_after_pop old paths)
        × All (IsInTree old.ranked) paths × (length new.popped ≤ length new.pushed) };

    ghost empty = { ViewWasEmpty };
}

pub struct Steals;

impl Outcome<Path, DequeView> for Steals {
    ghost use Rattle.std.specs.Prelude.{◌≡◌, All};
    ghost use Rattle.steal_deques.specs.Views.{view_after_steal};
    ghost use Rattle.steal_deques.specs.Rule.{IsInTree, ViewHadFew};

    ghost then = { λ old paths new. (new ≡ view_after_steal old paths)
        × All (IsInTree old.ranked) paths };

    ghost empty = { ViewHadFew };
}

// Opens a deque, with a spent pass that is thrown away.
pub struct Opens<J> {
    setting: PhantomData<J>,
}

impl<J: Setting> Split<DequeView> for Opens<J> {
    ghost use Rattle.std.specs.Prelude.{[]};
    ghost use Rattle.steal_deques.specs.Views.{owner_view, spent_view};

    ghost left = { λ _. owner_view J.ranked J.shares J.shares [] [] [] };

    ghost right = { λ _. spent_view };
}

// One share goes to a thief, or comes back with what the thief stole.
pub struct OneShare;

impl Split<DequeView> for OneShare {
    ghost use Rattle.steal_deques.specs.Views.{lender_view, lent_view};

    ghost left = { lender_view };

    ghost right = { lent_view };
}

impl Join<DequeView> for OneShare {
    ghost use Rattle.steal_deques.specs.Views.{both_views, spent_view};

    ghost both = { both_views };

    ghost spent = { spent_view };
}

pub type DequeWorker = Worker<Path, Global, DequeView, NothingLost>;

pub type DequeStealer = Stealer<Path, Global, DequeView, NothingLost>;

pub type DequePass = Pass<Path, DequeView>;
