//! What the seats of the least loss know, the rule over them, and the steps that keep it.

use atomic_table::{Join, Play, Seat, Split, Table, TableRule};
use std::alloc::Global;
use std::collections::LinkedList;

// What a seat knows. No value of it is made.
pub struct BestView {
    pub start: u64,
    pub shares: u64,
    pub seen: u64,
    pub mine: LinkedList<u64>,
}

// What the rule is told once: the loss at the start, and the shares of all seats.
#[derive(Drop)]
pub struct BestKey {
    pub start: u64,
    pub shares: u64,
}

pub struct LeastOfAll;

impl TableRule<u8, BestView, BestKey> for LeastOfAll {
    ghost use Rattle.shared_words.specs.BestRule.{first_view, Least};

    ghost holds = { Least };

    ghost first = { first_view };
}

pub struct Looks;

impl Play<u8, BestView> for Looks {
    ghost use Rattle.shared_words.specs.BestRule.{Looked};

    ghost then = { Looked };
}

pub struct Publishes;

impl Play<u8, BestView> for Publishes {
    ghost use Rattle.shared_words.specs.BestRule.{Published};

    ghost then = { Published };
}

pub struct OneShare;

impl Split<BestView> for OneShare {
    ghost use Rattle.shared_words.specs.BestRule.{kept_view, given_view};

    ghost left = { kept_view };

    ghost right = { given_view };
}

impl Join<BestView> for OneShare {
    ghost use Rattle.shared_words.specs.BestRule.{both_views, spent_view};

    ghost both = { both_views };

    ghost spent = { spent_view };
}

pub type LossTable = Table<u8, BestView, BestKey, LeastOfAll, Global>;

pub type LossTableSeat = Seat<u8, BestView>;
