//! What the seats of the meter know, the rule over them, and the steps that keep it.

use atomic_table::{Join, Play, Split, TableRule};
use std::collections::LinkedList;

// What a seat knows. No value of it is made.
pub struct MeterView {
    pub nodes: u64,
    pub shares: u64,
    pub spends: u64,
    pub tickets: LinkedList<u64>,
    pub mark: bool,
    pub heard: bool,
}

// What the rule is told once: the budget, and the shares of all seats.
#[derive(Drop)]
pub struct MeterKey {
    pub nodes: u64,
    pub shares: u64,
}

pub struct EachOnce;

impl TableRule<u8, MeterView, MeterKey> for EachOnce {
    ghost use Rattle.shared_words.specs.MeterRule.{first_view, Counted};

    ghost holds = { Counted };

    ghost first = { first_view };
}

pub struct Draws;

impl Play<u8, MeterView> for Draws {
    ghost use Rattle.shared_words.specs.MeterRule.{Drew};

    ghost then = { Drew };
}

pub struct Halts;

impl Play<u8, MeterView> for Halts {
    ghost use Rattle.shared_words.specs.MeterRule.{Halted};

    ghost then = { Halted };
}

pub struct Hears;

impl Play<u8, MeterView> for Hears {
    ghost use Rattle.shared_words.specs.MeterRule.{Heard};

    ghost then = { Heard };
}

pub struct OneShare;

impl Split<MeterView> for OneShare {
    ghost use Rattle.shared_words.specs.MeterRule.{kept_view, given_view};

    ghost left = { kept_view };

    ghost right = { given_view };
}

impl Join<MeterView> for OneShare {
    ghost use Rattle.shared_words.specs.MeterRule.{both_views, spent_view};

    ghost both = { both_views };

    ghost spent = { spent_view };
}
