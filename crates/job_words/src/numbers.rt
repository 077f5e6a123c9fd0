//! The numbers that options give, one at most for each setting.
ghost use Rattle.std.specs.Prelude.{◌≡◌, cond, None, Some};
ghost use Rattle.job_words.specs.Options.{rule_of, same_setting};
ghost use Rattle.job_words.specs.Reading.{held_for};
ghost use Rattle.job_words.specs.Words.{or_default};

use crate::option::{Rule, Setting};

/// The numbers that options give, by what they set.
#[derive(Clone, Copy)]
pub struct Numbers {
    pub workers: Option<u64>,
    pub nodes: Option<u64>,
    pub colours: Option<u64>,
    pub moves: Option<u64>,
    pub seed: Option<u64>,
    pub orders: Option<u64>,
}

impl Numbers {
    /// No option gives any.
    pub fn none() -> Numbers
        ensures { (setting : Setting) → held_for setting result ≡ None }
    {
        Numbers {
            workers: None,
            nodes: None,
            colours: None,
            moves: None,
            seed: None,
            orders: None,
        }
    }

    /// The number of a setting, where one is given.
    pub fn of(&self, setting: Setting) -> Option<u64>
        ensures { result ≡ held_for setting self.now }
    {
        match setting {
            Setting::Workers => self.workers,
            Setting::Nodes => self.nodes,
            Setting::Colours => self.colours,
            Setting::Moves => self.moves,
            Setting::Seed => self.seed,
            Setting::Orders => self.orders,
        }
    }

    /// The number of a rule's setting, or the rule's own where none is given.
    pub fn by(&self, rule: Rule) -> u64
        requires { rule ≡ rule_of rule.setting }
        ensures { result ≡ or_default rule.setting (held_for rule.setting self.now) }
    {
        self.of(rule.setting).unwrap_or(rule.default)
    }

    /// Gives a setting its number.
    pub fn give(&mut self, setting: Setting, number: u64)
        ensures { (other : Setting) → held_for other self.new
            ≡ cond (same_setting other setting) (Some number) (held_for other self.old) }
    {
        match setting {
            Setting::Workers => self.workers = Some(number),
            Setting::Nodes => self.nodes = Some(number),
            Setting::Colours => self.colours = Some(number),
            Setting::Moves => self.moves = Some(number),
            Setting::Seed => self.seed = Some(number),
            Setting::Orders => self.orders = Some(number),
        }
    }
}
