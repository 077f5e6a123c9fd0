//! The options: what each sets, which numbers it takes, and the commands that it may stand with.
ghost use Rattle.std.specs.Prelude.{◌≡◌, ◌≢◌, true, IfSome, IfNone};
ghost use Rattle.job_words.specs.Options.{allows, name_of, rule_of};

use crate::command::Command;
use crate::table::{Row, served};
use mill_model::MAX_NODES;

/// What an option sets.
#[derive(Clone, Copy, Debug, PartialEq, Eq)]
pub enum Setting {
    /// How many workers search.
    Workers,
    /// How many paths a search closes at most.
    Nodes,
    /// How many colours a slab may carry.
    Colours,
    /// How many moves are tried on the plan that a search starts from.
    Moves,
    /// Where the numbers of a generated instance begin.
    Seed,
    /// How many orders a generated instance has.
    Orders,
}

/// The commands that an option may stand with.
#[derive(Clone, Copy, Debug, PartialEq, Eq)]
pub enum Scope {
    /// Each command.
    Every,
    /// Those that search.
    Searching,
    /// The one that makes its instance.
    Drilling,
}

/// What the language of words says of an option.
#[derive(Clone, Copy)]
pub struct Rule {
    pub setting: Setting,
    pub least: u64,
    pub greatest: u64,
    /// The number where the words give none.
    pub default: u64,
    pub scope: Scope,
}

/// How many workers search.
pub const WORKERS: Rule = Rule {
    setting: Setting::Workers,
    least: 1,
    greatest: 64,
    default: 1,
    scope: Scope::Searching,
};

/// How many paths a search closes at most.
pub const NODES: Rule = Rule {
    setting: Setting::Nodes,
    least: 0,
    greatest: MAX_NODES,
    default: 20_000,
    scope: Scope::Searching,
};

/// How many colours a slab may carry.
pub const COLOURS: Rule = Rule {
    setting: Setting::Colours,
    least: 1,
    greatest: 8,
    default: 2,
    scope: Scope::Every,
};

/// How many moves are tried on the plan that a search starts from.
pub const MOVES: Rule = Rule {
    setting: Setting::Moves,
    least: 0,
    greatest: 1_000_000,
    default: 1000,
    scope: Scope::Searching,
};

/// Where the numbers of a generated instance begin.
pub const SEED: Rule = Rule {
    setting: Setting::Seed,
    least: 0,
    greatest: 4_294_967_295,
    default: 1,
    scope: Scope::Drilling,
};

/// How many orders a generated instance has.
pub const ORDERS: Rule = Rule {
    setting: Setting::Orders,
    least: 0,
    greatest: 1024,
    default: 40,
    scope: Scope::Drilling,
};

/// The options, in the order of the usage line.
pub const OPTIONS: [Row<Rule>; 6] = [
    ("--workers", WORKERS),
    ("--nodes", NODES),
    ("--colours", COLOURS),
    ("--moves", MOVES),
    ("--seed", SEED),
    ("--orders", ORDERS),
];

impl Command {
    ghost use Rattle.std.specs.Prelude.{◌≡◌};
    ghost use Rattle.job_words.specs.Options.{is_in};

    // Whether an option of a scope may stand with it.
    fn is_in(self, scope: Scope) -> bool
        ensures { result ≡ is_in scope self }
    {
        match scope {
            Scope::Every => true,
            Scope::Searching => !matches!(self, Command::Check | Command::Verify),
            Scope::Drilling => matches!(self, Command::Drill),
        }
    }
}

/// The rule of the option that a word names, where the command allows it.
pub fn rule_for(word: &str, command: Command) -> Option<Rule>
    ensures rule { IfSome result (λ rule. rule ≡ rule_of rule.setting) }
    ensures some { IfSome result (λ rule. word.now ≡ name_of rule.setting) }
    ensures allowed { IfSome result (λ rule. allows command rule.setting ≡ true) }
    ensures none { IfNone result ((setting : Setting) → word.now ≡ name_of setting
        → allows command setting ≢ true) }
{
    let rule = served(&OPTIONS, word)?;
    if command.is_in(rule.scope) {
        Some(rule)
    } else {
        None
    }
}
