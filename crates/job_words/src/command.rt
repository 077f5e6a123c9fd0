//! The commands, by the words that spell them, and how many bytes each reads at most.
ghost use Rattle.std.specs.Prelude.{◌≡◌, IfSome, IfNone};
ghost use Rattle.job_words.specs.Words.{spelling};

use crate::table::{Row, served};

/// What the program is asked to do.
#[derive(Clone, Copy, Debug, PartialEq, Eq)]
pub enum Command {
    /// Print a plan of the least loss, or the best that a bounded search found.
    Solve,
    /// The same, and with a best plan a log that refutes each cheaper one.
    Prove,
    /// Judge the plan of an answer from anywhere.
    Check,
    /// Judge an answer's plan and the log that is to show that it is a best one.
    Verify,
    /// Answer as `prove` does, with workers that take turns as a schedule says.
    Replay,
    /// Search an instance that is made from a seed, and tell what came of it.
    Drill,
}

/// The commands, in the order of the usage line.
pub const COMMANDS: [Row<Command>; 6] = [
    ("solve", Command::Solve),
    ("prove", Command::Prove),
    ("check", Command::Check),
    ("verify", Command::Verify),
    ("replay", Command::Replay),
    ("drill", Command::Drill),
];

impl Command {
    ghost use Rattle.job_words.specs.Words.{limit_of};

    /// How many bytes its input may have, or None where it reads none.
    pub fn limit(self) -> Option<usize>
        ensures { result ≡ limit_of self }
    {
        match self {
            Command::Solve | Command::Prove | Command::Replay => Some(4_194_304),
            Command::Check | Command::Verify => Some(268_435_456),
            Command::Drill => None,
        }
    }
}

/// The command that a word spells.
pub fn command_of(word: &str) -> Option<Command>
    ensures some { IfSome result (λ command. word.now ≡ spelling command) }
    ensures none { IfNone result ((command : Command) → word.now ≡ spelling command → ⊥) }
{
    served(&COMMANDS, word)
}
