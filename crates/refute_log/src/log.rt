ghost use Rattle.std.specs.Prelude.{◌≡◌};
ghost use Rattle.refute_log.specs.Logged.{IsLog};

use mill_model::Entry;
use std::marker::Model;

/// Records of closed paths for a number of orders: at most 1,000,000,000, with paths that strictly
/// rise, compared number by number, a prefix before its extensions.
#[derive(Debug, Drop)]
pub struct Log {
    orders: u16,
    entries: Vec<Entry>,
}

impl Model for Log {
    ghost use Rattle.refute_log.specs.Logged.{Logged, IsLog};

    ghost Value = { Logged };

    ghost view = { λ log. record { orders = log.orders; entries = log.entries.items } };

    ghost invariant = { λ log. IsLog
        (record { orders = log.orders; entries = log.entries.items }) };
}

impl Log {
    /// The log of these records.
    pub fn from_rising(orders: u16, entries: Vec<Entry>) -> Log
        requires { IsLog (record { orders = orders; entries = entries.items }) }
        ensures { result ≡ record { orders = orders; entries = entries.items } }
    {
        Log { orders, entries }
    }

    /// The records, by rising path.
    pub fn entries(&self) -> &[Entry]
        ensures is { result.now ≡ self.now.entries }
        ensures kept { IsLog self.now }
    {
        &self.entries
    }

    /// How many orders there are.
    pub fn orders(&self) -> u16
        ensures is { result ≡ self.now.orders }
        ensures kept { IsLog self.now }
    {
        self.orders
    }
}
