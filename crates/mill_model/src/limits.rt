/// The largest budget of nodes: as many paths a search closes at most, and as many records a log
/// has.
pub const MAX_NODES: u64 = 1_000_000_000;

/// How far a search goes.
#[derive(Clone, Copy, Debug, PartialEq, Eq)]
pub struct Limits {
    /// How many paths it closes at most.
    pub nodes: u64,
    /// How many moves it makes on the plan that it starts from.
    pub moves: u64,
    /// How many workers close paths.
    pub workers: u16,
}

/// What a draw of a ticket gives: a ticket within the budget, or one past it.
#[derive(Clone, Copy, Debug, Drop, PartialEq, Eq)]
pub enum Draw {
    Ticket(u64),
    Spent(u64),
}

/// How the search stands: it goes on, a halt was called, or no path is left.
#[derive(Clone, Copy, Debug, Drop, PartialEq, Eq)]
pub enum Standing {
    Going,
    Halted,
    Drained,
}
