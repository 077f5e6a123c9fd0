use shared_words::{Best, Meter};
use std::sync::atomic::AtomicU64;

/// What the workers of one round share.
#[derive(Drop)]
pub struct Round {
    /// The least loss that any of them knows.
    pub best: Best,
    /// The tickets, and the halt.
    pub meter: Meter,
    /// How many paths are in a deque or with a worker that didn't rest since it took one. Where
    /// there is none, a worker stops. It is a hint, on which nothing else rests.
    pub open_paths: AtomicU64,
    /// How many workers there are.
    pub workers: u16,
    /// The loss that each of them knows at the start.
    pub loss: u64,
}
