use search_step::WorkerEnd;
use shared_words::{BestSeat, MeterSeat};
use steal_deques::{Own, Thief};

/// What one worker owns when it begins: its number, its seats at the words that all share, its end
/// of its own deque, and a thief of each other deque, by their numbers.
#[derive(Drop)]
pub struct Job {
    pub number: u16,
    pub loss_seat: BestSeat,
    pub ticket_seat: MeterSeat,
    pub own: Own,
    pub thieves: Vec<Thief>,
}

/// What it gives back at its end, with what it leaves.
#[derive(Drop)]
pub struct JobEnd {
    pub number: u16,
    pub loss_seat: BestSeat,
    pub ticket_seat: MeterSeat,
    pub own: Own,
    pub thieves: Vec<Thief>,
    pub left: WorkerEnd,
}
