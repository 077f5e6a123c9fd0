//! The words may be shared by the threads of all workers, and seats move between them: the check of
//! these calls shows it. Nothing here runs.

use crate::{Best, BestSeat, Meter, MeterSeat};

fn is_shared<T: Sync>() {}

fn moves<T: Send>() {}

fn words_are_shared() {
    is_shared::<Best>();
    is_shared::<Meter>();
}

fn words_and_seats_move() {
    moves::<Best>();
    moves::<Meter>();
    moves::<BestSeat>();
    moves::<MeterSeat>();
}
