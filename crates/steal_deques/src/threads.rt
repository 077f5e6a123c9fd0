//! Both ends of a deque move between threads: the check of these calls shows it. Nothing here runs.

use crate::{Gathered, Own, Thief};

fn moves<T: Send>() {}

fn ends_move() {
    moves::<Own>();
    moves::<Thief>();
    moves::<Gathered>();
}
