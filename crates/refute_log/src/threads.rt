//! Pieces and runs may move between threads: the check of these calls shows it. Nothing here runs.

use crate::{Piece, Run};

fn crosses_threads<T: Send + Sync>() {}

fn types_that_cross_threads() {
    crosses_threads::<Piece>();
    crosses_threads::<Run>();
}
