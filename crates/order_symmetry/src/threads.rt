//! The ranked orders may be shared by the threads of all workers, and move between them: the check
//! of this call shows it. Nothing here runs.

use crate::Ranked;

fn crosses_threads<T: Send + Sync>() {}

fn types_that_cross_threads() {
    crosses_threads::<Ranked>();
}
