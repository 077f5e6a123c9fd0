//! The types that workers share, or that move between their threads, may do so: the check of these
//! calls shows it. Nothing here runs.

use crate::{
    Charges, Closing, Draw, Entry, Limits, OutOfMemory, Path, Plan, Prices, Standing, Start,
};

fn crosses_threads<T: Send + Sync>() {}

fn types_that_cross_threads() {
    crosses_threads::<Path>();
    crosses_threads::<Prices>();
    crosses_threads::<Plan>();
    crosses_threads::<Start>();
    crosses_threads::<Charges>();
    crosses_threads::<Closing>();
    crosses_threads::<Entry>();
    crosses_threads::<Limits>();
    crosses_threads::<Draw>();
    crosses_threads::<Standing>();
    crosses_threads::<OutOfMemory>();
}
