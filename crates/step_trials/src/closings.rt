//! Records beside what they are to be.

use mill_model::{Closing, Entry};

/// How a path is to be closed.
#[derive(Clone, Copy, Debug, Drop)]
pub enum Wanted<'a> {
    Split,
    Leaf,
    Priced(&'a [i64]),
    Dominated(&'a [u16]),
}

/// Whether these are the records, in this order.
pub fn are_records(entries: &[Entry], wanted: &[(&[u16], Wanted)]) -> bool {
    let mut same = entries.len() == wanted.len();
    for (entry, (numbers, closing)) in entries.iter().zip(wanted) {
        same = same && entry.path.numbers() == *numbers && is_closing(&entry.closing, closing);
    }
    same
}

fn is_closing(closing: &Closing, wanted: &Wanted) -> bool {
    match (closing, wanted) {
        (Closing::Split, Wanted::Split) | (Closing::Leaf, Wanted::Leaf) => true,
        (Closing::Priced(prices), Wanted::Priced(list)) => prices.list() == *list,
        (Closing::Dominated(other), Wanted::Dominated(numbers)) => other.numbers() == *numbers,
        _ => false,
    }
}
