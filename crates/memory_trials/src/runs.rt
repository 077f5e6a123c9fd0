//! Whole runs of one worker, by hand: which paths it closes, in which order and how, and the plan
//! that it keeps.
ghost use Rattle.std.specs.Prelude.{◌≡◌, true};
ghost use Rattle.search_step.specs.Serving.{Serves};
ghost use Rattle.search_step.specs.Steps.{MayStep};

use crate::hand::ListHand;
use crate::mills::{all_fit, charges_to_four, five_orders, three_orders};
use mill_model::{Closing, Entry, OutOfMemory, Path};
use order_symmetry::Ranked;
use search_step::{Hand, Turn, Worker};
use std::alloc::Global;
use std::test::Fail;

/// How a path is to be closed.
#[derive(Clone, Copy, Debug, Drop)]
enum Wanted<'a> {
    Split,
    Leaf,
    Priced(&'a [i64]),
    Dominated(&'a [u16]),
}

/// What a run begins with and what it is to leave: the loss that the worker knows at first, and
/// then the records in the order of closing, and the plan that is kept with its loss.
#[derive(Clone, Copy, Debug, Drop)]
struct Trial<'a> {
    known: u64,
    records: &'a [(&'a [u16], Wanted<'a>)],
    plan: &'a [u16],
    loss: u64,
}

/// Each plan loses 4 or more, so no prices close a path while 5 is known. The path `0 0 1` loses 4;
/// then a sweep closes the path `0 1`.
const THREE_ORDERS: Trial = Trial {
    known: 5,
    records: &[
        (&[], Wanted::Split),
        (&[0], Wanted::Split),
        (&[0, 0], Wanted::Split),
        (&[0, 0, 1], Wanted::Leaf),
        (&[0, 1], Wanted::Priced(&[-60])),
    ],
    plan: &[0, 1, 0],
    loss: 4,
};

/// Two orders fill a slab and lose nothing, and one order alone loses 2. Where two orders or more
/// are to come, all prices are 0, and worth 0. Where one is to come, prices are worth 120 or more,
/// which is 2 or more as a loss: too little while 3 is known, and enough once the path `0 0 1 1 2`
/// has lost 2. The paths `0 0 1`, `0 1 0` and `0 1 1` have one full slab and one order alone, so
/// that their live keys are equal.
const FIVE_ORDERS: Trial = Trial {
    known: 3,
    records: &[
        (&[], Wanted::Split),
        (&[0], Wanted::Split),
        (&[0, 0], Wanted::Split),
        (&[0, 0, 1], Wanted::Split),
        (&[0, 0, 1, 1], Wanted::Split),
        (&[0, 0, 1, 1, 2], Wanted::Leaf),
        (&[0, 0, 1, 2], Wanted::Priced(&[-120])),
        (&[0, 1], Wanted::Split),
        (&[0, 1, 0], Wanted::Dominated(&[0, 0, 1])),
        (&[0, 1, 1], Wanted::Dominated(&[0, 0, 1])),
        (&[0, 1, 2], Wanted::Split),
        (&[0, 1, 2, 0], Wanted::Priced(&[-120])),
        (&[0, 1, 2, 1], Wanted::Priced(&[-120])),
        (&[0, 1, 2, 2], Wanted::Priced(&[-120])),
        (&[0, 1, 2, 3], Wanted::Priced(&[-120])),
    ],
    plan: &[0, 0, 1, 1, 2],
    loss: 2,
};

/// Whether these are the records, in this order.
fn are_records(entries: &[Entry], wanted: &[(&[u16], Wanted)]) -> bool {
    let mut same = entries.len() == wanted.len();
    for (entry, (numbers, closing)) in entries.iter().zip(wanted) {
        same = same && entry.path.numbers() == *numbers && is_closing(&entry.closing, closing);
    }
    same
}

fn is_closing(closing: &Closing, wanted: &Wanted) -> bool {
    match (closing, wanted) {
        (Closing::Split, Wanted::Split) | (Closing::Leaf, Wanted::Leaf) => true,
        (Closing::Priced(prices), Wanted::Priced(list)) => prices.list() == *list,
        (Closing::Dominated(other), Wanted::Dominated(numbers)) => other.numbers() == *numbers,
        _ => false,
    }
}

/// Steps until the worker stops, a thousand times at most. A step that wants memory is tried again.
fn run_to_end(worker: &mut Worker, hand: &mut ListHand)
    requires serves { Serves hand.old worker.old.ranked worker.old.workers worker.old.number }
    requires may { MayStep worker.old.parts.phase true }
{
    for _ in 0..1000u32 {
        if worker.step(hand) == Turn::Stopped {
            return;
        }
    }
}

/// Whether a run over these orders leaves what it is to leave. Memory may be refused before its
/// first step.
fn leaves(alloc: Global, ranked: &Ranked, trial: &Trial) -> Result<bool, OutOfMemory> {
    let charges = &charges_to_four(alloc)?;
    if ranked.largest() != 4 || !all_fit(ranked) {
        return Ok(false);
    }
    let mut worker = Worker::new(alloc, ranked, charges, 0, 1, trial.known);
    let mut hand = ListHand::new(alloc, ranked, trial.known);
    if hand.push(Path::root(alloc)).is_err() {
        return Err(OutOfMemory);
    }
    run_to_end(&mut worker, &mut hand);
    let end = worker.finish();
    let is_best = match &end.best {
        Some(best) => best.loss == trial.loss && best.plan.slabs() == trial.plan,
        None => false,
    };
    Ok(
        is_best
            && are_records(end.piece.entries(), trial.records)
            && end.held.is_none()
            && end.waiting.is_empty()
            && hand.drawn() == trial.records.len() as u64
            && hand.least() == trial.loss,
    )
}

/// The same of three orders and of five, over one allocator.
fn all_leave(alloc: Global) -> Result<bool, OutOfMemory> {
    let three = leaves(alloc, &three_orders(alloc)?, &THREE_ORDERS)?;
    let five = leaves(alloc, &five_orders(alloc)?, &FIVE_ORDERS)?;
    Ok(three && five)
}

/// Where memory is refused before the first step of a run, all begins anew.
#[test]
fn a_step_tried_again_gives_the_run_that_would_have_been(rt: HostRuntime) -> Result<(), Fail> {
    let alloc = rt.alloc();
    let same = match all_leave(alloc) {
        Ok(same) => same,
        Err(OutOfMemory) => all_leave(alloc)?,
    };
    assert!(rt; same);
    Ok(())
}
