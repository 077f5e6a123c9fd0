//! Whole runs of one worker, by hand: which paths it closes, in which order, and how.
ghost use Rattle.std.specs.Prelude.{◌≡◌, true};
ghost use Rattle.search_step.specs.Serving.{Serves};
ghost use Rattle.search_step.specs.Steps.{MayStep};

use crate::closings::{Wanted, are_records};
use crate::hand::{Answers, TrialHand};
use crate::mill::{
    FOUR_CLASSES, THREE_CLASSES, THREE_ORDERS, all_fit, charges_to_four, path_of, ranked_of,
};
use mill_model::{OutOfMemory, Path};
use order_symmetry::Ranked;
use search_step::{Phase, Turn, Worker};
use std::alloc::Global;
use std::test::Fail;

/// Steps until the worker stops, a thousand at most. Where pushes are refused, every other one is.
/// Gives how many wanted memory.
fn run_to_end(worker: &mut Worker, hand: &mut TrialHand, least: u64, refuses: bool) -> u32
    requires serves { Serves hand.old worker.old.ranked worker.old.workers worker.old.number }
    requires may { MayStep worker.old.parts.phase true }
{
    let mut refused = 0u32;
    let mut answers = Answers {
        standing: None,
        least,
        refuses,
    };
    for _ in 0..1000u32 {
        hand.answer(answers);
        match worker.step(hand) {
            Turn::Stopped => return refused,
            Turn::OutOfMemory => {
                refused = refused.saturating_add(1);
                answers.refuses = false;
            }
            Turn::Moved | Turn::Drew | Turn::Idle => answers.refuses = refuses,
        }
    }
    refused
}

/// The records of a run that knows the loss 4: the third path is closed by the ascent, the last one
/// only after a sweep.
const FOUR_RECORDS: [(&[u16], Wanted); 4] = [
    (&[], Wanted::Split),
    (&[0], Wanted::Split),
    (&[0, 0], Wanted::Priced(&[180])),
    (&[0, 1], Wanted::Priced(&[-60])),
];

#[test]
fn one_worker_closes_four_paths(rt: HostRuntime) -> Result<(), Fail> {
    let alloc = rt.alloc();
    let ranked = &ranked_of(alloc, 4, &THREE_ORDERS, 2)?;
    let charges = &charges_to_four(alloc)?;
    assert!(rt; ranked.largest() == 4 && all_fit(ranked));
    for refuses in [false, true] {
        let mut worker = Worker::new(alloc, ranked, charges, 0, 1, 4);
        let mut hand = TrialHand::new(alloc, ranked, 0, 1, 9, 4);
        let root = Path::root(alloc);
        hand.give_own(root);
        let refused = run_to_end(&mut worker, &mut hand, 4, refuses);
        assert_eq!(rt; refused, if refuses { 3 } else { 0 });
        assert_eq!(rt; hand.drawn(), 4);
        let end = worker.finish();
        assert!(rt; are_records(end.piece.entries(), &FOUR_RECORDS));
        assert!(rt; end.held.is_none() && end.waiting.is_empty() && end.best.is_none());
    }
    Ok(())
}

/// Steps until the worker rests after closing a path, a hundred at most.
fn close_one(worker: &mut Worker, hand: &mut TrialHand)
    requires serves { Serves hand.old worker.old.ranked worker.old.workers worker.old.number }
    requires may { MayStep worker.old.parts.phase true }
    ensures ranked { worker.new.ranked ≡ worker.old.ranked }
    ensures serves { Serves hand.new worker.new.ranked worker.new.workers worker.new.number }
    ensures may { MayStep worker.new.parts.phase true }
{
    for _ in 0..100u32 {
        let turn = worker.step(hand);
        if turn == Turn::Moved && worker.phase() == Phase::Resting {
            return;
        }
    }
}

/// Whether these are the records of paths that are given one after the other to a worker that knows
/// a loss so great that no prices close them. What it hands on is taken away.
fn are_closed_in_turn(
    alloc: Global,
    ranked: &Ranked,
    wanted: &[(&[u16], Wanted)],
) -> Result<bool, OutOfMemory> {
    let charges = &charges_to_four(alloc)?;
    if ranked.largest() != 4 || !all_fit(ranked) {
        return Ok(false);
    }
    let mut worker = Worker::new(alloc, ranked, charges, 0, 2, 1000);
    let mut hand = TrialHand::new(alloc, ranked, 0, 2, 9, 1000);
    for (numbers, _) in wanted {
        let path = path_of(alloc, ranked, numbers)?;
        hand.give(path);
        close_one(&mut worker, &mut hand);
        hand.clear();
    }
    Ok(are_records(worker.finish().piece.entries(), wanted))
}

const AT_A_START: [(&[u16], Wanted); 2] = [
    (&[0, 0, 1], Wanted::Split),
    (&[0, 1, 0], Wanted::Dominated(&[0, 0, 1])),
];

const INSIDE: [(&[u16], Wanted); 2] = [(&[0, 0, 1], Wanted::Split), (&[0, 1, 2], Wanted::Split)];

#[test]
fn a_path_dominates_only_where_a_class_starts(rt: HostRuntime) -> Result<(), Fail> {
    let alloc = rt.alloc();
    // Both keys are one group of load 1 with one colour, which doesn't come again; both dead losses
    // are 0.
    let ranked = ranked_of(alloc, 4, &FOUR_CLASSES, 2)?;
    assert!(rt; are_closed_in_turn(alloc, &ranked, &AT_A_START)?);
    // Here both keys are equal, and the dead losses are 1 and 5, but depth 3 is inside a class.
    let ranked = ranked_of(alloc, 4, &THREE_CLASSES, 1)?;
    assert!(rt; are_closed_in_turn(alloc, &ranked, &INSIDE)?);
    Ok(())
}
