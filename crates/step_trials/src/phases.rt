//! The table of steps, row by row: the call on the hand, the answer and the next phase. The mill
//! has the three orders that stand in rank as (2, 3), (1, 1) and (1, 2).

use crate::closings::{Wanted, are_records};
use crate::hand::{Answers, Call, TrialHand};
use crate::mill::{THREE_ORDERS, all_fit, charges_to_four, path_of, ranked_of};
use crate::steps::{Seen, unlike};
use mill_model::{Path, Standing};
use search_step::{Phase, Turn, Worker};
use std::test::Fail;

const STANDS: Option<Call> = Some(Call::Standing);

/// Rests until there is a path, where others have none.
const FRUITLESS: [Seen; 6] = [
    (STANDS, Turn::Moved, Phase::Taking),
    (Some(Call::Take), Turn::Idle, Phase::Stealing),
    (Some(Call::Steal(2)), Turn::Idle, Phase::Resting),
    (STANDS, Turn::Moved, Phase::Taking),
    (Some(Call::Take), Turn::Idle, Phase::Stealing),
    (Some(Call::Steal(0)), Turn::Idle, Phase::Resting),
];

/// Steals a path, splits it, and hands its one child on, which comes back twice.
const ROOT: [Seen; 6] = [
    (STANDS, Turn::Moved, Phase::Taking),
    (Some(Call::Take), Turn::Idle, Phase::Stealing),
    (Some(Call::Steal(2)), Turn::Moved, Phase::Holding),
    (Some(Call::Draw), Turn::Drew, Phase::Bounding),
    (Some(Call::Look), Turn::Moved, Phase::Closing),
    (None, Turn::Moved, Phase::Pushing),
];

const REFUSED: [Seen; 2] = [
    (Some(Call::Push), Turn::OutOfMemory, Phase::Pushing),
    (Some(Call::Push), Turn::OutOfMemory, Phase::Pushing),
];

/// Hands the last child on, takes it back, splits it, and hands its children on, the last first.
const ONE: [Seen; 6] = [
    (Some(Call::Push), Turn::Moved, Phase::Resting),
    (STANDS, Turn::Moved, Phase::Taking),
    (Some(Call::Take), Turn::Moved, Phase::Holding),
    (Some(Call::Draw), Turn::Drew, Phase::Bounding),
    (Some(Call::Look), Turn::Moved, Phase::Closing),
    (None, Turn::Moved, Phase::Pushing),
];

const CHILD: [Seen; 1] = [(Some(Call::Push), Turn::Moved, Phase::Pushing)];

/// Takes a path for which no ticket is left, and calls a halt.
const SPENT: [Seen; 7] = [
    (Some(Call::Push), Turn::Moved, Phase::Resting),
    (STANDS, Turn::Moved, Phase::Taking),
    (Some(Call::Take), Turn::Moved, Phase::Holding),
    (Some(Call::Draw), Turn::Moved, Phase::Halting),
    (Some(Call::Stop), Turn::Stopped, Phase::Ended),
    (None, Turn::Stopped, Phase::Ended),
    (None, Turn::Stopped, Phase::Ended),
];

/// What is recorded by then.
const TWO_SPLITS: [(&[u16], Wanted); 2] = [(&[], Wanted::Split), (&[0], Wanted::Split)];

#[test]
fn a_worker_goes_by_the_table(rt: HostRuntime) -> Result<(), Fail> {
    let alloc = rt.alloc();
    let ranked = &ranked_of(alloc, 4, &THREE_ORDERS, 2)?;
    let charges = &charges_to_four(alloc)?;
    assert!(rt; ranked.largest() == 4 && all_fit(ranked));
    let mut worker = Worker::new(alloc, ranked, charges, 1, 3, 4);
    let mut hand = TrialHand::new(alloc, ranked, 1, 3, 2, 9);
    assert!(rt; worker.phase() == Phase::Resting && worker.held().is_none());
    let mut answers = Answers {
        standing: Some(Standing::Halted),
        least: 9,
        refuses: true,
    };
    hand.answer(answers);
    assert_eq!(rt;
        unlike(
            &mut worker,
            &mut hand,
            &[(STANDS, Turn::Stopped, Phase::Resting)]
        ),
        None
    );
    answers.standing = Some(Standing::Drained);
    hand.answer(answers);
    assert_eq!(rt;
        unlike(
            &mut worker,
            &mut hand,
            &[(STANDS, Turn::Stopped, Phase::Resting)]
        ),
        None
    );
    answers.standing = Some(Standing::Going);
    hand.answer(answers);
    assert_eq!(rt; unlike(&mut worker, &mut hand, &FRUITLESS), None);
    let root = Path::root(alloc);
    hand.give(root);
    assert_eq!(rt; unlike(&mut worker, &mut hand, &ROOT), None);
    assert_eq!(rt; unlike(&mut worker, &mut hand, &REFUSED), None);
    assert!(rt; hand.last().is_none());
    answers.refuses = false;
    hand.answer(answers);
    assert_eq!(rt; unlike(&mut worker, &mut hand, &ONE), None);
    assert_eq!(rt; unlike(&mut worker, &mut hand, &CHILD), None);
    assert_eq!(rt; hand.last(), Some([0, 1].as_slice()));
    assert_eq!(rt; unlike(&mut worker, &mut hand, &SPENT), None);
    let Some(held) = worker.held() else {
        panic!(rt; "the path is still held");
    };
    assert_eq!(rt; held.numbers(), [0, 0].as_slice());
    let end = worker.finish();
    assert!(rt;
        end.held
            .is_some_and(|path| path.numbers() == [0, 0].as_slice())
    );
    assert!(rt; end.waiting.is_empty() && end.best.is_none());
    assert!(rt; are_records(end.piece.entries(), &TWO_SPLITS));
    assert_eq!(rt; hand.last(), Some([0, 1].as_slice()));
    Ok(())
}

/// Takes the path of all orders, which loses less than is known, and tells of it.
const BETTER: [Seen; 7] = [
    (STANDS, Turn::Moved, Phase::Taking),
    (Some(Call::Take), Turn::Idle, Phase::Stealing),
    (Some(Call::Steal(1)), Turn::Moved, Phase::Holding),
    (Some(Call::Draw), Turn::Drew, Phase::Bounding),
    (Some(Call::Look), Turn::Moved, Phase::Closing),
    (None, Turn::Moved, Phase::Publishing),
    (Some(Call::Publish(4)), Turn::Moved, Phase::Resting),
];

/// Takes a path whose record leaves nothing open.
const CLOSED: [Seen; 6] = [
    (STANDS, Turn::Moved, Phase::Taking),
    (Some(Call::Take), Turn::Idle, Phase::Stealing),
    (Some(Call::Steal(1)), Turn::Moved, Phase::Holding),
    (Some(Call::Draw), Turn::Drew, Phase::Bounding),
    (Some(Call::Look), Turn::Moved, Phase::Closing),
    (None, Turn::Moved, Phase::Resting),
];

const TWO_LEAVES: [(&[u16], Wanted); 2] = [(&[0, 0, 1], Wanted::Leaf), (&[0, 1, 0], Wanted::Leaf)];

/// What is left of a worker that is given two paths of all orders, both of which lose 4.
#[test]
fn a_plan_that_loses_less_is_told(rt: HostRuntime) -> Result<(), Fail> {
    let alloc = rt.alloc();
    let ranked = &ranked_of(alloc, 4, &THREE_ORDERS, 2)?;
    let charges = &charges_to_four(alloc)?;
    assert!(rt; ranked.largest() == 4 && all_fit(ranked));
    let first = path_of(alloc, ranked, &[0, 0, 1])?;
    let second = path_of(alloc, ranked, &[0, 1, 0])?;
    let mut worker = Worker::new(alloc, ranked, charges, 0, 2, 9);
    let mut hand = TrialHand::new(alloc, ranked, 0, 2, 9, 5);
    hand.give(second);
    hand.give(first);
    assert_eq!(rt; unlike(&mut worker, &mut hand, &BETTER), None);
    assert_eq!(rt; unlike(&mut worker, &mut hand, &CLOSED), None);
    let end = worker.finish();
    assert!(rt; are_records(end.piece.entries(), &TWO_LEAVES));
    // Ranks 0 and 1 are the third and the first order of the file.
    assert!(rt;
        end.best.is_some_and(|best| best.loss == 4 && best.plan.slabs() == [0, 1, 0].as_slice())
    );
    Ok(())
}

/// The least loss of all workers counts, too: 4 is not less than 4.
#[test]
fn a_plan_that_loses_as_much_as_another_is_not_kept(rt: HostRuntime) -> Result<(), Fail> {
    let alloc = rt.alloc();
    let ranked = &ranked_of(alloc, 4, &THREE_ORDERS, 2)?;
    let charges = &charges_to_four(alloc)?;
    assert!(rt; ranked.largest() == 4 && all_fit(ranked));
    let mut worker = Worker::new(alloc, ranked, charges, 0, 2, 9);
    let mut hand = TrialHand::new(alloc, ranked, 0, 2, 9, 4);
    let path = path_of(alloc, ranked, &[0, 0, 1])?;
    hand.give(path);
    assert_eq!(rt; unlike(&mut worker, &mut hand, &CLOSED), None);
    assert!(rt; worker.finish().best.is_none());
    Ok(())
}

const BY_PRICES: [(&[u16], Wanted); 2] = [
    (&[0, 0], Wanted::Priced(&[180])),
    (&[0, 1], Wanted::Priced(&[-60])),
];

/// Where 4 is known, the worker's own or the least of all, the ascent closes the first path and a
/// sweep the second.
#[test]
fn prices_close_a_path_without_children(rt: HostRuntime) -> Result<(), Fail> {
    let alloc = rt.alloc();
    let ranked = &ranked_of(alloc, 4, &THREE_ORDERS, 2)?;
    let charges = &charges_to_four(alloc)?;
    assert!(rt; ranked.largest() == 4 && all_fit(ranked));
    for (own, least) in [(4, 9), (9, 4)] {
        let first = path_of(alloc, ranked, &[0, 0])?;
        let second = path_of(alloc, ranked, &[0, 1])?;
        let mut worker = Worker::new(alloc, ranked, charges, 0, 2, own);
        let mut hand = TrialHand::new(alloc, ranked, 0, 2, 9, least);
        hand.answer(Answers {
            standing: Some(Standing::Going),
            least,
            refuses: false,
        });
        hand.give(second);
        hand.give(first);
        assert_eq!(rt; unlike(&mut worker, &mut hand, &CLOSED), None);
        assert_eq!(rt; unlike(&mut worker, &mut hand, &CLOSED), None);
        assert!(rt; are_records(worker.finish().piece.entries(), &BY_PRICES));
    }
    Ok(())
}

/// One worker has nobody to steal from.
#[test]
fn one_worker_rests_without_a_path(rt: HostRuntime) -> Result<(), Fail> {
    let alloc = rt.alloc();
    let ranked = &ranked_of(alloc, 4, &THREE_ORDERS, 2)?;
    let charges = &charges_to_four(alloc)?;
    assert!(rt; ranked.largest() == 4 && all_fit(ranked));
    let mut worker = Worker::new(alloc, ranked, charges, 0, 1, 4);
    let mut hand = TrialHand::new(alloc, ranked, 0, 1, 9, 4);
    hand.answer(Answers {
        standing: Some(Standing::Going),
        least: 4,
        refuses: false,
    });
    let steps = [
        (STANDS, Turn::Moved, Phase::Taking),
        (Some(Call::Take), Turn::Idle, Phase::Resting),
    ];
    assert_eq!(rt; unlike(&mut worker, &mut hand, &steps), None);
    Ok(())
}
