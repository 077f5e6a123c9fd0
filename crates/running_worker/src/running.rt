//! A worker that runs to its end.
ghost use Rattle.std.specs.Prelude.{◌≡◌, ◌≤◌, true, All, IfOk, OnErr, OnOk};
ghost use Rattle.mill_model.specs.Charges.{Reaches};
ghost use Rattle.order_symmetry.specs.Ranked.{orders_of};
ghost use Rattle.search_step.specs.Worker.{WorkerParts};
ghost use Rattle.core_machine.specs.Ends.{is_calm};
ghost use Rattle.running_worker.specs.AtWork.{MayGoOn, StaysAtWork};
ghost use Rattle.running_worker.specs.Jobs.{IsJobOf};
ghost use Rattle.running_worker.specs.Worked.{HasWorked};

use crate::gate::Gate;
use crate::job::{Job, JobEnd};
use crate::round::Round;
use crate::running_hand::RunningHand;
use mill_model::{Charges, OutOfMemory};
use order_symmetry::Ranked;
use search_step::{Hand, Turn, Worker};
use std::alloc::Global;
use std::sync::Wait;
use std::thread;

/// Runs one worker of a round to its end, which comes where it drew a ticket past the budget, heard
/// of a halt, or found no open path. It passes the gate once for each ticket. Where it wants memory
/// it calls a halt for all.
pub fn work<'a, R: Wait, G: Gate>(
    rt: &R,
    alloc: Global,
    gate: &G,
    ranked: &'a Ranked,
    charges: &'a Charges,
    round: &'a Round,
    job: Job,
) -> Result<JobEnd, OutOfMemory>
    requires light { All (λ order. order.weight ≤ ranked.now.mill.largest) (orders_of ranked.now) }
    requires reach { Reaches charges.now ranked.now.mill }
    requires job { IsJobOf ranked.now round.now job }
    ensures { IfOk result (HasWorked ranked.now charges.now round.now job) }
{
    // The call brings into the proof that these are an instance's orders, in rank.
    let _orders = ranked.len();
    let number = job.number;
    let mut worker = Worker::new(alloc, ranked, charges, number, round.workers, round.loss);
    let mut hand = RunningHand::new(ranked, round, job);
    run(rt, gate, &mut worker, &mut hand)?;
    Ok(hand.end(worker.finish()))
}

// Steps until the worker answers that it stopped. Where it wants memory, it calls a halt.
fn run<'a, R: Wait, G: Gate>(
    rt: &R,
    gate: &G,
    worker: &mut Worker<'a>,
    hand: &mut RunningHand<'a>,
) -> Result<(), OutOfMemory>
    requires may { MayGoOn worker.old hand.old }
    ensures work { OnOk result (StaysAtWork worker.old hand.old worker.new hand.new) }
    ensures calm { OnOk result (is_calm worker.new.parts.phase ≡ true) }
    ensures halts { OnErr result (hand.new.ticket_seat.mark ≡ true) }
    ensures orders { worker.new.ranked ≡ worker.old.ranked }
    ensures charges { worker.new.charges ≡ worker.old.charges }
{
    for _ in rt.forever() {
        match turn(gate, worker, hand) {
            Turn::Moved | Turn::Drew => {}
            Turn::Idle => thread::yield_now(),
            Turn::Stopped => return Ok(()),
            Turn::OutOfMemory => break,
        }
    }
    hand.stop();
    Err(OutOfMemory)
}

// One step, and after a ticket the gate.
fn turn<'a, G: Gate>(gate: &G, worker: &mut Worker<'a>, hand: &mut RunningHand<'a>) -> Turn
    requires may { MayGoOn worker.old hand.old }
    ensures may { MayGoOn worker.new hand.new }
    ensures work { StaysAtWork worker.old hand.old worker.new hand.new }
    ensures calm { result ≡ Turn.Stopped → is_calm worker.new.parts.phase ≡ true }
    ensures orders { worker.new.ranked ≡ worker.old.ranked }
    ensures charges { worker.new.charges ≡ worker.old.charges }
{
    let turn = step(worker, hand);
    if let (Turn::Drew, Some(path)) = (turn, worker.held()) {
        gate.pass(hand.number(), path);
    }
    turn
}

fn step<'a>(worker: &mut Worker<'a>, hand: &mut RunningHand<'a>) -> Turn
    requires may { MayGoOn worker.old hand.old }
    ensures may { MayGoOn worker.new hand.new }
    ensures work { StaysAtWork worker.old hand.old worker.new hand.new }
    ensures calm { result ≡ Turn.Stopped → is_calm worker.new.parts.phase ≡ true }
    ensures orders { worker.new.ranked ≡ worker.old.ranked }
    ensures charges { worker.new.charges ≡ worker.old.charges }
{
    worker.step(hand)
}
