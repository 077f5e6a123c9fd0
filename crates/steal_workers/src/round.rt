//! One round: new workers go on from what a run left, until each of them stops.
ghost use Rattle.std.specs.Prelude.{◌≡◌, ◌≤◌, ◌<◌, All, IfOk, OnOk, length};
ghost use Rattle.std.specs.List.{AllByRecursion, AllZip};
ghost use Rattle.mill_model.specs.Charges.{Reaches};
ghost use Rattle.mill_model.specs.declared.limits.TheConstants.{MAX_NODES};
ghost use Rattle.order_symmetry.specs.Ranked.{orders_of};
ghost use Rattle.search_step.specs.Resumable.{GoesOnFrom, IsResumable};
ghost use Rattle.search_step.specs.Serving.{IsPathOf};
ghost use Rattle.running_worker.specs.Jobs.{IsJobOf};
ghost use Rattle.running_worker.specs.Worked.{HasWorked};
ghost use Rattle.steal_workers.specs.Rounds.{Begins, HasEnded, MayEnd, with_first};
ghost use Rattle.steal_workers.specs.Words.{IsOpened};
ghost use denote.Param.Send.{IsSync};

use crate::ending::end_deques;
use crate::gathering::gather_work;
use crate::jobs::{give_paths, make_jobs};
use crate::lending::deal;
use crate::parting::{Parted, all_ends, part};
use crate::words::{close_round, open_round};
use mill_model::{Charges, Limits, OutOfMemory, Path, Start};
use order_symmetry::Ranked;
use refute_log::{Piece, Run};
use running_worker::{Gate, Job, JobEnd, Round, work};
use std::alloc::Global;
use std::sync::Wait;
use std::thread;
use std::thread::Threads;
use steal_deques::Own;

// What the workers of a round share, and what each of them begins with.
#[derive(Drop)]
struct Begun {
    round: Round,
    jobs: Vec<Job>,
}

/// Goes on from what a run left, with new workers, each in a thread of its own where one can be
/// made, and the tickets that weren't drawn.
pub(crate) fn run_round<R: Threads + Wait + Sync, G: Gate>(
    rt: &R,
    alloc: Global,
    ranked: &Ranked,
    charges: &Charges,
    run: Run,
    limits: Limits,
    gate: &G,
) -> Result<Run, OutOfMemory>
    requires light { All (λ order. order.weight ≤ ranked.now.mill.largest) (orders_of ranked.now) }
    requires reach { Reaches charges.now ranked.now.mill }
    requires some { 1 ≤ limits.workers }
    requires few { limits.workers ≤ 64 }
    requires nodes { limits.nodes ≤ MAX_NODES }
    requires drawn { run.drawn ≤ limits.nodes }
    requires resumable { IsResumable ranked.now charges.now limits.nodes run }
    ensures resumable { IfOk result (IsResumable ranked.now charges.now limits.nodes) }
    ensures goes_on { IfOk result (GoesOnFrom ranked.now charges.now run) }
    ensures at_most { IfOk result (λ after. after.loss ≤ run.loss) }
{
    let Run {
        pieces,
        unclosed,
        plan,
        loss,
        drawn,
    } = run;
    let Begun { round, jobs } = begin(
        alloc,
        ranked,
        unclosed,
        loss,
        limits.nodes - drawn,
        limits.workers,
    )?;
    let ends = run_all(rt, alloc, gate, ranked, charges, &round, jobs)?;
    end_round(alloc, round, ends, pieces, Start { plan, loss }, drawn)
}

// New words, deques and workers, with the paths to close in deque 0.
fn begin(
    alloc: Global,
    ranked: &Ranked,
    unclosed: Vec<Path>,
    loss: u64,
    nodes: u64,
    workers: u16,
) -> Result<Begun, OutOfMemory>
    requires some { 1 ≤ workers }
    requires few { workers ≤ 64 }
    requires limit { nodes ≤ MAX_NODES }
    requires tree { AllByRecursion (IsPathOf ranked.now) unclosed.items }
    ensures round { IfOk result (λ begun. IsOpened workers loss nodes begun.round) }
    ensures jobs { IfOk result (λ begun. Begins ranked.now workers unclosed.items begun.round
        begun.jobs.items) }
{
    let opened = open_round(alloc, workers, loss, nodes, unclosed.len() as u64)?;
    let mut dealt = deal(alloc, ranked, workers)?;
    give_first(&mut dealt.owns, unclosed)?;
    let jobs = make_jobs(alloc, dealt, opened.seats)?;
    Ok(Begun {
        round: opened.round,
        jobs,
    })
}

// Puts paths into the first deque.
fn give_first(owns: &mut Vec<Own>, paths: Vec<Path>) -> Result<(), OutOfMemory>
    requires some { 0 < length owns.old.items }
    requires tree { All (λ own. AllByRecursion (IsPathOf own.ranked) paths.items) owns.old.items }
    ensures { OnOk result (owns.new.items ≡ with_first paths.items owns.old.items) }
{
    give_paths(&mut owns[0], paths)
}

// Runs each job to its end.
fn run_all<R: Threads + Wait + Sync, G: Gate>(
    rt: &R,
    alloc: Global,
    gate: &G,
    ranked: &Ranked,
    charges: &Charges,
    round: &Round,
    jobs: Vec<Job>,
) -> Result<Vec<JobEnd>, OutOfMemory>
    requires light { All (λ order. order.weight ≤ ranked.now.mill.largest) (orders_of ranked.now) }
    requires reach { Reaches charges.now ranked.now.mill }
    requires jobs { All (IsJobOf ranked.now round.now) jobs.items }
    ensures { IfOk result (λ ends. AllZip (HasWorked ranked.now charges.now round.now) jobs.items
        ends.items) }
{
    let work_on = |job: Job| -> Result<JobEnd, OutOfMemory>
        requires { IsSync G.row
            × All (λ order. order.weight ≤ ranked.now.mill.largest) (orders_of ranked.now)
            × Reaches charges.now ranked.now.mill × IsJobOf ranked.now round.now job }
        ensures { IfOk result (HasWorked ranked.entry.now charges.entry.now round.entry.now job) }
    { work(rt, alloc, gate, ranked, charges, round, job) };
    let results = thread::map_vec(rt, jobs, &work_on)?;
    all_ends(alloc, results)
}

// Ends the workers, their deques and their words. The given pieces come first, then theirs, and the
// plan is the best of the given one and theirs.
fn end_round(
    alloc: Global,
    round: Round,
    ends: Vec<JobEnd>,
    mut pieces: Vec<Piece>,
    start: Start,
    drawn: u64,
) -> Result<Run, OutOfMemory>
    requires { MayEnd round ends.items }
    ensures { IfOk result (HasEnded round pieces.items start drawn ends.items) }
{
    let Parted {
        owns,
        all_thieves,
        seats,
        left,
    } = part(alloc, ends)?;
    let tickets = close_round(round, seats);
    let mut unclosed = Vec::new(alloc);
    let best = gather_work(left, &mut pieces, &mut unclosed, start)?;
    let mut in_deques = end_deques(alloc, owns, all_thieves)?;
    unclosed.append(&mut in_deques)?;
    Ok(Run {
        pieces,
        unclosed,
        plan: best.plan,
        loss: best.loss,
        drawn: drawn.saturating_add(tickets),
    })
}
