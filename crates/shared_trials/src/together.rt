//! Eight threads, each with a deque of its own, publish, look, draw, push, pop and steal from one
//! another.
ghost use Rattle.std.specs.Prelude.{◌≡◌, ◌≤◌, ◌+◌, true, All, IfOk, IsNone, map, vec_len};
ghost use Rattle.mill_model.specs.Tree.{in_tree};
ghost use Rattle.order_symmetry.specs.Ranked.{orders_of};
ghost use Rattle.shared_trials.specs.Trials.{AreSeatsOf, IsUnlent};

use crate::ends::{Ends, Flow, Numbering, deal, deques, end_all};
use crate::paths::{three_orders, two_paths};
use crate::words::{BUDGET, ROUNDS, START, Seats, WORKERS, all_seats, join_all};
use mill_model::{OutOfMemory, Path};
use order_symmetry::Ranked;
use shared_words::{Best, Meter};
use std::alloc::Global;
use std::marker::Brand;
use std::process::Abort;
use std::test::Fail;
use std::thread;
use std::thread::Threads;
use steal_deques::Own;

#[derive(Drop)]
struct Worker<J: Numbering> {
    seats: Seats,
    ends: Ends<J>,
}

fn play<J: Numbering>(
    best: &Best,
    meter: &Meter,
    paths: &[Path],
    mut worker: Worker<J>,
) -> Worker<J>
    requires seats { AreSeatsOf best.now meter.now worker.seats.loss worker.seats.ticket }
    requires spend { IsNone worker.seats.past → 1 ≤ worker.seats.ticket.spends }
    requires inside { All (λ path. in_tree J.ranked.mill (orders_of J.ranked) path ≡ true)
        paths.now }
    ensures { AreSeatsOf best.now meter.now result.seats.loss result.seats.ticket }
{
    for round in 0..ROUNDS {
        worker.seats.count(best, meter, round);
        worker.ends.play(paths, round);
    }
    worker
}

// Each worker's seats and ends, of which there are as many.
fn pair<J: Numbering>(
    alloc: Global,
    best: &Best,
    meter: &Meter,
    mut seats: Vec<Seats>,
    mut ends: Vec<Ends<J>>,
) -> Result<Vec<Worker<J>>, OutOfMemory>
    requires each { All (λ s. AreSeatsOf best.now meter.now s.loss s.ticket
        × (IsNone s.past → 1 ≤ s.ticket.spends)) seats.items }
    ensures len { IfOk result (λ workers. vec_len workers ≡ vec_len seats) }
    ensures each { IfOk result (λ workers. All (λ worker. AreSeatsOf best.now meter.now
        worker.seats.loss worker.seats.ticket
        × (IsNone worker.seats.past → 1 ≤ worker.seats.ticket.spends)) workers.items) }
{
    let _ = best;
    let _ = meter;
    let mut workers = Vec::new(alloc);
    while let Some(seats) = seats.pop() {
        let ends = ends.pop().ok_or(OutOfMemory)?;
        workers.push(Worker { seats, ends })?;
    }
    Ok(workers)
}

// The seats and the ends of all workers.
#[derive(Drop)]
struct Parted<J: Numbering> {
    seats: Vec<Seats>,
    ends: Vec<Ends<J>>,
}

fn part<J: Numbering>(
    alloc: Global,
    best: &Best,
    meter: &Meter,
    mut workers: Vec<Worker<J>>,
) -> Result<Parted<J>, OutOfMemory>
    requires { All (λ worker. AreSeatsOf best.now meter.now worker.seats.loss worker.seats.ticket)
        workers.items }
    ensures len { IfOk result (λ parted. vec_len parted.seats ≡ vec_len workers) }
    ensures each { IfOk result (λ parted. All (λ s. AreSeatsOf best.now meter.now s.loss s.ticket)
        parted.seats.items) }
{
    let _ = best;
    let _ = meter;
    let mut seats = Vec::new(alloc);
    let mut ends = Vec::new(alloc);
    while let Some(worker) = workers.pop() {
        seats.push(worker.seats)?;
        ends.push(worker.ends)?;
    }
    Ok(Parted { seats, ends })
}

fn all_play<J: Numbering + Send + Sync, R: Threads + Abort + Sync>(
    rt: &R,
    alloc: Global,
    ranked: &Ranked,
    paths: &[Path],
    owns: Vec<Own>,
) -> Result<(), Fail>
    requires which { J.deques ≡ map (λ own. own.deque) owns.items }
    requires orders { J.ranked ≡ ranked.now }
    requires unlent { All (IsUnlent ranked.now) owns.items }
    requires inside { All (λ path. in_tree ranked.now.mill (orders_of ranked.now) path ≡ true)
        paths.now }
{
    let _ = ranked;
    let (best, mut loss) = Best::new(alloc, START, WORKERS + 1)?;
    let (meter, mut ticket) = Meter::new(alloc, BUDGET, WORKERS + 1)?;
    let seats = all_seats(alloc, &best, &meter, &mut loss, &mut ticket)?;
    let workers = pair(alloc, &best, &meter, seats, deal::<J>(alloc, owns)?)?;
    let (shared, counted) = (&best, &meter);
    let workers = thread::map_vec(
        rt,
        workers,
        &|worker: Worker<J>| -> Worker<J>
            requires { AreSeatsOf shared.now counted.now worker.seats.loss worker.seats.ticket
                × (IsNone worker.seats.past → 1 ≤ worker.seats.ticket.spends)
                × All (λ path. in_tree J.ranked.mill (orders_of J.ranked) path ≡ true) paths.now }
            ensures { AreSeatsOf shared.entry.now counted.entry.now result.seats.loss
                result.seats.ticket }
        { play(shared, counted, paths, worker) },
    )?;
    let Parted { seats, ends } = part(alloc, &best, &meter, workers)?;
    let joined = join_all(alloc, &best, &meter, &mut loss, &mut ticket, seats)?;
    let (least, drawn) = (best.close(loss), meter.close(ticket));
    joined.agree_with(rt, least, drawn)?;
    let Flow { pushed, gone } = end_all(alloc, ends)?.ok_or("all thieves are back")?;
    let pushes = u64::from(WORKERS) * ROUNDS / 2;
    assert_eq!(rt;
        (pushed.zero, pushed.one, pushed.other),
        (pushes, pushes, 0)
    );
    assert_eq!(rt; gone, pushed);
    Ok(())
}

#[test]
fn eight_threads_do_all(rt: HostRuntime) -> Result<(), Fail> {
    let alloc = rt.alloc();
    let ranked = three_orders(alloc)?;
    let paths = two_paths(alloc, &ranked)?;
    assert_eq!(rt; paths.len(), 2);
    let owns = deques(alloc, &ranked)?;
    all_play::<Brand, _>(&rt, alloc, &ranked, &paths, owns)
}
