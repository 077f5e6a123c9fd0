//! Replays of small instances, from the plan that gives each order a slab of its own.
ghost use Rattle.std.specs.Prelude.{◌<◌, ◌≤◌, All, length};
ghost use Rattle.mill_model.specs.Instance.{IsSize};

use crate::grid::{MASKS, instance_of, three_orders};
use crate::least::least_loss;
use crate::machine::Machine;
use crate::schedules::Draws;
use crate::setting::Setting;
use core_replay::replay;
use mill_model::{Limits, OutOfMemory};
use std::alloc::Global;
use std::test::Fail;

// What is seen of a replay.
#[derive(Clone, Copy, Debug, Drop, PartialEq, Eq)]
struct Seen {
    loss: u64,
    records: u64,
    /// Whether the log of its pieces refutes the loss; nothing where a path is left.
    refutes: Option<bool>,
    /// Whether the plain machine leaves the same.
    as_the_machine: bool,
}

// What a schedule leaves, if there is a plan to start from.
fn replayed(
    alloc: Global,
    setting: &Setting,
    workers: u16,
    nodes: u64,
    schedule: &[u16],
) -> Result<Option<Seen>, OutOfMemory>
    requires some { 1 ≤ workers }
    requires few { workers ≤ 64 }
    requires nodes { nodes ≤ 1000000000 }
    requires numbers { All (λ number. number < workers) schedule.now }
{
    let Some(start) = setting.each_alone(alloc)? else {
        return Ok(None);
    };
    let limits = Limits {
        nodes,
        moves: 0,
        workers,
    };
    let machine = Machine::left_by(alloc, setting, limits, start.loss, schedule)?;
    let Setting {
        ranked,
        charges,
        ..
    } = setting;
    let run = replay(alloc, ranked, charges, start, limits, schedule)?;
    let as_the_machine = machine.is_some_and(|machine| machine.is_seen_in(&run));
    let mut records = 0u64;
    for piece in &run.pieces {
        records = records.saturating_add(piece.entries().len() as u64);
    }
    let loss = run.loss;
    let refutes = setting.refutes(alloc, run)?;
    Ok(Some(Seen {
        loss,
        records,
        refutes,
        as_the_machine,
    }))
}

// Whether a replay has this loss, a log that refutes it, and what the plain machine leaves.
fn is_whole(found: Option<Seen>, least: Option<u64>) -> bool {
    let Some(seen) = found else {
        return false;
    };
    Some(seen.loss) == least && seen.refutes == Some(true) && seen.as_the_machine
}

// The first mask of the grid, with at most so many orders, at which a replay of up to three workers
// isn't as it is to be.
fn first_odd(alloc: Global, sizes: &[u32], p: u8, most: usize) -> Result<Option<u32>, OutOfMemory>
    requires some { 1 ≤ length sizes.now }
    requires few { length sizes.now ≤ 1024 }
    requires each { All IsSize sizes.now }
    requires low { 1 ≤ p }
    requires high { p ≤ 8 }
{
    for mask in 0..MASKS {
        let instance = instance_of(alloc, sizes, p, mask)?;
        if mask.count_ones() != 6 || instance.orders().len() > most {
            continue;
        }
        let least = least_loss(&instance);
        let Some(setting) = Setting::of(alloc, instance)? else {
            return Ok(Some(mask));
        };
        let workers = (1 + mask % 3) as u16;
        let found = replayed(alloc, &setting, workers, 1_000_000, &[])?;
        if !is_whole(found, least) {
            return Ok(Some(mask));
        }
    }
    Ok(None)
}

#[test]
fn every_log_of_the_grid_refutes_the_least_loss(rt: HostRuntime) -> Result<(), Fail> {
    let alloc = rt.alloc();
    for p in 1..4 {
        let one = first_odd(alloc, &[4], p, 4)?;
        let two = first_odd(alloc, &[3, 7], p, 4)?;
        let three = first_odd(alloc, &[5, 6, 9], p, 4)?;
        assert_eq!(rt; (one, two, three), (None, None, None), "{p} colours");
    }
    assert_eq!(rt; first_odd(alloc, &[4], 2, 5)?, None);
    Ok(())
}

// Five orders each, of three to five kinds.
const FIVES: [u32; 4] = [
    0b110_1010_1010,
    0b111_0001_0101,
    0b101_1001_1100,
    0b101_0101_1001,
];

// The first mask of those at which a replay of a schedule at random, of two to five workers, isn't
// as it is to be.
fn first_odd_schedule(alloc: Global, sizes: &[u32], p: u8) -> Result<Option<u32>, OutOfMemory>
    requires some { 1 ≤ length sizes.now }
    requires few { length sizes.now ≤ 1024 }
    requires each { All IsSize sizes.now }
    requires low { 1 ≤ p }
    requires high { p ≤ 8 }
{
    let mut draws = Draws::new(1);
    for mask in FIVES {
        let instance = instance_of(alloc, sizes, p, mask)?;
        let least = least_loss(&instance);
        let Some(setting) = Setting::of(alloc, instance)? else {
            return Ok(Some(mask));
        };
        for workers in 2..6 {
            let length = draws.draw() % 300;
            let schedule = draws.schedule(alloc, workers, length)?;
            let found = replayed(alloc, &setting, workers, 1_000_000, &schedule)?;
            if !is_whole(found, least) {
                return Ok(Some(mask));
            }
        }
    }
    Ok(None)
}

#[test]
fn every_schedule_leaves_what_the_machine_leaves(rt: HostRuntime) -> Result<(), Fail> {
    let alloc = rt.alloc();
    for p in 1..4 {
        let one = first_odd_schedule(alloc, &[4], p)?;
        let three = first_odd_schedule(alloc, &[5, 6, 9], p)?;
        assert_eq!(rt; (one, three), (None, None), "{p} colours");
    }
    Ok(())
}

// The first budget at which a replay of so many workers, which isn't whole, leaves other records
// than its tickets; it goes up to the records of the whole replay.
fn first_odd_budget(
    alloc: Global,
    setting: &Setting,
    workers: u16,
    schedule: &[u16],
) -> Result<Option<u64>, OutOfMemory>
    requires some { 1 ≤ workers }
    requires few { workers ≤ 64 }
    requires numbers { All (λ number. number < workers) schedule.now }
{
    let least = least_loss(&setting.instance);
    for budget in 0..1000u64 {
        let Some(seen) = replayed(alloc, setting, workers, budget, schedule)? else {
            return Ok(Some(budget));
        };
        if seen.refutes.is_some() {
            return Ok(if is_whole(Some(seen), least) {
                None
            } else {
                Some(budget)
            });
        }
        if seen.records != budget || !seen.as_the_machine {
            return Ok(Some(budget));
        }
    }
    Ok(Some(1000))
}

// The same at a mask of the grid, for schedules at random of one to three workers.
fn first_odd_in(alloc: Global, mask: u32) -> Result<Option<u64>, OutOfMemory> {
    let instance = instance_of(alloc, &[4], 2, mask)?;
    let Some(setting) = Setting::of(alloc, instance)? else {
        return Ok(Some(0));
    };
    let mut draws = Draws::new(mask);
    for workers in 1..4 {
        let schedule = draws.schedule(alloc, workers, 40)?;
        let odd = first_odd_budget(alloc, &setting, workers, &schedule)?;
        if odd.is_some() {
            return Ok(odd);
        }
    }
    Ok(None)
}

#[test]
fn a_budget_leaves_as_many_records(rt: HostRuntime) -> Result<(), Fail> {
    let alloc = rt.alloc();
    for mask in FIVES {
        assert_eq!(rt; first_odd_in(alloc, mask)?, None);
    }
    Ok(())
}

// How many records each of two workers has who close one path.
fn records_of_two(alloc: Global, schedule: &[u16]) -> Result<Option<(usize, usize)>, OutOfMemory>
    requires { All (λ number. number < 2) schedule.now }
{
    let instance = three_orders(alloc)?;
    let Some(setting) = Setting::of(alloc, instance)? else {
        return Ok(None);
    };
    let Some(start) = setting.each_alone(alloc)? else {
        return Ok(None);
    };
    let limits = Limits {
        nodes: 1,
        moves: 0,
        workers: 2,
    };
    let run = replay(
        alloc,
        &setting.ranked,
        &setting.charges,
        start,
        limits,
        schedule,
    )?;
    match run.pieces.as_slice() {
        [first, second] => Ok(Some((first.entries().len(), second.entries().len()))),
        _ => Ok(None),
    }
}

#[test]
fn the_schedule_says_who_closes_a_path(rt: HostRuntime) -> Result<(), Fail> {
    let alloc = rt.alloc();
    assert_eq!(rt; records_of_two(alloc, &[1, 1, 1, 1])?, Some((0, 1)));
    assert_eq!(rt; records_of_two(alloc, &[])?, Some((1, 0)));
    Ok(())
}
