//! Workers that run in threads, many times over: what they leave, counted plainly.
ghost use Rattle.std.specs.Prelude.{◌≤◌};

use crate::grid::instance_of;
use crate::least::{least_loss, load_loss};
use crate::setting::{Setting, path_of};
use mill_model::{Closing, Instance, Limits, OutOfMemory};
use refute_log::Run;
use split_tree::NodeState;
use std::alloc::Global;
use std::sync::Wait;
use std::test::Fail;
use std::thread::Threads;
use steal_workers::{OpenGate, run_workers};

// What is seen of a run.
#[derive(Clone, Copy, Debug, Drop, PartialEq, Eq)]
struct RunFacts {
    loss: u64,
    // What its plan loses.
    of_plan: Option<u64>,
    records: usize,
    // Whether the recorded and the open paths, each there once, are the empty path and the children
    // of the split ones.
    is_conserved: bool,
    // Whether the log of its pieces refutes the loss; nothing where a path is left.
    refutes: Option<bool>,
}

// What four workers leave, if there is a plan to start from.
fn seen<R: Threads + Wait + Sync>(
    rt: &R,
    alloc: Global,
    setting: &Setting,
    nodes: u64,
) -> Result<Option<RunFacts>, OutOfMemory>
    requires { nodes ≤ 1000000000 }
{
    let Some(start) = setting.each_alone(alloc)? else {
        return Ok(None);
    };
    let limits = Limits {
        nodes,
        moves: 0,
        workers: 4,
    };
    let Setting {
        ranked,
        charges,
        ..
    } = setting;
    let run = run_workers(rt, alloc, ranked, charges, start, limits, &OpenGate)?;
    let told = paths_of(alloc, &run)?;
    let due = due_paths(alloc, setting, &run)?;
    let loss = run.loss;
    let of_plan = plan_loss(&setting.instance, run.plan.slabs());
    let records = told.len().saturating_sub(run.unclosed.len());
    let refutes = setting.refutes(alloc, run)?;
    Ok(Some(RunFacts {
        loss,
        of_plan,
        records,
        is_conserved: are_each_once(&told, &due),
        refutes,
    }))
}

// The recorded and the open paths.
fn paths_of(alloc: Global, run: &Run) -> Result<Vec<Vec<u16>>, OutOfMemory> {
    let mut paths = Vec::new(alloc);
    for piece in &run.pieces {
        for entry in piece.entries() {
            paths.push(entry.path.numbers().to_vec(alloc)?)?;
        }
    }
    for path in &run.unclosed {
        paths.push(path.numbers().to_vec(alloc)?)?;
    }
    Ok(paths)
}

// The empty path and the children of those that a run has split.
fn due_paths(alloc: Global, setting: &Setting, run: &Run) -> Result<Vec<Vec<u16>>, OutOfMemory> {
    let mut paths = Vec::new(alloc);
    paths.push(Vec::new(alloc))?;
    for piece in &run.pieces {
        for entry in piece.entries() {
            if matches!(entry.closing, Closing::Split) {
                push_children(alloc, setting, entry.path.numbers(), &mut paths)?;
            }
        }
    }
    Ok(paths)
}

// Appends the children of a path.
fn push_children(
    alloc: Global,
    setting: &Setting,
    numbers: &[u16],
    paths: &mut Vec<Vec<u16>>,
) -> Result<(), OutOfMemory> {
    let path = path_of(alloc, &setting.ranked, numbers)?;
    let node = NodeState::of(alloc, &setting.ranked, &path)?;
    if node.depth() < setting.ranked.len() {
        let children = node.children(alloc)?;
        for child in &children {
            paths.push(child.numbers().to_vec(alloc)?)?;
        }
    }
    Ok(())
}

// How often a path stands among some.
fn count(path: &[u16], paths: &[Vec<u16>]) -> usize {
    let mut count = 0usize;
    for other in paths {
        if other.as_slice() == path {
            count = count.saturating_add(1);
        }
    }
    count
}

// Whether the same paths stand in both, each once.
fn are_each_once(paths: &[Vec<u16>], others: &[Vec<u16>]) -> bool {
    let mut same = paths.len() == others.len();
    for path in paths {
        same = same && count(path, paths) == 1 && count(path, others) == 1;
    }
    same
}

// What a plan of at most eight slabs loses, if a size holds each of its loads.
fn plan_loss(instance: &Instance, slabs: &[u16]) -> Option<u64> {
    let mut loss = 0u64;
    for number in 0..8u16 {
        let mut load = 0u32;
        for (order, &slab) in instance.orders().iter().zip(slabs) {
            if slab == number {
                load = load.saturating_add(order.weight);
            }
        }
        loss = loss.saturating_add(load_loss(instance.sizes(), load)?);
    }
    Some(loss)
}

// Five orders of five kinds of the grid, on slabs of two colours.
fn five_orders(alloc: Global) -> Result<Option<Setting>, OutOfMemory> {
    Setting::of(alloc, instance_of(alloc, &[4], 2, 0b101_0101_1001)?)
}

#[test]
fn a_budget_in_the_middle_leaves_as_many_records(rt: HostRuntime) -> Result<(), Fail> {
    let alloc = rt.alloc();
    let Some(setting) = five_orders(alloc)? else {
        panic!(rt; "each order fits a slab");
    };
    for turn in 0..100u32 {
        let Some(seen) = seen(&rt, alloc, &setting, 5)? else {
            panic!(rt; "there is a plan to start from");
        };
        let as_it_is_to_be = RunFacts {
            loss: seen.loss,
            of_plan: Some(seen.loss),
            records: 5,
            is_conserved: true,
            refutes: None,
        };
        assert_eq!(rt; seen, as_it_is_to_be, "turn {turn}");
    }
    Ok(())
}

#[test]
fn a_whole_run_refutes_each_lesser_loss(rt: HostRuntime) -> Result<(), Fail> {
    let alloc = rt.alloc();
    let Some(setting) = five_orders(alloc)? else {
        panic!(rt; "each order fits a slab");
    };
    let least = least_loss(&setting.instance);
    for turn in 0..100u32 {
        let Some(seen) = seen(&rt, alloc, &setting, 1_000_000)? else {
            panic!(rt; "there is a plan to start from");
        };
        assert_eq!(rt;
            (Some(seen.loss), seen.of_plan),
            (least, least),
            "turn {turn}"
        );
        assert_eq!(rt;
            (seen.is_conserved, seen.refutes),
            (true, Some(true)),
            "turn {turn}"
        );
    }
    Ok(())
}
