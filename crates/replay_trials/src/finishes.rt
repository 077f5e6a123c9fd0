//! What a run left is closed by one further worker.
ghost use Rattle.std.specs.Prelude.{◌≤◌};

use crate::grid::three_orders;
use crate::setting::{Setting, path_of};
use core_replay::finish;
use mill_model::{Limits, OutOfMemory, Path};
use refute_log::Run;
use std::alloc::Global;
use std::test::Fail;

// What is seen of a run.
#[derive(Clone, Copy, Debug, Drop, PartialEq, Eq)]
struct Seen {
    pieces: usize,
    unclosed: usize,
    loss: u64,
    drawn: u64,
}

// A run of three orders that closed nothing, from the plan 0, 1, 0, is finished with so many
// tickets. In rank the orders stand 2, 0, 1, so this is the plan of the path 0, 0, 1.
fn finished(alloc: Global, nodes: u64) -> Result<Option<Seen>, OutOfMemory>
    requires { nodes ≤ 1000000000 }
{
    let Some(setting) = Setting::of(alloc, three_orders(alloc)?)? else {
        return Ok(None);
    };
    let leaf = path_of(alloc, &setting.ranked, &[0, 0, 1])?;
    let Some(start) = setting.start_at(alloc, &leaf)? else {
        return Ok(None);
    };
    let mut unclosed = Vec::with_capacity(alloc, 1)?;
    unclosed.push(Path::root(alloc))?;
    let given = Run {
        pieces: Vec::new(alloc),
        unclosed,
        plan: start.plan,
        loss: start.loss,
        drawn: 0,
    };
    let limits = Limits {
        nodes,
        moves: 0,
        workers: 1,
    };
    let run = finish(alloc, &setting.ranked, &setting.charges, given, limits)?;
    Ok(Some(Seen {
        pieces: run.pieces.len(),
        unclosed: run.unclosed.len(),
        loss: run.loss,
        drawn: run.drawn,
    }))
}

// Two slabs are needed for three colours, and lose 8 less the weights.
#[test]
fn one_more_worker_closes_what_is_left(rt: HostRuntime) -> Result<(), Fail> {
    let alloc = rt.alloc();
    let whole = finished(alloc, 10)?.map(|seen| (seen.pieces, seen.unclosed, seen.loss));
    assert_eq!(rt; whole, Some((1, 0, 4)));
    Ok(())
}

#[test]
fn without_a_ticket_the_path_is_left(rt: HostRuntime) -> Result<(), Fail> {
    let seen = finished(rt.alloc(), 0)?;
    let nothing_closed = Seen {
        pieces: 1,
        unclosed: 1,
        loss: 4,
        drawn: 1,
    };
    assert_eq!(rt; seen, Some(nothing_closed));
    Ok(())
}
