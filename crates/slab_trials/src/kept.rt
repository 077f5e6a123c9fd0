//! The run behind a feasible answer is handed out, whoever closed its paths, and else none is.

use crate::small_run::{THREE_ORDERS, record_count};
use mill_io::{MemSink, MemSource};
use mill_model::OutOfMemory;
use refute_log::Run;
use slab_top::{needs_threads, run_plain};
use std::alloc::Global;
use std::test::Fail;

// The status for words that need no threads and an input; what was kept before is let go. Other
// words have a status here that no call ends with.
fn status_of(
    alloc: Global,
    words: &str,
    input: &str,
    kept: &mut Option<Run>,
) -> Result<u8, OutOfMemory> {
    let mut list = Vec::new(alloc);
    for word in words.split(' ') {
        list.push(String::from_str(alloc, word)?)?;
    }
    if needs_threads(&list) {
        return Ok(u8::MAX);
    }
    let mut source = MemSource::new(alloc, input.as_bytes(), 4096, &[])?;
    let mut sink = MemSink::new(alloc, 4096, &[])?;
    Ok(run_plain(alloc, &list, &mut source, &mut sink, kept))
}

// With one ticket the empty path is closed by the worker that the schedule names first, and by
// worker 0 where it names none.
#[test]
fn the_schedule_says_who_closes(rt: HostRuntime) -> Result<(), Fail> {
    let alloc = rt.alloc();
    for (schedule, worker) in [("schedule 1 1 1 1", 1usize), ("schedule", 0)] {
        let input = format!(in alloc; "{THREE_ORDERS}{schedule}\n")?;
        let mut kept = None;
        let status = status_of(alloc, "replay --workers 2 --nodes 1", &input, &mut kept)?;
        assert_eq!(rt; (status, kept.is_some()), (4, true), "{schedule}");
        if let Some(run) = &kept {
            assert_eq!(rt; run.pieces.len(), 2, "{schedule}");
            let records = match run.pieces.get(worker) {
                Some(piece) => piece.entries().len(),
                None => 0,
            };
            assert_eq!(rt; records, 1, "{schedule}");
            assert_eq!(rt; record_count(run), 1, "{schedule}");
        }
    }
    Ok(())
}

// A budget below four records is spent on as many, and some path is left.
#[test]
fn each_small_budget_is_spent(rt: HostRuntime) -> Result<(), Fail> {
    let alloc = rt.alloc();
    let input = format!(in alloc; "{THREE_ORDERS}schedule 0 2 1 1 2 0\n")?;
    let mut kept = None;
    for nodes in 0..9usize {
        let words = format!(in alloc; "replay --workers 3 --nodes {nodes}")?;
        let status = status_of(alloc, &words, &input, &mut kept)?;
        assert_eq!(rt; status, if nodes < 4 { 4 } else { 0 }, "{nodes}");
        assert_eq!(rt; kept.is_some(), nodes < 4, "{nodes}");
        if let Some(run) = &kept {
            assert_eq!(rt; record_count(run), nodes, "{nodes}");
            assert!(rt; !run.unclosed.is_empty(), "{nodes}");
            assert_eq!(rt; run.loss, 4, "{nodes}");
        }
    }
    Ok(())
}

// Each row: words and an input that aren't answered by a feasible plan, and the status.
#[test]
fn other_statuses_keep_no_run(rt: HostRuntime) -> Result<(), Fail> {
    let alloc = rt.alloc();
    let rows = [
        ("solve", THREE_ORDERS, 0),
        ("prove", "1 4 1 1 5 1", 1),
        ("melt", "", 2),
        ("replay", THREE_ORDERS, 3),
        ("check", "1 4 1 1 4 1\noptimal\nloss 1\nplan 1\nend\n", 8),
    ];
    for (words, input, status) in rows {
        let mut kept = None;
        let before = status_of(alloc, "prove --nodes 0", THREE_ORDERS, &mut kept)?;
        assert_eq!(rt; (before, kept.is_some()), (4, true));
        let found = status_of(alloc, words, input, &mut kept)?;
        assert_eq!(rt; (found, kept.is_some()), (status, false), "{words}");
    }
    Ok(())
}
