//! Workers that run in threads: that they close paths beside each other, that a gate holds a worker
//! before it closes a path, and that each ticket passes it once. No clause says so.

use crate::small_run::{THREE_ORDERS, record_count};
use mill_io::{MemSink, MemSource};
use mill_model::{OutOfMemory, Path};
use refute_log::Run;
use slab_top::{Gate, OpenGate, run};
use std::alloc::Global;
use std::hint;
use std::sync::Wait;
use std::sync::atomic::{AtomicBool, AtomicU64, Ordering};
use std::test::Fail;
use std::thread::Threads;

// What a call ended with, what it wrote, and the run that it handed out.
#[derive(Drop)]
struct End {
    status: u8,
    text: Vec<u8>,
    kept: Option<Run>,
}

// The end of a call with words and an input.
fn ended<R: Threads + Wait + Sync, G: Gate>(
    rt: &R,
    alloc: Global,
    words: &str,
    input: &[u8],
    gate: &G,
) -> Result<End, OutOfMemory> {
    let mut list = Vec::new(alloc);
    for word in words.split(' ') {
        list.push(String::from_str(alloc, word)?)?;
    }
    let mut source = MemSource::new(alloc, input, 4096, &[])?;
    let mut sink = MemSink::new(alloc, 4096, &[])?;
    let mut kept = None;
    let status = run(rt, alloc, &list, &mut source, &mut sink, gate, &mut kept);
    let text = sink.bytes().to_vec(alloc)?;
    Ok(End { status, text, kept })
}

// Holds the first worker that comes with a path of length 2, until another one comes with one.
#[derive(Drop)]
struct TillAnotherComes {
    // The number of the held worker and one more, or 0 where none was held yet.
    held: AtomicU64,
    other_came: AtomicBool,
    was_seen: AtomicBool,
}

impl TillAnotherComes {
    fn new() -> Self {
        TillAnotherComes {
            held: AtomicU64::new(0),
            other_came: AtomicBool::new(false),
            was_seen: AtomicBool::new(false),
        }
    }

    // Looks again and again whether another worker came.
    fn wait_for_another(&self) {
        for _look in 0..1_000_000_000u32 {
            if self.other_came.load(Ordering::SeqCst) {
                self.was_seen.store(true, Ordering::SeqCst);
                return;
            }
            hint::spin_loop();
        }
    }
}

impl Gate for TillAnotherComes {
    fn pass(&self, worker: u16, path: &Path) {
        if path.numbers().len() != 2 {
            return;
        }
        let own = u64::from(worker) + 1;
        let first = self
            .held
            .compare_exchange(0, own, Ordering::SeqCst, Ordering::SeqCst);
        match first {
            Ok(_) => self.wait_for_another(),
            Err(held) if held != own => self.other_came.store(true, Ordering::SeqCst),
            Err(_) => {}
        }
    }
}

// While one worker is held with a path of length 2, another one closes the other such path, which
// it has stolen.
#[test]
fn two_workers_close_beside_each_other(rt: HostRuntime) -> Result<(), Fail> {
    let alloc = rt.alloc();
    let gate = TillAnotherComes::new();
    let input = THREE_ORDERS.as_bytes();
    let end = ended(&rt, alloc, "prove --workers 2", input, &gate)?;
    assert_eq!(rt; end.status, 0);
    assert!(rt; gate.was_seen.load(Ordering::SeqCst));
    Ok(())
}

// Holds worker 1 each time that it comes, until worker 0 has come twice.
#[derive(Drop)]
struct TillWorkerZeroCameTwice {
    times: AtomicU64,
}

impl Gate for TillWorkerZeroCameTwice {
    fn pass(&self, worker: u16, _path: &Path) {
        if worker == 0 {
            self.times.fetch_add(1, Ordering::SeqCst);
            return;
        }
        for _look in 0..1_000_000u32 {
            if self.times.load(Ordering::SeqCst) >= 2 {
                return;
            }
            hint::spin_loop();
        }
    }
}

// The budget is spent while one of both workers is held, and the answer is that of one worker.
#[test]
fn a_held_worker_changes_no_answer(rt: HostRuntime) -> Result<(), Fail> {
    let alloc = rt.alloc();
    let gate = TillWorkerZeroCameTwice {
        times: AtomicU64::new(0),
    };
    let words = "prove --workers 2 --nodes 3";
    let end = ended(&rt, alloc, words, THREE_ORDERS.as_bytes(), &gate)?;
    let text: &[u8] = b"feasible\nloss 4\nplan 1 2 1\nspent 3\nend\n";
    assert_eq!(rt; (end.status, end.text.as_slice()), (4, text));
    assert_eq!(rt; end.kept.as_ref().map(record_count), Some(3));
    Ok(())
}

// Counts how often any worker comes.
#[derive(Drop)]
struct CountsPasses {
    passes: AtomicU64,
}

impl Gate for CountsPasses {
    fn pass(&self, _worker: u16, _path: &Path) {
        self.passes.fetch_add(1, Ordering::SeqCst);
    }
}

// Four workers spend a budget in the middle of the tree. The gate was passed as often as tickets
// were spent, whichever worker drew them, and not by the draws past the budget.
#[test]
fn each_ticket_passes_the_gate_once(rt: HostRuntime) -> Result<(), Fail> {
    let alloc = rt.alloc();
    for spent in 0..4u64 {
        let gate = CountsPasses {
            passes: AtomicU64::new(0),
        };
        let words = format!(in alloc; "solve --workers 4 --nodes {spent}")?;
        let end = ended(&rt, alloc, &words, THREE_ORDERS.as_bytes(), &gate)?;
        let told = format!(in alloc; "spent {spent}\nend\n")?;
        assert_eq!(rt; end.status, 4, "{spent}");
        assert!(rt; end.text.ends_with(told.as_bytes()), "{spent}");
        assert_eq!(rt; gate.passes.load(Ordering::SeqCst), spent, "{spent}");
    }
    Ok(())
}

// Many more workers than there are paths.
#[test]
fn eight_workers_prove_and_are_verified(rt: HostRuntime) -> Result<(), Fail> {
    let alloc = rt.alloc();
    let mut input = THREE_ORDERS.as_bytes().to_vec(alloc)?;
    let end = ended(&rt, alloc, "prove --workers 8", &input, &OpenGate)?;
    assert_eq!(rt; (end.status, end.kept.is_none()), (0, true));
    assert!(rt; end.text.starts_with(b"optimal\nloss 4\nplan 1 2 1\nlog "));
    input.extend_from_slice(&end.text)?;
    let judged = ended(&rt, alloc, "verify", &input, &OpenGate)?;
    let line: &[u8] = b"verified loss 4\n";
    assert_eq!(rt; (judged.status, judged.text.as_slice()), (0, line));
    Ok(())
}

// A hundred searches of which each spends its budget in the middle of the tree: whichever worker
// drew the tickets, each of them is a record, and a path is left.
#[test]
fn each_ticket_is_a_record(rt: HostRuntime) -> Result<(), Fail> {
    let alloc = rt.alloc();
    let input = THREE_ORDERS.as_bytes();
    for time in 0..100u32 {
        for nodes in 0..4usize {
            let words = format!(in alloc; "solve --workers 4 --nodes {nodes}")?;
            let end = ended(&rt, alloc, &words, input, &OpenGate)?;
            assert_eq!(rt; end.status, 4, "{time} {nodes}");
            let Some(run) = &end.kept else {
                panic!(rt; "a run is handed out");
            };
            assert_eq!(rt; record_count(run), nodes, "{time} {nodes}");
            assert!(rt; !run.unclosed.is_empty(), "{time} {nodes}");
        }
    }
    Ok(())
}
