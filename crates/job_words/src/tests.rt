//! Words and the jobs that they ask for, words that ask for nothing, and the usage line.

use super::*;
use mill_io::{Failed, MemSink, Sink};
use mill_model::{Limits, OutOfMemory};
use std::alloc::Global;
use std::test::Fail;

const USAGE: &str =
    "usage: mill_slab solve|prove|check|verify|replay|drill [--workers N] [--nodes N] \
    [--colours N] [--moves N] [--seed N] [--orders N]\n";

// The words of a row.
fn words_of(alloc: Global, row: &[&str]) -> Result<Vec<String>, OutOfMemory> {
    let mut words = Vec::new(alloc);
    for word in row {
        words.push(String::from_str(alloc, word)?)?;
    }
    Ok(words)
}

// Each row: words that ask for nothing, and the place of the first wrong or missing one.
#[test]
fn other_words_ask_for_nothing(rt: HostRuntime) -> Result<(), Fail> {
    let alloc = rt.alloc();
    let rows: [(&[&str], usize); 31] = [
        (&[], 0),
        (&["SOLVE", "solve"], 0),
        (&["replays"], 0),
        (&["drills"], 0),
        (&["--seed", "1", "drill"], 0),
        (&["--colours", "1", "solve"], 0),
        (&["verify", "--nodes", "5"], 1),
        (&["solve", ""], 1),
        (&["check", "--workers", "1"], 1),
        (&["check", "--moves", "1"], 1),
        (&["verify", "--workers", "2"], 1),
        (&["replay", "--seed", "1"], 1),
        (&["solve", "--orders", "3"], 1),
        (&["solve", "--colours=1"], 1),
        (&["solve", "--nodes"], 2),
        (&["solve", "--nodes", "-1"], 2),
        (&["solve", "--nodes", "1000000001"], 2),
        (&["prove", "--moves", "1000001"], 2),
        (&["drill", "--seed", "4294967296"], 2),
        (&["drill", "--orders", "1025"], 2),
        (&["check", "--colours"], 2),
        (&["solve", "--colours", "0"], 2),
        (&["solve", "--colours", "9", "--bad"], 2),
        (&["solve", "--colours", "+1"], 2),
        (&["solve", "--colours", "18446744073709551617"], 2),
        (&["replay", "--workers", "0"], 2),
        (&["solve", "--workers", "65"], 2),
        (&["prove", "--nodes", "1", "--nodes", "1"], 3),
        (&["solve", "--moves", "1", "--moves", "2"], 3),
        (&["drill", "--seed", "1", "--seed", "1"], 3),
        (&["check", "--colours", "1", "--nodes", "1"], 3),
    ];
    for (row, place) in rows {
        let words = words_of(alloc, row)?;
        assert_eq!(rt; read_words(&words), Err(Usage { word: place }));
    }
    Ok(())
}

// Each row: words, and the command, nodes, moves and colours that they ask for.
#[test]
fn right_words_ask_for_a_job(rt: HostRuntime) -> Result<(), Fail> {
    let rows: [(&[&str], Command, u64, u64, u8); 10] = [
        (&["prove", "--nodes", "3"], Command::Prove, 3, 1000, 2),
        (
            &["verify", "--colours", "1"],
            Command::Verify,
            20_000,
            1000,
            1,
        ),
        (&["solve"], Command::Solve, 20_000, 1000, 2),
        (
            &["check", "--colours", "008"],
            Command::Check,
            20_000,
            1000,
            8,
        ),
        (
            &["solve", "--colours", "00000000000000000000000000000000003"],
            Command::Solve,
            20_000,
            1000,
            3,
        ),
        (&["solve", "--nodes", "0"], Command::Solve, 0, 1000, 2),
        (
            &["solve", "--nodes", "1000000000"],
            Command::Solve,
            1_000_000_000,
            1000,
            2,
        ),
        (
            &["solve", "--colours", "3", "--nodes", "008"],
            Command::Solve,
            8,
            1000,
            3,
        ),
        (&["prove", "--moves", "0"], Command::Prove, 20_000, 0, 2),
        (
            &["solve", "--moves", "1000000", "--nodes", "7"],
            Command::Solve,
            7,
            1_000_000,
            2,
        ),
    ];
    for (row, command, nodes, moves, p) in rows {
        let words = words_of(rt.alloc(), row)?;
        let limits = Limits {
            nodes,
            moves,
            workers: 1,
        };
        let job = Job {
            command,
            limits,
            p,
            seed: 1,
            orders: 40,
        };
        assert_eq!(rt; read_words(&words), Ok(job));
    }
    Ok(())
}

// Each row: words of a search, and the command, workers and nodes that they ask for.
#[test]
fn a_search_takes_workers(rt: HostRuntime) -> Result<(), Fail> {
    let rows: [(&[&str], Command, u16, u64); 5] = [
        (&["replay"], Command::Replay, 1, 20_000),
        (&["solve", "--workers", "64"], Command::Solve, 64, 20_000),
        (
            &["prove", "--nodes", "7", "--workers", "8"],
            Command::Prove,
            8,
            7,
        ),
        (
            &["replay", "--nodes", "7", "--workers", "1"],
            Command::Replay,
            1,
            7,
        ),
        (
            &["replay", "--workers", "003", "--nodes", "0"],
            Command::Replay,
            3,
            0,
        ),
    ];
    for (row, command, workers, nodes) in rows {
        let words = words_of(rt.alloc(), row)?;
        let limits = Limits {
            nodes,
            moves: 1000,
            workers,
        };
        let job = Job {
            command,
            limits,
            p: 2,
            seed: 1,
            orders: 40,
        };
        assert_eq!(rt; read_words(&words), Ok(job));
    }
    Ok(())
}

// Each row: words that search a generated instance, and the job that they ask for.
#[test]
fn drill_takes_each_option(rt: HostRuntime) -> Result<(), Fail> {
    let rows: [(&[&str], u32, u16, u16, u64); 5] = [
        (&["drill"], 1, 40, 1, 20_000),
        (&["drill", "--seed", "0", "--orders", "0"], 0, 0, 1, 20_000),
        (
            &["drill", "--orders", "1024", "--seed", "4294967295"],
            4_294_967_295,
            1024,
            1,
            20_000,
        ),
        (
            &["drill", "--workers", "64", "--orders", "003"],
            1,
            3,
            64,
            20_000,
        ),
        (&["drill", "--nodes", "0", "--seed", "7"], 7, 40, 1, 0),
    ];
    for (row, seed, orders, workers, nodes) in rows {
        let words = words_of(rt.alloc(), row)?;
        let limits = Limits {
            nodes,
            moves: 1000,
            workers,
        };
        let job = Job {
            command: Command::Drill,
            limits,
            p: 2,
            seed,
            orders,
        };
        assert_eq!(rt; read_words(&words), Ok(job));
    }
    Ok(())
}

// The lengths of the first two pieces that are written, and how many of these there are.
#[derive(Drop)]
struct PieceLengths {
    lengths: [usize; 2],
    count: usize,
}

impl Sink for PieceLengths {
    ghost use Rattle.std.specs.Prelude.{None};

    ghost written = { λ _. None };

    ghost held = { λ _. None };

    ghost faults = { λ _. 0 };

    fn write_all(&mut self, piece: &[u8]) -> Result<(), Failed> {
        if self.count < 2 {
            self.lengths[self.count] = piece.len();
            self.count += 1;
        }
        Ok(())
    }
}

#[test]
fn the_usage_line_is_one_piece(rt: HostRuntime) -> Result<(), Fail> {
    let mut pieces = PieceLengths {
        lengths: [0; 2],
        count: 0,
    };
    assert_eq!(rt; write_usage(&mut pieces), Ok(()));
    assert_eq!(rt; pieces.lengths, [USAGE.len(), 0]);
    assert_eq!(rt; pieces.count, 1);
    Ok(())
}

// The usage line, whole and where there is less and less room for it.
#[test]
fn the_usage_line_is_written_and_cut(rt: HostRuntime) -> Result<(), Fail> {
    let alloc = rt.alloc();
    let text = USAGE.as_bytes();
    for room in 0..text.len() + 1 {
        let mut sink = MemSink::new(alloc, room, &[])?;
        assert_eq!(rt;
            write_usage(&mut sink).is_ok(),
            room == text.len(),
            "{room}"
        );
        assert_eq!(rt; sink.bytes(), &text[..room], "{room}");
    }
    Ok(())
}
