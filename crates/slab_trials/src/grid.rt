//! What is proved of each small instance loses what the best of all plans loses, and is verified.
ghost use Rattle.std.specs.Prelude.{◌≤◌};

use crate::least::least_loss;
use instance_text::read_instance;
use mill_io::{MemSink, MemSource};
use mill_model::OutOfMemory;
use slab_top::{OpenGate, run};
use std::alloc::Global;
use std::sync::Wait;
use std::test::Fail;
use std::thread::Threads;

// The status and the text for a command and its options, a number of colours and an input.
fn answered<R: Threads + Wait + Sync>(
    rt: &R,
    alloc: Global,
    command: &str,
    colours: &str,
    input: &[u8],
) -> Result<(u8, Vec<u8>), OutOfMemory> {
    let mut words = Vec::new(alloc);
    for word in command.split(' ') {
        words.push(String::from_str(alloc, word)?)?;
    }
    words.push(String::from_str(alloc, "--colours")?)?;
    words.push(String::from_str(alloc, colours)?)?;
    let mut source = MemSource::new(alloc, input, 4096, &[])?;
    let mut sink = MemSink::new(alloc, 4096, &[])?;
    let mut kept = None;
    let status = run(
        rt,
        alloc,
        &words,
        &mut source,
        &mut sink,
        &OpenGate,
        &mut kept,
    );
    Ok((status, sink.bytes().to_vec(alloc)?))
}

// The text of an instance of the sizes 2, 3 and 5 with so many orders, each of one of four kinds.
fn grid_text(alloc: Global, orders: u32, code: u32) -> Result<Vec<u8>, OutOfMemory> {
    let kinds: [&[u8]; 4] = [b" 1 1", b" 1 2", b" 2 3", b" 2 4"];
    let mut text = format!(in alloc; "3 2 5 3 4 {orders}")?.into_bytes();
    let mut rest = code;
    for _order in 0..orders {
        text.extend_from_slice(kinds[rest as usize % 4])?;
        rest /= 4;
    }
    text.push(b'\n')?;
    Ok(text)
}

// Whether what a command answers to an instance with this text behind it loses what the best of all
// plans loses, and is verified.
fn is_right<R: Threads + Wait + Sync>(
    rt: &R,
    alloc: Global,
    command: &str,
    behind: &[u8],
    input: &[u8],
    p: u8,
) -> Result<bool, OutOfMemory>
    requires { (1 ≤ p) × (p ≤ 8) }
{
    let colours = format!(in alloc; "{p}")?;
    let mut asked = input.to_vec(alloc)?;
    asked.extend_from_slice(behind)?;
    let (status, answer) = answered(rt, alloc, command, &colours, &asked)?;
    let mut judged = input.to_vec(alloc)?;
    judged.extend_from_slice(&answer)?;
    let (verified, line) = answered(rt, alloc, "verify", &colours, &judged)?;

    let Ok((instance, _)) = read_instance(alloc, input, p) else {
        return Ok(false);
    };
    let least = least_loss(alloc, &instance)?;
    let front = format!(in alloc; "optimal\nloss {least}\nplan")?;
    let wanted = format!(in alloc; "verified loss {least}\n")?;
    Ok(
        (status, verified) == (0, 0)
            && answer.starts_with(front.as_bytes())
            && line.as_slice() == wanted.as_bytes(),
    )
}

// Up to four orders, equal ones among them, from starts that few moves have made better.
#[test]
fn proves_the_least_loss_and_verifies_it(rt: HostRuntime) -> Result<(), Fail> {
    let alloc = rt.alloc();
    for (orders, codes) in [(0, 1), (1, 4), (2, 16), (3, 64), (4, 256)] {
        for code in 0..codes {
            let input = grid_text(alloc, orders, code)?;
            for p in 1..4 {
                let right = is_right(&rt, alloc, "prove --moves 9", b"", &input, p)?;
                assert!(rt; right, "{orders} {code} {p}");
            }
        }
    }
    Ok(())
}

// Up to three orders, by two workers that a schedule lets take turns.
#[test]
fn replays_to_the_least_loss_and_verifies_it(rt: HostRuntime) -> Result<(), Fail> {
    let alloc = rt.alloc();
    let schedule = b"schedule 1 0 1 1 0";
    for (orders, codes) in [(0, 1), (1, 4), (2, 16), (3, 64)] {
        for code in 0..codes {
            let input = grid_text(alloc, orders, code)?;
            for p in 1..4 {
                let right = is_right(&rt, alloc, "replay --workers 2", schedule, &input, p)?;
                assert!(rt; right, "{orders} {code} {p}");
            }
        }
    }
    Ok(())
}

// Up to three orders, by workers in threads: few of them, and many more than there are paths.
#[test]
fn proves_in_threads_and_verifies_it(rt: HostRuntime) -> Result<(), Fail> {
    let alloc = rt.alloc();
    for workers in ["2", "3", "4", "8", "64"] {
        let words = format!(in alloc; "prove --workers {workers}")?;
        for (orders, codes) in [(0, 1), (1, 4), (2, 16), (3, 64)] {
            for code in 0..codes {
                let input = grid_text(alloc, orders, code)?;
                let right = is_right(&rt, alloc, &words, b"", &input, 2)?;
                assert!(rt; right, "{workers} {orders} {code}");
            }
        }
    }
    Ok(())
}
