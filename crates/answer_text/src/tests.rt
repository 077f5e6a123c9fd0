//! Each kind of answer once, with ample memory; the clauses of the reader and the printer say which
//! text is which answer, and what each refusal means. A text of several blocks is written too, and
//! each text to sinks with less room.
ghost use Rattle.std.specs.Prelude.{◌≤◌, length, IfOk};
ghost use Rattle.mill_model.specs.declared.order.TheConstants.{MAX_ORDERS};
ghost use Rattle.answer_text.specs.Text.{most_orders, Fits};

use super::*;
use mill_io::{Failed, MemSink, Sink, VecSink};
use mill_model::{Instance, Order, OutOfMemory};
use std::alloc::Global;
use std::test::Fail;

// An instance of this many orders, and of 1024 at most.
fn instance_of(alloc: Global, orders: u16) -> Result<Instance, OutOfMemory>
    ensures { IfOk result (λ instance. length instance.orders ≤ MAX_ORDERS) }
{
    let order = Order {
        weight: 1,
        colour: 1,
    };
    let orders = vec![in alloc; order; orders.min(1024) as usize]?;
    Ok(Instance::new(vec![in alloc; 4]?, 1, orders, 2))
}

// The answer that a text stands for.
fn answer_of(alloc: Global, orders: u16, text: &[u8]) -> Result<Answer, AnswerTextError>
    ensures { IfOk result (λ answer. Fits (most_orders answer) answer) }
{
    let instance = instance_of(alloc, orders)?;
    let answer = parse_answer(alloc, &instance, text)?;
    Ok(answer)
}

// Each row: how many orders, and a text that is printed as it is read.
#[test]
fn reads_and_prints_again(rt: HostRuntime) -> Result<(), Fail> {
    let alloc = rt.alloc();
    let rows: [(u16, &str); 5] = [
        (3, "optimal\nloss 4\nplan 1 1 2\nend\n"),
        (0, "optimal\nloss 0\nplan\nlog 1 1\nL 0\nend\n"),
        (
            4,
            "optimal\nloss 2\nplan 1 1 2 2\nlog 1 3\nS 0\nD 3 1 2 1 1 1 2\nP 3 1 2 2 -5\nend\n",
        ),
        (2, "feasible\nloss 6\nplan 2 1\nspent 17\nend\n"),
        (1024, "infeasible\norder 1024\nend\n"),
    ];
    for (orders, text) in rows {
        let answer = answer_of(alloc, orders, text.as_bytes())?;
        assert!(rt; print_answer(alloc, &answer)?.as_slice() == text.as_bytes());
    }
    Ok(())
}

// Each row: a text for three orders, and why it is refused.
#[test]
fn refuses_at_the_first_wrong_line(rt: HostRuntime) -> Result<(), Fail> {
    let alloc = rt.alloc();
    let instance = instance_of(alloc, 3)?;
    let rows: [(&str, AnswerTextError); 4] = [
        ("", AnswerTextError::BadLine { line: 1 }),
        (
            "optimal\nloss 4\nplan 1 1 4\nend\n",
            AnswerTextError::BadLine { line: 3 },
        ),
        (
            "optimal\nloss 4\nplan 1 1 2\nlog 1 2\nS 1 1\nS 0\nend\n",
            AnswerTextError::NotRising { line: 6 },
        ),
        (
            "optimal\nloss 4\nplan 1 1 2\nlog 1 2\nS 0\nend\n",
            AnswerTextError::CountDiffers {
                stated: 2,
                found: 1,
            },
        ),
    ];
    for (text, want) in rows {
        let read = parse_answer(alloc, &instance, text.as_bytes());
        assert!(rt; read.is_err_and(|error| error == want));
    }
    Ok(())
}

// An optimal answer for 1024 orders on one slab, whose log has one line with prices: so many of
// each of these.
fn long_text(alloc: Global, prices: &[(usize, &str)]) -> Result<Vec<u8>, OutOfMemory> {
    let mut text = b"optimal\nloss 0\nplan".to_vec(alloc)?;
    for _ in 0..1024 {
        text.extend_from_slice(b" 1")?;
    }
    text.extend_from_slice(b"\nlog 1 1\nP 0")?;
    for &(count, price) in prices {
        for _ in 0..count {
            text.extend_from_slice(price.as_bytes())?;
        }
    }
    text.extend_from_slice(b"\nend\n")?;
    Ok(text)
}

// A sink that keeps the lengths of the first eight pieces.
#[derive(Drop)]
struct PieceLengths {
    lengths: [usize; 8],
    count: usize,
}

impl Sink for PieceLengths {
    ghost use Rattle.std.specs.Prelude.{None};

    ghost written = { λ _. None };

    ghost held = { λ _. None };

    ghost faults = { λ _. 0 };

    fn write_all(&mut self, piece: &[u8]) -> Result<(), Failed> {
        if self.count < 8 {
            self.lengths[self.count] = piece.len();
            self.count += 1;
        }
        Ok(())
    }
}

// The text has 19 bytes before the plan, 2 for each order, 12 before the prices, 13 for each price
// and 5 at its end: 15396, three blocks and 3108 bytes.
#[test]
fn a_long_answer_is_written_in_blocks(rt: HostRuntime) -> Result<(), Fail> {
    let alloc = rt.alloc();
    let text = long_text(alloc, &[(1024, " -20000000000")])?;
    let answer = answer_of(alloc, 1024, &text)?;
    let mut whole = VecSink::new(alloc);
    assert_eq!(rt; write_answer(&mut whole, &answer), Ok(()));
    assert!(rt; whole.into_bytes() == text);
    assert!(rt; print_answer(alloc, &answer)? == text);
    let rooms = [0, 1, 4095, 4096, 4097, 8192, 12288, 15395, 15396];
    assert!(rt; is_written_up_to_each_room(alloc, &answer, &text, &rooms)?);
    Ok(())
}

// Beside its prices a text has 2084 bytes. Each row: how many prices of each there are, and the
// lengths of the pieces that are written. Only the last is short, and none is empty.
#[test]
fn only_the_last_piece_is_short(rt: HostRuntime) -> Result<(), Fail> {
    let alloc = rt.alloc();
    let rows: [(&[(usize, &str)], &[usize]); 3] = [
        (&[(1024, " -20000000000")], &[4096, 4096, 4096, 3108]),
        (&[(988, " 10000"), (36, " 1000")], &[4096, 4096]),
        (&[(989, " 10000"), (35, " 1000")], &[4096, 4096, 1]),
    ];
    for (prices, want) in rows {
        let text = long_text(alloc, prices)?;
        let answer = answer_of(alloc, 1024, &text)?;
        let mut pieces = PieceLengths {
            lengths: [0; 8],
            count: 0,
        };
        assert_eq!(rt; write_answer(&mut pieces, &answer), Ok(()));
        assert_eq!(rt; &pieces.lengths[..pieces.count.min(8)], want);
    }
    Ok(())
}

// Whether a sink of each of these rooms has just as much of an answer's text as it has room for,
// and the call tells whether that was all.
fn is_written_up_to_each_room(
    alloc: Global,
    answer: &Answer,
    text: &[u8],
    rooms: &[usize],
) -> Result<bool, OutOfMemory>
    requires { Fits (most_orders answer.now) answer.now }
{
    let mut right = true;
    for &room in rooms {
        let mut sink = MemSink::new(alloc, room, &[])?;
        let wrote = write_answer(&mut sink, answer);
        let is_whole = room == text.len();
        right = right && wrote.is_ok() == is_whole && text.get(..room) == Some(sink.bytes());
    }
    Ok(right)
}

// An answer of 30 bytes goes into a sink with less room, or just enough.
#[test]
fn a_front_of_an_answer_is_written(rt: HostRuntime) -> Result<(), Fail> {
    let alloc = rt.alloc();
    let text: &[u8] = b"optimal\nloss 4\nplan 1 2 1\nend\n";
    let answer = answer_of(alloc, 3, text)?;
    let rooms = [
        0, 1, 2, 3, 4, 5, 6, 7, 8, 9, 10, 11, 12, 13, 14, 15, 16, 17, 18, 19, 20, 21, 22, 23, 24,
        25, 26, 27, 28, 29, 30,
    ];
    assert!(rt; is_written_up_to_each_room(alloc, &answer, text, &rooms)?);
    Ok(())
}
