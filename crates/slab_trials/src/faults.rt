//! Each fault of a reader or a writer of std is told, in the middle of a stream too.

use crate::small_run::THREE_ORDERS;
use mill_io::{MemSink, MemSource};
use slab_top::{OpenGate, run, run_streams};
use std::io;
use std::io::{Read, Write};
use std::test::Fail;

const USAGE: &str =
    "usage: mill_slab solve|prove|check|verify|replay|drill [--workers N] [--nodes N] \
    [--colours N] [--moves N] [--seed N] [--orders N]\n";

// A reader that gives a byte a read, and of whose reads one fails. Those behind it go on.
#[derive(Drop)]
struct OneReadFails<'a> {
    bytes: &'a [u8],
    reads: usize,
    failing: usize,
}

impl Read for OneReadFails<'_> {
    fn read(&mut self, buf: &mut [u8]) -> io::Result<usize> {
        self.reads = self.reads.saturating_add(1);
        if self.reads == self.failing {
            return Err(io::Error::from(io::ErrorKind::Other));
        }
        let count = self.bytes.len().min(buf.len()).min(1);
        buf[..count].copy_from_slice(&self.bytes[..count]);
        self.bytes = &self.bytes[count..];
        Ok(count)
    }
}

// A writer that takes at most three bytes a write, and fails where there is no more room.
#[derive(Drop)]
struct LittleRoom<'a> {
    held: &'a mut Vec<u8>,
    room: usize,
}

impl Write for LittleRoom<'_> {
    fn write(&mut self, buf: &[u8]) -> io::Result<usize> {
        let count = self.room.min(buf.len()).min(3);
        if count == 0 {
            return Err(io::Error::from(io::ErrorKind::Other));
        }
        self.held.extend_from_slice(&buf[..count])?;
        self.room -= count;
        Ok(count)
    }

    fn flush(&mut self) -> io::Result<()> {
        Ok(())
    }
}

// What `solve` answers to the three orders.
const THEIR_ANSWER: &[u8] = b"optimal\nloss 4\nplan 1 2 1\nend\n";

// The input has 20 bytes, and the read behind them finds its end. There is none behind that one.
#[test]
fn each_failing_read_is_told(rt: HostRuntime) -> Result<(), Fail> {
    let alloc = rt.alloc();
    let words = vec![in alloc; String::from_str(alloc, "solve")?]?;
    for failing in 1..23 {
        let reader = OneReadFails {
            bytes: THREE_ORDERS.as_bytes(),
            reads: 0,
            failing,
        };
        let mut held = Vec::new(alloc);
        let mut kept = None;
        let status = run_streams(
            &rt, alloc, &words, reader, &mut held, &OpenGate, &mut kept,
        ).status;
        let want: (u8, &[u8]) = if failing < 22 {
            (5, b"")
        } else {
            (0, THEIR_ANSWER)
        };
        assert_eq!(rt; (status, held.as_slice()), want, "{failing}");
    }
    Ok(())
}

// Each row: the read that fails and the write, if one does, and the status.
#[test]
fn one_failing_read_or_write_in_memory_is_told(rt: HostRuntime) -> Result<(), Fail> {
    let alloc = rt.alloc();
    let words = vec![in alloc; String::from_str(alloc, "solve")?]?;
    for (read, write, status) in [(2u32, 0u32, 5u8), (0, 1, 6), (0, 0, 0)] {
        let mut source = MemSource::new(alloc, THREE_ORDERS.as_bytes(), 1, &[read])?;
        let mut sink = MemSink::new(alloc, 4096, &[write])?;
        let mut kept = None;
        let found = run(
            &rt,
            alloc,
            &words,
            &mut source,
            &mut sink,
            &OpenGate,
            &mut kept,
        );
        let text: &[u8] = if status == 0 { THEIR_ANSWER } else { b"" };
        assert_eq!(rt; (found, sink.bytes()), (status, text));
    }
    Ok(())
}

// Each row: an input, the status and the text where there is room for it.
#[test]
fn each_lack_of_room_is_told(rt: HostRuntime) -> Result<(), Fail> {
    let alloc = rt.alloc();
    let words = vec![in alloc; String::from_str(alloc, "solve")?]?;
    let rows: [(&[u8], u8, &[u8]); 4] = [
        (THREE_ORDERS.as_bytes(), 0, THEIR_ANSWER),
        (b"1 4 1 1 4 1", 0, b"optimal\nloss 0\nplan 1\nend\n"),
        (b"1 4 1 1 5 1", 1, b"infeasible\norder 1\nend\n"),
        (b"1 4 1 x", 3, b"refused instance byte 6\n"),
    ];
    for (input, status, text) in rows {
        for room in 0..text.len() + 1 {
            let mut held = Vec::new(alloc);
            let writer = LittleRoom {
                held: &mut held,
                room,
            };
            let mut kept = None;
            let found = run_streams(&rt, alloc, &words, input, writer, &OpenGate, &mut kept).status;
            let want = if room < text.len() { 6 } else { status };
            assert_eq!(rt; found, want, "{room}");
            assert_eq!(rt; held.as_slice(), &text[..room], "{room}");
        }
    }
    Ok(())
}

// The usage line, where there is less and less room for it in memory, which takes what fits and
// then nothing.
#[test]
fn a_usage_line_is_cut(rt: HostRuntime) -> Result<(), Fail> {
    let alloc = rt.alloc();
    let text = USAGE.as_bytes();
    let input: &[u8] = b"";
    for room in 0..text.len() {
        let mut held = [0; 256];
        let mut kept = None;
        let status = run_streams(
            &rt,
            alloc,
            &[],
            input,
            &mut held[..room],
            &OpenGate,
            &mut kept,
        )
        .status;
        assert_eq!(rt; status, 6, "{room}");
        assert_eq!(rt; &held[..room], &text[..room], "{room}");
    }
    Ok(())
}
