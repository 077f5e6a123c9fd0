//! Sources that are read to the end or fail, sinks with more or less room, and texts in blocks.

use super::*;
use std::io;
use std::io::Read;
use std::test::Fail;

// Each row: the most that a read gives, the reads that fail, the limit, what comes of "hello", and
// what is left then.
#[test]
fn reads_to_the_end_or_says_why_not(rt: HostRuntime) -> Result<(), Fail> {
    let alloc = rt.alloc();
    let none: &[u32] = &[];
    let rows: [(usize, &[u32], usize, Result<&str, ReadError>, &str); 14] = [
        (1, none, 9, Ok("hello"), ""),
        (1, none, 5, Ok("hello"), ""),
        (1, none, 4, Err(ReadError::TooLong), ""),
        (2, none, 2, Err(ReadError::TooLong), "lo"),
        (9, none, 0, Err(ReadError::TooLong), "ello"),
        (9, none, 5, Ok("hello"), ""),
        (1, &[1], 5, Err(ReadError::ReadFault), "hello"),
        (1, &[2], 5, Err(ReadError::ReadFault), "ello"),
        (1, &[3], 5, Err(ReadError::ReadFault), "llo"),
        (1, &[4], 5, Err(ReadError::ReadFault), "lo"),
        (1, &[5], 5, Err(ReadError::ReadFault), "o"),
        (1, &[6], 5, Err(ReadError::ReadFault), ""),
        (2, &[9, 2], 5, Err(ReadError::ReadFault), "llo"),
        (1, &[8, 0], 5, Ok("hello"), ""),
    ];
    for (piece, failing, limit, want, left) in rows {
        let mut source = MemSource::new(alloc, b"hello", piece.max(1), failing)?;
        match (read_all(alloc, &mut source, limit), want) {
            (Ok(bytes), Ok(text)) => assert_eq!(rt; bytes.as_slice(), text.as_bytes()),
            (found, want) => assert_eq!(rt; found.err(), want.err(), "in pieces of {piece}"),
        }
        let rest = read_all(alloc, &mut source, 9)?;
        assert_eq!(rt; rest.as_slice(), left.as_bytes(), "in pieces of {piece}");
    }
    let mut source = SteadySource::new(alloc, b"hello")?;
    assert_eq!(rt;
        read_all(alloc, &mut source, 5)?.as_slice(),
        b"hello".as_slice()
    );
    Ok(())
}

// Each row: the room, the writes that fail, which of the writes of "ab", "" and "cde" don't fail,
// and what is kept.
#[test]
fn a_sink_in_memory_keeps_what_fits(rt: HostRuntime) -> Result<(), Fail> {
    let none: &[u32] = &[];
    let rows: [(usize, &[u32], [bool; 3], &str); 9] = [
        (5, none, [true, true, true], "abcde"),
        (9, none, [true, true, true], "abcde"),
        (4, none, [true, true, false], "abcd"),
        (2, none, [true, true, false], "ab"),
        (1, none, [false, true, false], "a"),
        (0, none, [false, true, false], ""),
        (5, &[1], [false, true, true], "cde"),
        (5, &[2], [true, false, true], "abcde"),
        (4, &[3, 1], [false, true, false], ""),
    ];
    for (room, failing, want, kept) in rows {
        let mut sink = MemSink::new(rt.alloc(), room, failing)?;
        let found = [
            sink.write_all(b"ab").is_ok(),
            sink.write_all(b"").is_ok(),
            sink.write_all(b"cde").is_ok(),
        ];
        assert_eq!(rt; found, want, "at room {room}");
        assert_eq!(rt; sink.bytes(), kept.as_bytes(), "at room {room}");
    }
    let mut steady = SteadySink::new();
    assert_eq!(rt; steady.write_all(b"ab"), Ok(()));
    assert_eq!(rt; steady.write_all(b"cde"), Ok(()));
    assert_eq!(rt; steady.count(), 5);
    Ok(())
}

// A reader whose third read fails, and whose other reads give one byte.
#[derive(Drop)]
struct ThirdReadFails {
    reads: u32,
}

impl Read for ThirdReadFails {
    fn read(&mut self, buf: &mut [u8]) -> io::Result<usize> {
        self.reads = self.reads.saturating_add(1);
        if self.reads == 3 {
            return Err(io::Error::from(io::ErrorKind::Other));
        }
        let count = buf.len().min(1);
        buf[..count].fill(b'x');
        Ok(count)
    }
}

#[test]
fn readers_and_writers_of_std_serve(rt: HostRuntime) -> Result<(), Fail> {
    let alloc = rt.alloc();
    let text: &[u8] = b"hello";
    let mut source = StdSource::new(text);
    assert_eq!(rt; read_all(alloc, &mut source, 5)?.as_slice(), text);
    let mut source = StdSource::new(ThirdReadFails { reads: 0 });
    assert_eq!(rt;
        read_all(alloc, &mut source, 5).err(),
        Some(ReadError::ReadFault)
    );

    let mut held = Vec::new(alloc);
    let mut sink = StdSink::new(&mut held);
    assert_eq!(rt; sink.write_all(b"hel"), Ok(()));
    assert_eq!(rt; sink.write_all(b"lo"), Ok(()));
    assert_eq!(rt; held.as_slice(), text);
    let mut room = [0; 3];
    let mut sink = StdSink::new(room.as_mut_slice());
    assert_eq!(rt; sink.write_all(b"he"), Ok(()));
    assert_eq!(rt; sink.write_all(b"llo"), Err(Failed));
    assert_eq!(rt; room.as_slice(), b"hel".as_slice());
    Ok(())
}

// A sink that keeps the lengths of the first eight pieces.
#[derive(Drop)]
struct PieceLengths {
    lengths: [usize; 8],
    count: usize,
}

impl Sink for PieceLengths {
    ghost use Rattle.std.specs.Prelude.{None};

    ghost written = { λ _. None };

    ghost held = { λ _. None };

    ghost faults = { λ _. 0 };

    fn write_all(&mut self, piece: &[u8]) -> Result<(), Failed> {
        if self.count < 8 {
            self.lengths[self.count] = piece.len();
            self.count += 1;
        }
        Ok(())
    }
}

// Puts a text through a block, in pieces of so many bytes.
fn put_in_pieces<K: Sink>(sink: &mut K, text: &[u8], size: usize) -> Result<(), Failed> {
    let mut block = Block::new();
    for piece in text.chunks(size.max(1)) {
        block.put(sink, piece)?;
    }
    block.finish(sink)
}

// Each row: the length of a text, and those of the pieces that are written.
#[test]
fn whole_blocks_are_written_and_the_rest_last(rt: HostRuntime) -> Result<(), Fail> {
    let rows: [(usize, &[usize]); 7] = [
        (0, &[]),
        (1, &[1]),
        (4095, &[4095]),
        (4096, &[4096]),
        (4097, &[4096, 1]),
        (8192, &[4096, 4096]),
        (9000, &[4096, 4096, 808]),
    ];
    for (length, want) in rows {
        let text = vec![in rt.alloc(); b'x'; length]?;
        for size in [1, 7, 4096, 5000, 9000] {
            let mut sink = PieceLengths {
                lengths: [0; 8],
                count: 0,
            };
            assert_eq!(rt; put_in_pieces(&mut sink, &text, size), Ok(()));
            assert_eq!(rt;
                &sink.lengths[..sink.count.min(8)],
                want,
                "in pieces of {size}"
            );
        }
    }
    Ok(())
}

// A text of 9000 bytes goes into a sink with less room, or just enough.
#[test]
fn a_front_of_the_text_is_written(rt: HostRuntime) -> Result<(), Fail> {
    let alloc = rt.alloc();
    let mut text = vec![in alloc; b'x'; 9000]?;
    for (at, byte) in text.iter_mut().enumerate() {
        *byte = (at % 251) as u8;
    }
    let mut whole = VecSink::new(alloc);
    assert_eq!(rt; put_in_pieces(&mut whole, &text, 7), Ok(()));
    assert!(rt; whole.into_bytes() == text);
    for room in [0, 1, 4095, 4096, 4097, 8192, 8999, 9000] {
        let mut sink = MemSink::new(alloc, room, &[])?;
        let wrote = put_in_pieces(&mut sink, &text, 7);
        assert_eq!(rt; wrote.is_ok(), room == 9000, "at room {room}");
        assert!(rt; text.get(..room) == Some(sink.bytes()), "at room {room}");
    }
    Ok(())
}
