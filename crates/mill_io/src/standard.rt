//! Readers and writers of std as sources and sinks, which tell the bytes that went through.
ghost use Rattle.std.specs.Prelude.{◌≡◌, ◌≤◌, ◌↔◌, [], Some, OnOk, OnErr, length, take};
ghost use Rattle.std.specs.Io.KnownBytes.{Appends, ReadConsumes};
ghost use Rattle.std.specs.Io.{ReadsAtMost};
ghost use Rattle.mill_io.specs.Bytes.{AppendsFront, AppendsToBoth, FindsEnd, Gives};
ghost use Rattle.mill_io.specs.Causes.{HasCause};

use crate::history::History;
use crate::{Failed, Sink, Source};
use std::io::{Read, Write};

/// A reader of std as a source. Of the bytes to come it tells what the reader tells, and of those
/// that its reads gave, all. Each error of the reader is a fault.
#[derive(Drop)]
pub struct StdSource<R: Read> {
    inner: R,
    given: History,
    ended: bool,
    faults: u64,
}

impl<R: Read> StdSource<R> {
    ghost use Rattle.mill_io.specs.Standard.{reader_of, bytes_given, read_faults, HasEnded};

    /// A source of what the reader gives from here on.
    pub fn new(inner: R) -> StdSource<R>
        ensures inner { reader_of result ≡ inner }
        ensures given { bytes_given result ≡ [] }
        ensures end { ¬ HasEnded result }
        ensures faults { read_faults result ≡ 0 }
    {
        StdSource {
            inner,
            given: History::new(),
            ended: false,
            faults: 0,
        }
    }
}

impl<R: Read> Source for StdSource<R> {
    ghost use Rattle.mill_io.specs.Standard.{reader_of, read_faults, bytes_given, HasEnded};

    ghost left = { λ s. R.remaining (reader_of s) };

    ghost given = { bytes_given };

    ghost ended = { HasEnded };

    ghost faults = { read_faults };

    fn read(&mut self, buf: &mut [u8]) -> Result<usize, Failed>
        ensures bound { ReadsAtMost result buf.new }
        ensures bytes { ReadConsumes (R.remaining (reader_of self.old))
            (R.remaining (reader_of self.new)) result buf.new }
        ensures given { Gives (bytes_given self.old) (bytes_given self.new) result buf.new }
        ensures end { HasEnded self.new ↔ FindsEnd result buf.new }
        ensures cause { HasCause (read_faults self.old) (read_faults self.new) result }
    {
        let Ok(count) = self.inner.read(buf) else {
            self.ended = false;
            self.faults = self.faults.saturating_add(1);
            return Err(Failed);
        };
        self.ended = count == 0 && !buf.is_empty();
        self.given.note(&buf[..count]);
        Ok(count)
    }
}

/// A writer of std as a sink, which tells all bytes that the writer took. Each error of the writer
/// is a fault, and so is a write that takes nothing of a piece. Nothing is flushed, so the writer
/// is to be one that keeps no bytes back.
#[derive(Drop)]
pub struct StdSink<W: Write> {
    inner: W,
    taken: History,
    faults: u64,
}

impl<W: Write> StdSink<W> {
    ghost use Rattle.mill_io.specs.Standard.{writer_of, bytes_taken, write_faults};

    /// A sink into this writer.
    pub fn new(inner: W) -> StdSink<W>
        ensures inner { writer_of result ≡ inner }
        ensures taken { bytes_taken result ≡ [] }
        ensures faults { write_faults result ≡ 0 }
    {
        StdSink {
            inner,
            taken: History::new(),
            faults: 0,
        }
    }
}

impl<W: Write> Sink for StdSink<W> {
    ghost use Rattle.mill_io.specs.Standard.{writer_of, bytes_taken, write_faults};

    ghost written = { λ s. Some (bytes_taken s) };

    ghost held = { λ s. W.contents (writer_of s) };

    ghost faults = { write_faults };

    fn write_all(&mut self, piece: &[u8]) -> Result<(), Failed>
        ensures ok { OnOk result
            (Appends (Some (bytes_taken self.old)) (Some (bytes_taken self.new)) piece.now) }
        ensures err { OnErr result
            (AppendsFront (Some (bytes_taken self.old)) (Some (bytes_taken self.new)) piece.now) }
        ensures held { AppendsToBoth (Some (bytes_taken self.old)) (Some (bytes_taken self.new))
            (W.contents (writer_of self.old)) (W.contents (writer_of self.new)) }
        ensures cause { HasCause (write_faults self.old) (write_faults self.new) result }

        // What was taken, the writer holds too, if it tells what it holds.
        ensures inner_ok { OnOk result (Appends (W.contents (writer_of self.old))
            (W.contents (writer_of self.new)) piece.now) }
        ensures inner_err { OnErr result (AppendsFront (W.contents (writer_of self.old))
            (W.contents (writer_of self.new)) piece.now) }
    {
        let mut at = 0;
        while at < piece.len() {
            let count = write_some(&mut self.inner, &piece[at..]);
            if count == 0 {
                self.faults = self.faults.saturating_add(1);
                return Err(Failed);
            }
            self.taken.note(&piece[at..at + count]);
            at += count;
        }
        Ok(())
    }
}

// Writes a front of a piece, and says how much of it: nothing where the writer fails.
fn write_some<W: Write>(writer: &mut W, piece: &[u8]) -> usize
    ensures within { result ≤ length piece.now }
    ensures bytes { Appends (W.contents writer.old) (W.contents writer.new)
        (take result piece.now) }
{
    writer.write(piece).unwrap_or(0)
}
