//! A source and a sink in memory, whose reads and writes fail where they are asked to.
ghost use Rattle.std.specs.Prelude.{◌≡◌, ◌+◌, ◌-◌, ◌≤◌, ◌↔◌, [], ◌++◌, drop, length, min, take};
ghost use Rattle.std.specs.Prelude.{Contains, IsTrue, IsOk, IsErr, IfOk, OnOk, OnErr, Some};
ghost use Rattle.std.specs.Prelude.{vec_len, vec_capacity};
ghost use Rattle.std.specs.Io.{ReadsAtMost};
ghost use Rattle.std.specs.Io.KnownBytes.{Appends, ReadConsumes};
ghost use Rattle.mill_io.specs.Bytes.{AppendsFront, AppendsToBoth, FindsEnd, Gives};
ghost use Rattle.mill_io.specs.Causes.{HasCause, count_after, one_more};
ghost use Rattle.mill_io.specs.Memory.{Supply, Store};

use crate::{Failed, Sink, Source};
use mill_model::OutOfMemory;
use std::alloc::Global;
use std::marker::Model;

/// A source over bytes in memory, some of whose reads fail.
#[derive(Debug, Drop)]
pub struct MemSource {
    bytes: Vec<u8>,
    at: usize,
    piece: usize,
    failing: Vec<u32>,
    reads: u64,
    faults: u64,
}

impl Model for MemSource {
    ghost Value = { Supply };

    ghost view = { λ s. record {
      given = take s.at s.bytes.items;
      left = drop s.at s.bytes.items;
      piece = s.piece;
      failing = s.failing.items;
      reads = s.reads;
      faults = s.faults;
    } };

    ghost invariant = { λ s. (s.at ≤ length s.bytes.items) × (1 ≤ s.piece) };
}

impl MemSource {
    /// A source of these bytes that gives at most `piece` of them a read. The reads whose numbers,
    /// counted from 1, are in `failing` fail.
    pub fn new(
        alloc: Global,
        bytes: &[u8],
        piece: usize,
        failing: &[u32],
    ) -> Result<MemSource, OutOfMemory>
        requires { 1 ≤ piece }
        ensures { IfOk result (λ source. source ≡ record {
          given = [];
          left = bytes.now;
          piece = piece;
          failing = failing.now;
          reads = 0;
          faults = 0;
        }) }
    {
        Ok(MemSource {
            bytes: bytes.to_vec(alloc)?,
            at: 0,
            piece,
            failing: failing.to_vec(alloc)?,
            reads: 0,
            faults: 0,
        })
    }
}

impl Source for MemSource {
    ghost left = { λ s. Some s.left };

    ghost given = { λ s. s.given };

    ghost ended = { λ s. s.left ≡ [] };

    ghost faults = { λ s. s.faults };

    fn read(&mut self, buf: &mut [u8]) -> Result<usize, Failed>
        ensures bound { ReadsAtMost result buf.new }
        ensures bytes { ReadConsumes (Some self.old.left) (Some self.new.left) result buf.new }
        ensures given { Gives self.old.given self.new.given result buf.new }
        ensures end { FindsEnd result buf.new → self.new.left ≡ [] }
        ensures cause { HasCause self.old.faults self.new.faults result }

        // Just the listed reads fail, and the others give all that may be given.
        ensures number { self.new.reads ≡ one_more self.old.reads }
        ensures failing { IsErr result ↔ Contains self.old.failing self.new.reads }
        ensures most { IfOk result (λ count.
            count ≡ min (min self.old.piece (length self.old.left)) (length buf.old)) }
        ensures count { self.new.faults ≡ count_after self.old.faults result }

        ensures same_piece { self.new.piece ≡ self.old.piece }
        ensures same_failing { self.new.failing ≡ self.old.failing }
    {
        self.reads = self.reads.saturating_add(1);
        if is_listed(&self.failing, self.reads) {
            self.faults = self.faults.saturating_add(1);
            return Err(Failed);
        }
        let count = give(&self.bytes, self.at, self.piece, buf);
        self.at += count;
        Ok(count)
    }
}

/// A sink in memory with room for so many bytes, some of whose writes fail.
#[derive(Debug, Drop)]
pub struct MemSink {
    kept: Vec<u8>,
    room: usize,
    failing: Vec<u32>,
    writes: u64,
    faults: u64,
}

impl Model for MemSink {
    ghost Value = { Store };

    ghost view = { λ s. record {
      kept = s.kept.items;
      room = s.room;
      failing = s.failing.items;
      writes = s.writes;
      faults = s.faults;
    } };

    ghost invariant = { λ s. (length s.kept.items ≤ s.room) × (s.room ≤ vec_capacity s.kept) };
}

impl MemSink {
    /// A sink that keeps up to `room` bytes, whose memory it takes now. The writes whose numbers,
    /// counted from 1, are in `failing` keep nothing and fail. A write past the room keeps what
    /// fits, and fails.
    pub fn new(alloc: Global, room: usize, failing: &[u32]) -> Result<MemSink, OutOfMemory>
        ensures { IfOk result (λ sink. sink ≡ record {
          kept = [];
          room = room;
          failing = failing.now;
          writes = 0;
          faults = 0;
        }) }
    {
        Ok(MemSink {
            kept: Vec::with_capacity(alloc, room)?,
            room,
            failing: failing.to_vec(alloc)?,
            writes: 0,
            faults: 0,
        })
    }

    /// The bytes that were kept.
    pub fn bytes(&self) -> &[u8]
        ensures { result.now ≡ self.now.kept }
    {
        &self.kept
    }
}

impl Sink for MemSink {
    ghost written = { λ s. Some s.kept };

    ghost held = { λ s. Some s.kept };

    ghost faults = { λ s. s.faults };

    fn write_all(&mut self, piece: &[u8]) -> Result<(), Failed>
        ensures ok { OnOk result (Appends (Some self.old.kept) (Some self.new.kept) piece.now) }
        ensures err { OnErr result
            (AppendsFront (Some self.old.kept) (Some self.new.kept) piece.now) }
        ensures held { AppendsToBoth (Some self.old.kept) (Some self.new.kept)
            (Some self.old.kept) (Some self.new.kept) }
        ensures cause { HasCause self.old.faults self.new.faults result }

        // A listed write keeps nothing, and fails.
        ensures number { self.new.writes ≡ one_more self.old.writes }
        ensures listed { Contains self.old.failing self.new.writes →
            IsErr result × (self.new.kept ≡ self.old.kept) }

        // Any other keeps what there is room for, and fails where that isn't all.
        ensures fits { ¬ Contains self.old.failing self.new.writes →
            (IsOk result ↔ (length self.old.kept + length piece.now ≤ self.old.room)) }
        ensures kept { ¬ Contains self.old.failing self.new.writes →
            self.new.kept ≡ self.old.kept ++
            take (self.old.room - length self.old.kept) piece.now }

        ensures count { self.new.faults ≡ count_after self.old.faults result }
        ensures same_room { self.new.room ≡ self.old.room }
        ensures same_failing { self.new.failing ≡ self.old.failing }
    {
        self.writes = self.writes.saturating_add(1);
        if !is_listed(&self.failing, self.writes) && keep(&mut self.kept, self.room, piece) {
            return Ok(());
        }
        self.faults = self.faults.saturating_add(1);
        Err(Failed)
    }
}

// Whether a number is in the list.
fn is_listed(list: &[u32], number: u64) -> bool
    ensures { IsTrue result ↔ Contains list.now number }
{
    list.iter().any(|&listed| u64::from(listed) == number)
}

// Keeps what fits of a piece, in memory that is taken already, and says whether all of it fits.
fn keep(kept: &mut Vec<u8>, room: usize, piece: &[u8]) -> bool
    requires within { vec_len kept.old ≤ room }
    requires taken { room ≤ vec_capacity kept.old }
    ensures keeps { kept.new.items ≡ kept.old.items ++ take (room - vec_len kept.old) piece.now }
    ensures fits { IsTrue result ↔ (vec_len kept.old + length piece.now ≤ room) }
    ensures taken { room ≤ vec_capacity kept.new }
{
    let front = &piece[..piece.len().min(room - kept.len())];
    kept.extend_from_slice(front).is_ok() && front.len() == piece.len()
}

// Puts bytes from a place on, at most so many, into the front of a buffer, and says how many.
pub(crate) fn give(bytes: &[u8], at: usize, most: usize, buf: &mut [u8]) -> usize
    requires { at ≤ length bytes.now }
    ensures count { result ≡ min (min most (length (drop at bytes.now))) (length buf.new) }
    ensures same { take result buf.new ≡ take result (drop at bytes.now) }
{
    let left = &bytes[at..];
    let count = most.min(left.len()).min(buf.len());
    buf[..count].copy_from_slice(&left[..count]);
    count
}
