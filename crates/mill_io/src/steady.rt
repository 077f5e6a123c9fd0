//! A source in memory and a sink that counts, which never fail.
ghost use Rattle.std.specs.Prelude.{◌≡◌, ℕ, ◌+◌, ◌-◌, ◌^◌, ◌≤◌, [], drop, length, min, take};
ghost use Rattle.std.specs.Prelude.{IfOk, Ok, Some, None};
ghost use Rattle.std.specs.Io.{ReadsAtMost};
ghost use Rattle.std.specs.Io.KnownBytes.{ReadConsumes};
ghost use Rattle.mill_io.specs.Bytes.{FindsEnd, Gives};
ghost use Rattle.mill_io.specs.Causes.{HasCause};
ghost use Rattle.mill_io.specs.Memory.{Feed};

use crate::memory::give;
use crate::{Failed, Sink, Source};
use mill_model::OutOfMemory;
use std::alloc::Global;
use std::marker::Model;

/// A source over bytes in memory, none of whose reads fails.
#[derive(Debug, Drop)]
pub struct SteadySource {
    bytes: Vec<u8>,
    at: usize,
}

impl Model for SteadySource {
    ghost Value = { Feed };

    ghost view = { λ s. record {
      given = take s.at s.bytes.items;
      left = drop s.at s.bytes.items;
    } };

    ghost invariant = { λ s. s.at ≤ length s.bytes.items };
}

impl SteadySource {
    /// A source of these bytes.
    pub fn new(alloc: Global, bytes: &[u8]) -> Result<SteadySource, OutOfMemory>
        ensures { IfOk result (λ source. source ≡ record { given = []; left = bytes.now }) }
    {
        Ok(SteadySource {
            bytes: bytes.to_vec(alloc)?,
            at: 0,
        })
    }
}

impl Source for SteadySource {
    ghost left = { λ s. Some s.left };

    ghost given = { λ s. s.given };

    ghost ended = { λ s. s.left ≡ [] };

    ghost faults = { λ _. 0 };

    fn read(&mut self, buf: &mut [u8]) -> Result<usize, Failed>
        ensures bound { ReadsAtMost result buf.new }
        ensures bytes { ReadConsumes (Some self.old.left) (Some self.new.left) result buf.new }
        ensures given { Gives self.old.given self.new.given result buf.new }
        ensures end { FindsEnd result buf.new → self.new.left ≡ [] }
        ensures cause { HasCause 0 0 result }
        ensures most { result ≡ Ok (min (length self.old.left) (length buf.old)) }
    {
        let count = give(&self.bytes, self.at, buf.len(), buf);
        self.at += count;
        Ok(count)
    }
}

/// A sink that counts bytes, up to the greatest u64, and throws them away. No write to it fails.
#[derive(Debug, Drop)]
pub struct SteadySink {
    count: u64,
}

impl Model for SteadySink {
    ghost Value = { ℕ };

    ghost view = { λ s. s.count };
}

impl SteadySink {
    /// A sink that has counted nothing.
    pub fn new() -> SteadySink
        ensures { result ≡ 0 }
    {
        SteadySink { count: 0 }
    }

    /// How many bytes were written.
    pub fn count(&self) -> u64
        ensures { result ≡ self.now }
    {
        self.count
    }
}

impl Sink for SteadySink {
    ghost written = { λ _. None };

    ghost held = { λ _. None };

    ghost faults = { λ _. 0 };

    fn write_all(&mut self, piece: &[u8]) -> Result<(), Failed>
        ensures cause { HasCause 0 0 result }
        ensures count { self.new ≡ min (self.old + length piece.now) (2 ^ 64 - 1) }
    {
        self.count = self.count.saturating_add(piece.len() as u64);
        Ok(())
    }
}
