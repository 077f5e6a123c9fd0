//! A sink in memory that takes what it needs as it grows.
ghost use Rattle.std.specs.Prelude.{◌≡◌, ◌++◌, [], IsErr, OnOk, OnErr, Some};
ghost use Rattle.std.specs.Io.KnownBytes.{Appends};
ghost use Rattle.mill_io.specs.Bytes.{AppendsFront, AppendsToBoth};
ghost use Rattle.mill_io.specs.Causes.{HasCause, count_after};
ghost use Rattle.mill_io.specs.Memory.{Kept};

use crate::{Failed, Sink};
use std::alloc::Global;
use std::marker::Model;

/// A sink that keeps all bytes, in memory that it takes as it grows. A write for which memory is
/// wanting keeps nothing, and fails.
#[derive(Debug, Drop)]
pub struct VecSink {
    kept: Vec<u8>,
    faults: u64,
}

impl Model for VecSink {
    ghost Value = { Kept };

    ghost view = { λ sink. record { kept = sink.kept.items; faults = sink.faults } };
}

impl VecSink {
    /// A sink that has kept nothing.
    pub fn new(alloc: Global) -> VecSink
        ensures { result ≡ record { kept = []; faults = 0 } }
    {
        VecSink {
            kept: Vec::new(alloc),
            faults: 0,
        }
    }

    /// The bytes that were kept.
    pub fn into_bytes(self) -> Vec<u8>
        ensures { result.items ≡ self.kept }
    {
        self.kept
    }
}

impl Sink for VecSink {
    ghost written = { λ s. Some s.kept };

    ghost held = { λ s. Some s.kept };

    ghost faults = { λ s. s.faults };

    fn write_all(&mut self, piece: &[u8]) -> Result<(), Failed>
        ensures ok { OnOk result (Appends (Some self.old.kept) (Some self.new.kept) piece.now) }
        ensures err { OnErr result
            (AppendsFront (Some self.old.kept) (Some self.new.kept) piece.now) }
        ensures held { AppendsToBoth (Some self.old.kept) (Some self.new.kept)
            (Some self.old.kept) (Some self.new.kept) }
        ensures cause { HasCause self.old.faults self.new.faults result }
        ensures none { IsErr result → self.new.kept ≡ self.old.kept }
        ensures count { self.new.faults ≡ count_after self.old.faults result }
    {
        if self.kept.extend_from_slice(piece).is_err() {
            self.faults = self.faults.saturating_add(1);
            return Err(Failed);
        }
        Ok(())
    }
}
