//! Where bytes come from and where they go: what a read and a write promise.
ghost use Rattle.std.specs.Prelude.{ℕ, List, Option, OnOk, OnErr};
ghost use Rattle.std.specs.Io.{ReadsAtMost};
ghost use Rattle.std.specs.Io.KnownBytes.{Appends, ReadConsumes};
ghost use Rattle.mill_io.specs.Bytes.{AppendsFront, AppendsToBoth, FindsEnd, Gives};
ghost use Rattle.mill_io.specs.Causes.{HasCause};

use thiserror::Error;

/// A read of a source or a write to a sink failed.
#[derive(Clone, Copy, Debug, PartialEq, Eq, Error)]
#[error("a read or a write failed")]
pub struct Failed;

/// Where bytes come from.
pub trait Source {
    // The bytes to come, where they are told.
    ghost left: { Self → Option (List ℕ) };

    // The bytes that its reads gave so far.
    ghost given: { Self → List ℕ };

    // It is at its end.
    ghost ended: { Self → Type 0 };

    // How many reads failed.
    ghost faults: { Self → ℕ };

    /// Reads some bytes into the front of a buffer, and says how many: none only at the end, or
    /// where the buffer is empty. A read that fails takes none.
    fn read(&mut self, buf: &mut [u8]) -> Result<usize, Failed>
        ensures bound { ReadsAtMost result buf.new }
        ensures bytes { ReadConsumes (left self.old) (left self.new) result buf.new }
        ensures given { Gives (given self.old) (given self.new) result buf.new }
        ensures end { FindsEnd result buf.new → ended self.new }
        ensures cause { HasCause (faults self.old) (faults self.new) result };
}

/// Where bytes go to.
pub trait Sink {
    // The bytes that were written, where they are told.
    ghost written: { Self → Option (List ℕ) };

    // What is held at the place that the bytes go to, if that is told.
    ghost held: { Self → Option (List ℕ) };

    // How many writes failed.
    ghost faults: { Self → ℕ };

    /// Writes a piece, whole. Where that fails, a front of the piece was written.
    fn write_all(&mut self, piece: &[u8]) -> Result<(), Failed>
        ensures ok { OnOk result (Appends (written self.old) (written self.new) piece.now) }
        ensures err { OnErr result (AppendsFront (written self.old) (written self.new) piece.now) }
        ensures held { AppendsToBoth (written self.old) (written self.new)
            (held self.old) (held self.new) }
        ensures cause { HasCause (faults self.old) (faults self.new) result };
}
