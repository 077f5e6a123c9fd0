//! A source, read to its end within a limit, or the reason why it couldn't be.
ghost use Rattle.std.specs.Prelude.{◌≡◌, ◌≢◌, ◌+◌, ◌≤◌, ◌++◌, vec_len, IfOk, OnOk, IsErrOf};
ghost use Rattle.std.specs.Io.KnownBytes.{Consumes, IsAtEnd};
ghost use Rattle.mill_io.specs.Bytes.{GivesAtMost, GivesCount, GivesLost, HasMoreThan};
ghost use Rattle.mill_io.specs.Bytes.{Loses, LosesAtMost};
ghost use Rattle.mill_io.specs.Causes.{Rose};

use crate::Source;
use std::alloc::Global;
use thiserror::Error;

/// Why a source wasn't read to its end.
#[derive(Clone, Copy, Debug, PartialEq, Eq, Error)]
pub enum ReadError {
    /// A read failed.
    #[error("a read failed")]
    ReadFault,
    /// The source gave more bytes than the limit.
    #[error("the input is too long")]
    TooLong,
    /// Want of memory: a growth was refused.
    #[error("out of memory")]
    OutOfMemory,
}

/// Reads a source to its end. Never more than one byte past the limit is taken from it.
pub fn read_all<S: Source>(
    alloc: Global,
    source: &mut S,
    limit: usize,
) -> Result<Vec<u8>, ReadError>
    ensures all { IfOk result (λ bytes.
        Consumes (S.left source.old) (S.left source.new) bytes.items) }
    ensures end { OnOk result (IsAtEnd (S.left source.new)) }
    ensures within { IfOk result (λ bytes. vec_len bytes ≤ limit) }

    // What is read is what the reads gave, and the source is at its end. Whatever the answer is,
    // they gave all that was lost.
    ensures given { IfOk result (λ bytes.
        S.given source.new ≡ S.given source.old ++ bytes.items) }
    ensures ended { OnOk result (S.ended source.new) }
    ensures lost { GivesLost (S.left source.old) (S.left source.new)
        (S.given source.old) (S.given source.new) }
    ensures given_past { IsErrOf result ReadError.TooLong →
        GivesCount (limit + 1) (S.given source.old) (S.given source.new) }
    ensures given_within { result ≢ Err ReadError.TooLong →
        GivesAtMost limit (S.given source.old) (S.given source.new) }

    // `ReadFault` is the answer to a fault, and to nothing else.
    ensures later { S.faults source.old ≤ S.faults source.new }
    ensures fault { IsErrOf result ReadError.ReadFault →
        Rose (S.faults source.old) (S.faults source.new) }
    ensures no_fault { result ≢ Err ReadError.ReadFault →
        S.faults source.new ≡ S.faults source.old }

    // `TooLong` is the answer where more than `limit` bytes were given, and nowhere else.
    ensures too_long { IsErrOf result ReadError.TooLong → HasMoreThan limit (S.left source.old) }
    ensures lost_past { IsErrOf result ReadError.TooLong →
        Loses (limit + 1) (S.left source.old) (S.left source.new) }
    ensures lost_within { result ≢ Err ReadError.TooLong →
        LosesAtMost limit (S.left source.old) (S.left source.new) }
{
    let mut bytes = Vec::new(alloc);
    let mut buf = [0; CHUNK];
    loop {
        let room = limit - bytes.len();
        let want = room.min(CHUNK - 1) + 1;
        let Ok(count) = source.read(&mut buf[..want]) else {
            return Err(ReadError::ReadFault);
        };
        if count == 0 {
            return Ok(bytes);
        }
        if count > room {
            return Err(ReadError::TooLong);
        }
        if bytes.extend_from_slice(&buf[..count]).is_err() {
            return Err(ReadError::OutOfMemory);
        }
    }
}

// How many bytes are read at a time.
const CHUNK: usize = 4096;
