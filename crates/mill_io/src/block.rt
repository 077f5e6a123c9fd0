//! A text on its way into a sink: whole blocks, and the rest last.
ghost use Rattle.std.specs.Prelude.{◌≡◌, ◌+◌, ◌<◌, ◌≤◌, [], ℕ, List, length, take, OnOk, OnErr};
ghost use Rattle.std.specs.Io.KnownBytes.{Appends};
ghost use Rattle.mill_io.specs.Blockwise.{PutsText};
ghost use Rattle.mill_io.specs.declared.block.TheConstants.{BLOCK};
ghost use Rattle.mill_io.specs.Bytes.{AppendsFront, AppendsToBoth};
ghost use Rattle.mill_io.specs.Causes.{HasCause};

use crate::{Failed, Sink};
use std::marker::Model;

/// How many bytes a block has.
pub const BLOCK: usize = 4096;

/// Bytes of a text on their way into a sink. A text is put in piece by piece, the sink gets it in
/// whole blocks and a rest, and nothing takes memory.
#[derive(Drop)]
pub struct Block {
    bytes: [u8; BLOCK],
    filled: usize,
}

impl Model for Block {
    ghost use Rattle.std.specs.Prelude.{◌<◌, ℕ, List, take};
    ghost use Rattle.mill_io.specs.declared.block.TheConstants.{BLOCK};

    ghost Value = { List ℕ };

    ghost view = { λ block. take block.filled block.bytes };

    ghost invariant = { λ block. block.filled < BLOCK };
}

impl Block {
    /// Nothing was put in.
    pub fn new() -> Block
        ensures { result ≡ [] }
    {
        Block {
            bytes: [0; BLOCK],
            filled: 0,
        }
    }

    /// Puts a piece in. Each block that it fills is written whole. Where a write fails, of what the
    /// block held and the piece behind it a front was written, and the rest is lost.
    pub fn put<K: Sink>(&mut self, sink: &mut K, piece: &[u8]) -> Result<(), Failed>
        ensures { PutsText K.written K.held K.faults sink.old sink.new
            self.old self.new piece.now result }
    {
        let mut left = piece;
        while !left.is_empty() {
            let (front, rest) = left.split_at(left.len().min(self.room()));
            self.put_short(sink, front)?;
            left = rest;
        }
        Ok(())
    }

    // How many more bytes the block has room for.
    fn room(&self) -> usize
        ensures is { length self.now + result ≡ BLOCK }
        ensures some { 0 < result }
    {
        BLOCK - self.filled
    }

    // Puts a piece in that the block has room for.
    fn put_short<K: Sink>(&mut self, sink: &mut K, piece: &[u8]) -> Result<(), Failed>
        requires some { 0 < length piece.now }
        requires short { length self.old + length piece.now ≤ BLOCK }
        ensures { PutsText K.written K.held K.faults sink.old sink.new
            self.old self.new piece.now result }
    {
        let end = self.filled + piece.len();
        self.bytes[self.filled..end].copy_from_slice(piece);
        if end < BLOCK {
            self.filled = end;
            return Ok(());
        }
        self.filled = 0;
        sink.write_all(&self.bytes)
    }

    /// Writes what is left of the text, if anything is.
    pub fn finish<K: Sink>(self, sink: &mut K) -> Result<(), Failed>
        ensures ok { OnOk result (Appends (K.written sink.old) (K.written sink.new) self) }
        ensures err { OnErr result (AppendsFront (K.written sink.old) (K.written sink.new) self) }
        ensures held { AppendsToBoth (K.written sink.old) (K.written sink.new)
            (K.held sink.old) (K.held sink.new) }
        ensures cause { HasCause (K.faults sink.old) (K.faults sink.new) result }
    {
        if self.filled == 0 {
            return Ok(());
        }
        sink.write_all(&self.bytes[..self.filled])
    }
}
