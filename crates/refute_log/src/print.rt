//! The text of a log, printed, or put through a block as a part of another text.
ghost use Rattle.std.specs.Prelude.{◌≡◌, ◌++◌, ◌∷◌, [], IfOk, OnOk, flat_map, length};
ghost use Rattle.std.specs.Io.KnownBytes.{Appends};
ghost use Rattle.mill_io.specs.Blockwise.{PutsText};
ghost use Rattle.line_text.specs.Lines.{text_lines, text_of};
ghost use Rattle.refute_log.specs.Logged.{IsLog};
ghost use Rattle.refute_log.specs.Text.{log_text, log_lines, record_line, letter_of, closing_words};
ghost use Rattle.refute_log.specs.Text.{IsLogText};

use crate::log::Log;
use line_text::{put_named, put_ordinals, put_signed_numbers};
use mill_io::{Block, Failed, Sink, VecSink};
use mill_model::{Closing, Entry, OutOfMemory};
use std::alloc::Global;

/// The text of a log.
pub fn print_log(alloc: Global, log: &Log) -> Result<Vec<u8>, OutOfMemory>
    ensures text { IfOk result (λ text. text.items ≡ log_text log.now) }
    ensures read_back { IfOk result (λ text. IsLogText log.now (text_lines text.items)) }
{
    let mut text = VecSink::new(alloc);
    match write_log(&mut text, log) {
        Ok(()) => Ok(text.into_bytes()),
        Err(_) => Err(OutOfMemory),
    }
}

// Writes the text of a log.
fn write_log<K: Sink>(sink: &mut K, log: &Log) -> Result<(), Failed>
    ensures whole { OnOk result (Appends (K.written sink.old) (K.written sink.new)
        (log_text log.now)) }
    ensures kept { IsLog log.now }
{
    let mut block = Block::new();
    put_log(sink, &mut block, log)?;
    block.put(sink, b"end\n")?;
    block.finish(sink)
}

/// Puts the lines of a log before `end` in.
pub fn put_log<K: Sink>(sink: &mut K, block: &mut Block, log: &Log) -> Result<(), Failed>
    ensures puts { PutsText K.written K.held K.faults sink.old sink.new block.old block.new
        (text_of (log_lines (length log.now.entries) log.now.entries)) result }
    ensures kept { IsLog log.now }
{
    let entries = log.entries();
    put_named(sink, block, b"log 1 ", entries.len() as u64)?;
    block.put(sink, b"\n")?;
    put_records(sink, block, entries)
}

// Puts the lines of records in.
fn put_records<K: Sink>(sink: &mut K, block: &mut Block, entries: &[Entry]) -> Result<(), Failed>
    ensures { PutsText K.written K.held K.faults sink.old sink.new block.old block.new
        (flat_map (λ entry. record_line entry ++ 10 ∷ []) entries.now) result }
{
    for entry in entries {
        put_record(sink, block, entry)?;
    }
    Ok(())
}

// Puts the line of a record in, with its line feed.
fn put_record<K: Sink>(sink: &mut K, block: &mut Block, entry: &Entry) -> Result<(), Failed>
    ensures { PutsText K.written K.held K.faults sink.old sink.new block.old block.new
        (record_line entry.now ++ 10 ∷ []) result }
{
    let path = entry.path.numbers();
    put_named(sink, block, letter(&entry.closing), path.len() as u64)?;
    put_ordinals(sink, block, path)?;
    put_closing(sink, block, &entry.closing)?;
    block.put(sink, b"\n")
}

// The letter of how a path is closed, and a space.
fn letter(closing: &Closing) -> &'static [u8]
    ensures { result.now ≡ letter_of closing.now ++ 32 ∷ [] }
{
    match closing {
        Closing::Split => b"S ",
        Closing::Leaf => b"L ",
        Closing::Priced(_) => b"P ",
        Closing::Dominated(_) => b"D ",
    }
}

// Puts a space and the word in, for each of the words behind the path.
fn put_closing<K: Sink>(sink: &mut K, block: &mut Block, closing: &Closing) -> Result<(), Failed>
    ensures { PutsText K.written K.held K.faults sink.old sink.new block.old block.new
        (flat_map (λ word. 32 ∷ word) (closing_words closing.now)) result }
{
    match closing {
        Closing::Split | Closing::Leaf => Ok(()),
        Closing::Priced(prices) => put_signed_numbers(sink, block, prices.list()),
        Closing::Dominated(other) => put_ordinals(sink, block, other.numbers()),
    }
}
