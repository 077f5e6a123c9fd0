//! The usage line, written from the tables of commands and options.
ghost use Rattle.std.specs.Prelude.{ℕ, ◌++◌, flat_map, OnOk, OnErr};
ghost use Rattle.std.specs.Io.KnownBytes.{Appends};
ghost use Rattle.mill_io.specs.Blockwise.{PutsText};
ghost use Rattle.mill_io.specs.Bytes.{AppendsFront, AppendsToBoth};
ghost use Rattle.mill_io.specs.Causes.{HasCause};
ghost use Rattle.job_words.specs.Usage.{between, usage_line};

use crate::command::COMMANDS;
use crate::option::OPTIONS;
use crate::table::Row;
use mill_io::{Block, Failed, Sink};

/// Writes how the program is used, from the tables of commands and options, in one piece. It takes
/// no memory.
pub fn write_usage<K: Sink>(sink: &mut K) -> Result<(), Failed>
    ensures ok { OnOk result (Appends (K.written sink.old) (K.written sink.new) usage_line) }
    ensures err { OnErr result
        (AppendsFront (K.written sink.old) (K.written sink.new) usage_line) }
    ensures held { AppendsToBoth (K.written sink.old) (K.written sink.new)
        (K.held sink.old) (K.held sink.new) }
    ensures cause { HasCause (K.faults sink.old) (K.faults sink.new) result }
{
    let mut block = Block::new();
    put_usage(sink, &mut block)?;
    block.finish(sink)
}

// Puts the usage line in.
fn put_usage<K: Sink>(sink: &mut K, block: &mut Block) -> Result<(), Failed>
    ensures { PutsText K.written K.held K.faults sink.old sink.new block.old block.new
        usage_line result }
{
    put_names(sink, block, "usage: mill_slab ", &COMMANDS[..1], "")?;
    put_names(sink, block, "|", &COMMANDS[1..], "")?;
    put_names(sink, block, " [", &OPTIONS, " N]")?;
    block.put(sink, b"\n")
}

// Puts each name in, between two texts.
fn put_names<T, K: Sink>(
    sink: &mut K,
    block: &mut Block,
    before: &str,
    table: &[Row<T>],
    behind: &str,
) -> Result<(), Failed>
    ensures { PutsText K.written K.held K.faults sink.old sink.new block.old block.new
        (flat_map (λ row. between before.now row.0.now behind.now) table.now) result }
{
    for row in table {
        put_name(sink, block, before, row.0, behind)?;
    }
    Ok(())
}

// Puts a name in, between two texts.
fn put_name<K: Sink>(
    sink: &mut K,
    block: &mut Block,
    before: &str,
    name: &str,
    behind: &str,
) -> Result<(), Failed>
    ensures { PutsText K.written K.held K.faults sink.old sink.new block.old block.new
        (between before.now name.now behind.now) result }
{
    block.put(sink, before.as_bytes())?;
    block.put(sink, name.as_bytes())?;
    block.put(sink, behind.as_bytes())
}
