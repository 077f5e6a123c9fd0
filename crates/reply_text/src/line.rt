ghost use Rattle.std.specs.Prelude.{◌++◌, decimal};
ghost use Rattle.mill_io.specs.Blockwise.{PutsText};

use line_text::put_named;
use mill_io::{Block, Failed, Sink};

/// Puts two numbers in, each behind its words.
pub fn put_two_named<K: Sink>(
    sink: &mut K,
    block: &mut Block,
    name: &[u8],
    number: u64,
    other: &[u8],
    count: u64,
) -> Result<(), Failed>
    ensures { PutsText K.written K.held K.faults sink.old sink.new block.old block.new
        (name.now ++ decimal number ++ other.now ++ decimal count) result }
{
    put_named(sink, block, name, number)?;
    put_named(sink, block, other, count)
}
