//! Canonical numbers, put through a block: alone, behind words, or in a list.
ghost use Rattle.std.specs.Prelude.{◌≡◌, ◌<◌, ◌+◌, ◌^◌, ◌∷◌, ◌++◌, flat_map};
ghost use Rattle.std.specs.Fmt.{decimal, signed_decimal};
ghost use Rattle.mill_io.specs.Blockwise.{PutsText};
ghost use Rattle.line_text.specs.Numbers.{ordinal};

use itoa::Buffer;
use mill_io::{Block, Failed, Sink};

/// Puts the canonical number in.
pub fn put_number<K: Sink>(sink: &mut K, block: &mut Block, number: u64) -> Result<(), Failed>
    ensures { PutsText K.written K.held K.faults sink.old sink.new block.old block.new
        (decimal number) result }
{
    let mut buffer = Buffer::new();
    block.put(sink, buffer.format(number).as_bytes())
}

/// Puts words and the canonical number behind them in.
pub fn put_named<K: Sink>(
    sink: &mut K,
    block: &mut Block,
    name: &[u8],
    number: u64,
) -> Result<(), Failed>
    ensures { PutsText K.written K.held K.faults sink.old sink.new block.old block.new
        (name.now ++ decimal number) result }
{
    block.put(sink, name)?;
    put_number(sink, block, number)
}

/// Puts a space and the canonical number in, for each of these.
pub fn put_signed_numbers<K: Sink>(
    sink: &mut K,
    block: &mut Block,
    numbers: &[i64],
) -> Result<(), Failed>
    ensures { PutsText K.written K.held K.faults sink.old sink.new block.old block.new
        (flat_map (λ number. 32 ∷ signed_decimal number) numbers.now) result }
{
    for number in numbers {
        put_signed(sink, block, *number)?;
    }
    Ok(())
}

/// Puts a space and the number counted from 1 in, for each of these things, which are counted
/// from 0.
pub fn put_ordinals<K: Sink>(sink: &mut K, block: &mut Block, things: &[u16]) -> Result<(), Failed>
    ensures { PutsText K.written K.held K.faults sink.old sink.new block.old block.new
        (flat_map (λ thing. 32 ∷ ordinal thing) things.now) result }
{
    for thing in things {
        put_ordinal(sink, block, *thing)?;
    }
    Ok(())
}

fn put_signed<K: Sink>(sink: &mut K, block: &mut Block, number: i64) -> Result<(), Failed>
    ensures { PutsText K.written K.held K.faults sink.old sink.new block.old block.new
        (32 ∷ signed_decimal number) result }
{
    let mut buffer = Buffer::new();
    block.put(sink, b" ")?;
    block.put(sink, buffer.format(number).as_bytes())
}

fn put_ordinal<K: Sink>(sink: &mut K, block: &mut Block, thing: u16) -> Result<(), Failed>
    ensures { PutsText K.written K.held K.faults sink.old sink.new block.old block.new
        (32 ∷ ordinal thing) result }
{
    let mut buffer = Buffer::new();
    block.put(sink, b" ")?;
    block.put(sink, buffer.format(u32::from(thing) + 1).as_bytes())
}
