//! What is said of an answer to an instance, and the line that says so.
ghost use Rattle.std.specs.Prelude.{◌≡◌, ◌+◌, ◌++◌, ◌∷◌, [], decimal, flat_map, length};
ghost use Rattle.mill_io.specs.Blockwise.{PutsText};
ghost use Rattle.reply_text.specs.Judgement.{is_accepted, number_of, words_of_judgement};
ghost use Rattle.line_text.specs.Numbers.{ordinal};

use crate::line::put_two_named;
use line_text::{put_named, put_ordinals};
use mill_io::{Block, Failed, Sink};
use mill_model::Path;

/// What is said of an answer to an instance. Slabs, orders and groups are counted from 0.
#[derive(Debug, Drop)]
pub enum Judgement {
    /// The plan is legal and loses what is stated.
    Legal { loss: u64 },
    /// And the log refutes it: no legal plan loses less.
    Verified { loss: u64 },
    /// The stated order is the first that no slab holds.
    Confirmed { order: u16 },
    /// The lowest slab that isn't legal is too heavy.
    Heavy { slab: u16, load: u64 },
    /// The lowest slab that isn't legal is light enough, but has too many colours.
    Colourful { slab: u16, colours: u16 },
    /// The plan is legal, but doesn't lose what is stated.
    LossDiffers { stated: u64, found: u64 },
    /// Another order is the first that no slab holds, or none is.
    OrderDiffers { stated: u16, found: Option<u16> },
    /// The log's first wrong path has no record, and should have one.
    Missing { path: Path },
    /// The log's first wrong path has a record, and should have none.
    Stray { path: Path },
    /// The record of the log's first wrong path doesn't hold up.
    Unsound { path: Path },
}

impl Judgement {
    /// Whether the answer is as it says.
    pub fn is_accepted(&self) -> bool
        ensures { result ≡ is_accepted self.now }
    {
        matches!(
            self,
            Judgement::Legal { .. } | Judgement::Verified { .. } | Judgement::Confirmed { .. }
        )
    }

    /// Puts the line that the program writes in.
    pub fn put_line<K: Sink>(&self, sink: &mut K, block: &mut Block) -> Result<(), Failed>
        ensures { PutsText K.written K.held K.faults sink.old sink.new block.old block.new
            (words_of_judgement self.now ++ 10 ∷ []) result }
    {
        self.put_words(sink, block)?;
        block.put(sink, b"\n")
    }

    // Puts its words in.
    fn put_words<K: Sink>(&self, sink: &mut K, block: &mut Block) -> Result<(), Failed>
        ensures { PutsText K.written K.held K.faults sink.old sink.new block.old block.new
            (words_of_judgement self.now) result }
    {
        match self {
            Judgement::Legal { loss } => put_named(sink, block, b"legal loss ", *loss),
            Judgement::Verified { loss } => put_named(sink, block, b"verified loss ", *loss),
            Judgement::Confirmed { order } => {
                put_named(
                    sink,
                    block,
                    b"confirmed infeasible order ",
                    *order as u64 + 1,
                )
            }
            Judgement::Heavy { slab, load } => {
                put_rejected(
                    sink,
                    block,
                    b"rejected heavy slab ",
                    *slab,
                    b" load ",
                    *load,
                )
            }
            Judgement::Colourful { slab, colours } => {
                let count = *colours as u64;
                put_rejected(
                    sink,
                    block,
                    b"rejected colourful slab ",
                    *slab,
                    b" colours ",
                    count,
                )
            }
            Judgement::LossDiffers { stated, found } => {
                put_two_named(
                    sink,
                    block,
                    b"rejected loss stated ",
                    *stated,
                    b" found ",
                    *found,
                )
            }
            Judgement::OrderDiffers { stated, found } => {
                let first = number_of(*found);
                put_rejected(
                    sink,
                    block,
                    b"rejected order stated ",
                    *stated,
                    b" found ",
                    first,
                )
            }
            Judgement::Missing { path } => put_wrong_path(sink, block, b"rejected missing ", path),
            Judgement::Stray { path } => put_wrong_path(sink, block, b"rejected stray ", path),
            Judgement::Unsound { path } => put_wrong_path(sink, block, b"rejected unsound ", path),
        }
    }
}

// The number of an order that is counted from 1, or 0 where there is none.
fn number_of(order: Option<u16>) -> u64
    ensures { result ≡ number_of order }
{
    match order {
        Some(order) => order as u64 + 1,
        None => 0,
    }
}

// Puts in what is rejected and why: words and a number, twice. The first number is of a thing that
// is counted from 0, and is put in as counted from 1.
fn put_rejected<K: Sink>(
    sink: &mut K,
    block: &mut Block,
    name: &[u8],
    thing: u16,
    other: &[u8],
    count: u64,
) -> Result<(), Failed>
    ensures { PutsText K.written K.held K.faults sink.old sink.new block.old block.new
        (name.now ++ decimal (thing + 1) ++ other.now ++ decimal count) result }
{
    put_two_named(sink, block, name, thing as u64 + 1, other, count)
}

// Puts words in, and the length and the numbers of a path of a log that is wrong there.
fn put_wrong_path<K: Sink>(
    sink: &mut K,
    block: &mut Block,
    name: &[u8],
    path: &Path,
) -> Result<(), Failed>
    ensures { PutsText K.written K.held K.faults sink.old sink.new block.old block.new
        (name.now ++ decimal (length path.now) ++ flat_map (λ group. 32 ∷ ordinal group) path.now)
        result }
{
    let numbers = path.numbers();
    put_named(sink, block, name, numbers.len() as u64)?;
    put_ordinals(sink, block, numbers)
}
