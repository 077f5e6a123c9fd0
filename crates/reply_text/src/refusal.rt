//! Why an input is refused, and the line that says so.
ghost use Rattle.std.specs.Prelude.{◌++◌, ◌∷◌, []};
ghost use Rattle.mill_io.specs.Blockwise.{PutsText};
ghost use Rattle.reply_text.specs.Refusal.{words_of_refusal};
ghost use Rattle.reply_text.specs.declared.refusal.Refusal.TheVariants.{Instance, Answer};

use crate::line::put_two_named;
use answer_text::AnswerTextError;
use instance_text::InstanceError;
use line_text::put_named;
use mill_io::{Block, Failed, Sink};

/// Why an input is refused. What a reader says of its text is nested; want of memory says nothing
/// of a text, and is no reason. Bytes are counted from 0.
#[derive(Clone, Copy, Debug, PartialEq, Eq)]
pub enum Refusal {
    /// It has more bytes than the limit.
    TooLong { limit: usize },
    /// It begins with no instance.
    Instance(InstanceError),
    /// The instance is followed by something other than white space, first at this byte.
    Rest { at: usize },
    /// What stands behind the instance is no answer; lines are counted from its first as 1.
    Answer(AnswerTextError),
    /// The answer has a plan without a log: there is nothing to verify.
    AnswerKind,
    /// What stands behind the instance is no schedule. Token 0 is its first where that isn't the
    /// word; else this is the first of the numbers behind it that is none or names no worker.
    Schedule { token: u64 },
}

impl Refusal {
    /// Puts the line that the program writes in.
    pub fn put_line<K: Sink>(self, sink: &mut K, block: &mut Block) -> Result<(), Failed>
        ensures { PutsText K.written K.held K.faults sink.old sink.new block.old block.new
            (words_of_refusal self ++ 10 ∷ []) result }
    {
        self.put_words(sink, block)?;
        block.put(sink, b"\n")
    }

    // Puts its words in.
    fn put_words<K: Sink>(self, sink: &mut K, block: &mut Block) -> Result<(), Failed>
        ensures { PutsText K.written K.held K.faults sink.old sink.new block.old block.new
            (words_of_refusal self) result }
    {
        match self {
            Refusal::TooLong { limit } => put_named(sink, block, b"refused long ", limit as u64),
            Refusal::Instance(why) => put_refused_instance(sink, block, why),
            Refusal::Rest { at } => put_named(sink, block, b"refused rest byte ", at as u64),
            Refusal::Answer(why) => put_refused_answer(sink, block, why),
            Refusal::AnswerKind => block.put(sink, b"refused answer kind"),
            Refusal::Schedule { token } => {
                put_named(sink, block, b"refused schedule token ", token)
            }
        }
    }
}

// Puts in what is written where no instance is in front.
fn put_refused_instance<K: Sink>(
    sink: &mut K,
    block: &mut Block,
    why: InstanceError,
) -> Result<(), Failed>
    ensures { PutsText K.written K.held K.faults sink.old sink.new block.old block.new
        (words_of_refusal (Instance why)) result }
{
    match why {
        InstanceError::BadByte { at } => {
            put_named(sink, block, b"refused instance byte ", at as u64)
        }
        InstanceError::Short { token } => {
            put_named(sink, block, b"refused instance short token ", token as u64)
        }
        InstanceError::OutOfRange { what, token } => {
            block.put(sink, b"refused instance range ")?;
            block.put(sink, what.name().as_bytes())?;
            put_named(sink, block, b" token ", token as u64)
        }
        InstanceError::OutOfMemory => block.put(sink, b"refused instance memory"),
    }
}

// Puts in what is written where no answer is behind the instance.
fn put_refused_answer<K: Sink>(
    sink: &mut K,
    block: &mut Block,
    why: AnswerTextError,
) -> Result<(), Failed>
    ensures { PutsText K.written K.held K.faults sink.old sink.new block.old block.new
        (words_of_refusal (Answer why)) result }
{
    match why {
        AnswerTextError::BadLine { line } => {
            put_named(sink, block, b"refused answer line ", line)
        }
        AnswerTextError::NotRising { line } => {
            put_named(sink, block, b"refused answer line ", line)?;
            block.put(sink, b" not rising")
        }
        AnswerTextError::CountDiffers { stated, found } => {
            put_two_named(
                sink,
                block,
                b"refused answer count stated ",
                stated,
                b" found ",
                found,
            )
        }
        AnswerTextError::OutOfMemory => block.put(sink, b"refused answer memory"),
    }
}
