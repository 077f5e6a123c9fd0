//! The text of an answer: printed, written in blocks, or put through a block.
ghost use Rattle.std.specs.Prelude.{◌≡◌, ◌+◌, ◌≤◌, ◌∷◌, ◌++◌, [], ℕ, map, IfOk, IfSome, OnOk};
ghost use Rattle.std.specs.Prelude.{OnErr};
ghost use Rattle.std.specs.Fmt.{decimal};
ghost use Rattle.std.specs.Io.KnownBytes.{Appends};
ghost use Rattle.mill_io.specs.Blockwise.{PutsText};
ghost use Rattle.mill_io.specs.Bytes.{AppendsFront, AppendsToBoth};
ghost use Rattle.mill_io.specs.Causes.{HasCause};
ghost use Rattle.line_text.specs.Lines.{text_lines, text_of};
ghost use Rattle.mill_model.specs.declared.order.TheConstants.{MAX_ORDERS};
ghost use Rattle.refute_log.specs.Logged.{IsLog};
ghost use Rattle.answer_text.specs.Line.{plan, spell};
ghost use Rattle.answer_text.specs.Text.{lines_of, refutation_of, lines_of_log, answer_text};
ghost use Rattle.answer_text.specs.Text.{most_orders, Fits, IsAnswerText};

use crate::answer::Answer;
use line_text::{put_named, put_ordinals};
use mill_io::{Block, Failed, Sink, VecSink};
use mill_model::{OutOfMemory, Plan};
use refute_log::{Log, put_log};
use std::alloc::Global;

/// The text of an answer. What it says of the numbers of slabs and orders is counted from 1.
pub fn print_answer(alloc: Global, answer: &Answer) -> Result<Vec<u8>, OutOfMemory>
    requires { Fits (most_orders answer.now) answer.now }
    ensures text { IfOk result (λ text. text.items ≡ answer_text answer.now) }
    ensures read_back { IfOk result (λ text. (orders : ℕ) → orders ≤ MAX_ORDERS
        → Fits orders answer.now → IsAnswerText orders answer.now (text_lines text.items)) }
{
    let mut text = VecSink::new(alloc);
    match write_answer(&mut text, answer) {
        Ok(()) => Ok(text.into_bytes()),
        Err(_) => Err(OutOfMemory),
    }
}

/// Writes the text of an answer in blocks, so that it is never held whole. It takes no memory.
pub fn write_answer<K: Sink>(sink: &mut K, answer: &Answer) -> Result<(), Failed>
    requires { Fits (most_orders answer.now) answer.now }
    ensures ok { OnOk result (Appends (K.written sink.old) (K.written sink.new)
        (answer_text answer.now)) }
    ensures err { OnErr result (AppendsFront (K.written sink.old) (K.written sink.new)
        (answer_text answer.now)) }
    ensures held { AppendsToBoth (K.written sink.old) (K.written sink.new)
        (K.held sink.old) (K.held sink.new) }
    ensures cause { HasCause (K.faults sink.old) (K.faults sink.new) result }
    ensures read_back { OnOk result ((orders : ℕ) → orders ≤ MAX_ORDERS → Fits orders answer.now
        → IsAnswerText orders answer.now (text_lines (answer_text answer.now))) }
{
    let mut block = Block::new();
    put_answer(sink, &mut block, answer)?;
    block.finish(sink)
}

/// Puts the text of an answer in.
pub fn put_answer<K: Sink>(sink: &mut K, block: &mut Block, answer: &Answer) -> Result<(), Failed>
    ensures puts { PutsText K.written K.held K.faults sink.old sink.new block.old block.new
        (answer_text answer.now) result }
    ensures log { OnOk result (IfSome (refutation_of answer.now) IsLog) }
{
    put_lines(sink, block, answer)?;
    block.put(sink, b"end\n")
}

// Puts the lines of an answer before `end` in, those of its log included.
fn put_lines<K: Sink>(sink: &mut K, block: &mut Block, answer: &Answer) -> Result<(), Failed>
    ensures puts { PutsText K.written K.held K.faults sink.old sink.new block.old block.new
        (text_of (map spell (lines_of answer.now) ++ lines_of_log (refutation_of answer.now)))
        result }
    ensures log { OnOk result (IfSome (refutation_of answer.now) IsLog) }
{
    match answer {
        Answer::Optimal {
            loss,
            plan,
            refutation,
        } => {
            put_loss_and_plan(sink, block, b"optimal\nloss ", *loss, plan)?;
            put_refutation(sink, block, refutation)
        }
        Answer::Feasible { loss, plan, spent } => {
            put_loss_and_plan(sink, block, b"feasible\nloss ", *loss, plan)?;
            put_named_line(sink, block, b"spent ", *spent)
        }
        Answer::Infeasible { order } => {
            put_named_line(sink, block, b"infeasible\norder ", u64::from(*order) + 1)
        }
    }
}

// Puts words and what a plan loses in, and the line of the plan.
fn put_loss_and_plan<K: Sink>(
    sink: &mut K,
    block: &mut Block,
    name: &[u8],
    lost: u64,
    slabs: &Plan,
) -> Result<(), Failed>
    ensures { PutsText K.written K.held K.faults sink.old sink.new block.old block.new
        (name.now ++ (decimal lost ++ 10 ∷ (spell (plan slabs.now) ++ 10 ∷ []))) result }
{
    put_named(sink, block, name, lost)?;
    block.put(sink, b"\nplan")?;
    put_ordinals(sink, block, slabs.slabs())?;
    block.put(sink, b"\n")
}

// Puts the lines of a log before `end` in, where there is one.
fn put_refutation<K: Sink>(
    sink: &mut K,
    block: &mut Block,
    refutation: &Option<Log>,
) -> Result<(), Failed>
    ensures puts { PutsText K.written K.held K.faults sink.old sink.new block.old block.new
        (text_of (lines_of_log refutation.now)) result }
    ensures log { IfSome refutation.now IsLog }
{
    match refutation {
        Some(log) => put_log(sink, block, log),
        None => Ok(()),
    }
}

// Puts words and a number in, and a line feed.
fn put_named_line<K: Sink>(
    sink: &mut K,
    block: &mut Block,
    name: &[u8],
    number: u64,
) -> Result<(), Failed>
    ensures { PutsText K.written K.held K.faults sink.old sink.new block.old block.new
        (name.now ++ (decimal number ++ 10 ∷ [])) result }
{
    put_named(sink, block, name, number)?;
    block.put(sink, b"\n")
}
