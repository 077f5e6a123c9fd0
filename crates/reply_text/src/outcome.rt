//! What a job is answered: its status and its text.
ghost use Rattle.std.specs.Prelude.{◌≡◌, OnOk, OnErr};
ghost use Rattle.std.specs.Io.KnownBytes.{Appends};
ghost use Rattle.mill_io.specs.Blockwise.{PutsText};
ghost use Rattle.mill_io.specs.Bytes.{AppendsFront, AppendsToBoth};
ghost use Rattle.mill_io.specs.Causes.{HasCause};
ghost use Rattle.reply_text.specs.Outcome.{run_of, status_of, status_of_answer, text_of, IsToTell};

use crate::{
    ACCEPTED, FEASIBLE, INFEASIBLE, Judgement, OPTIMAL, REFUSED, REJECTED, Refusal, Solution,
    Summary,
};
use answer_text::{Answer, put_answer};
use mill_io::{Block, Failed, Sink};
use refute_log::Run;

/// What a job is answered.
#[derive(Debug, Drop)]
pub enum Outcome {
    /// The input is refused.
    Refused(Refusal),
    /// A plan that loses least, or one that a bounded search gives and its run, or that there is no
    /// legal plan.
    Solved(Solution),
    /// What is said of the answer that was given.
    Judged(Judgement),
    /// What came of the search of an instance that was made.
    Drilled(Summary),
}

impl Outcome {
    /// The status that the program ends with where the text is written whole.
    pub fn status(&self) -> u8
        ensures { result ≡ status_of self.now }
    {
        match self {
            Outcome::Refused(_) => REFUSED,
            Outcome::Solved(solution) => answer_status(&solution.answer),
            Outcome::Judged(judgement) if judgement.is_accepted() => ACCEPTED,
            Outcome::Judged(_) => REJECTED,
            Outcome::Drilled(summary) => summary.ending.status(),
        }
    }

    /// Writes the text in blocks, so that it is never held whole. It takes no memory.
    pub fn write<K: Sink>(&self, sink: &mut K) -> Result<(), Failed>
        requires { IsToTell self.now }
        ensures ok { OnOk result (Appends (K.written sink.old) (K.written sink.new)
            (text_of self.now)) }
        ensures err { OnErr result (AppendsFront (K.written sink.old) (K.written sink.new)
            (text_of self.now)) }
        ensures held { AppendsToBoth (K.written sink.old) (K.written sink.new)
            (K.held sink.old) (K.held sink.new) }
        ensures cause { HasCause (K.faults sink.old) (K.faults sink.new) result }
    {
        let mut block = Block::new();
        self.put_text(sink, &mut block)?;
        block.finish(sink)
    }

    // Puts the text in.
    fn put_text<K: Sink>(&self, sink: &mut K, block: &mut Block) -> Result<(), Failed>
        ensures { PutsText K.written K.held K.faults sink.old sink.new block.old block.new
            (text_of self.now) result }
    {
        match self {
            Outcome::Refused(why) => why.put_line(sink, block),
            Outcome::Solved(solution) => put_answer(sink, block, &solution.answer),
            Outcome::Judged(judgement) => judgement.put_line(sink, block),
            Outcome::Drilled(summary) => summary.put_lines(sink, block),
        }
    }

    /// The run behind an answer or a summary, where one is handed out.
    pub fn into_run(self) -> Option<Run>
        ensures { result ≡ run_of self }
    {
        match self {
            Outcome::Solved(solution) => solution.run,
            Outcome::Drilled(summary) => summary.ending.into_run(),
            Outcome::Refused(_) | Outcome::Judged(_) => None,
        }
    }
}

// The status that the program ends with where it writes an answer.
fn answer_status(answer: &Answer) -> u8
    ensures { result ≡ status_of_answer answer.now }
{
    match answer {
        Answer::Optimal { .. } => OPTIMAL,
        Answer::Infeasible { .. } => INFEASIBLE,
        Answer::Feasible { .. } => FEASIBLE,
    }
}
