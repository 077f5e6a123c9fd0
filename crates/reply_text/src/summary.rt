//! What came of the search of an instance that was made, and its lines.
ghost use Rattle.std.specs.Prelude.{◌≡◌, ◌++◌, ◌∷◌, []};
ghost use Rattle.mill_io.specs.Blockwise.{PutsText};
ghost use Rattle.line_text.specs.Lines.{text_of};
ghost use Rattle.reply_text.specs.Summary.{first_line, lines_of_ending, lines_of_summary};
ghost use Rattle.reply_text.specs.Summary.{run_behind, status_of_ending};

use crate::line::put_two_named;
use crate::{FEASIBLE, OPTIMAL};
use line_text::put_named;
use mill_io::{Block, Failed, Sink};
use refute_log::Run;

/// How the search of an instance ended, without the plan that it ended with.
#[derive(Debug, Drop)]
pub enum Ending {
    /// No legal plan loses less.
    Optimal { loss: u64 },
    /// The budget was spent first: as many paths were closed as `spent` says, and the run shows it.
    Feasible { loss: u64, spent: u64, run: Run },
}

/// What came of the search of an instance that was made from a seed.
#[derive(Debug, Drop)]
pub struct Summary {
    pub seed: u32,
    /// How many orders the instance has.
    pub orders: u16,
    /// What they weigh together.
    pub weight: u64,
    pub ending: Ending,
}

impl Ending {
    /// The status that the program ends with.
    pub fn status(&self) -> u8
        ensures { result ≡ status_of_ending self.now }
    {
        match self {
            Ending::Optimal { .. } => OPTIMAL,
            Ending::Feasible { .. } => FEASIBLE,
        }
    }

    /// The run behind it, where paths are left.
    pub fn into_run(self) -> Option<Run>
        ensures { result ≡ run_behind self }
    {
        match self {
            Ending::Optimal { .. } => None,
            Ending::Feasible { run, .. } => Some(run),
        }
    }

    // Puts its lines in.
    fn put_lines<K: Sink>(&self, sink: &mut K, block: &mut Block) -> Result<(), Failed>
        ensures { PutsText K.written K.held K.faults sink.old sink.new block.old block.new
            (text_of (lines_of_ending self.now)) result }
    {
        match self {
            Ending::Optimal { loss } => {
                put_named(sink, block, b"optimal\nloss ", *loss)?;
                block.put(sink, b"\nend\n")
            }
            Ending::Feasible { loss, spent, .. } => {
                put_two_named(sink, block, b"feasible\nloss ", *loss, b"\nspent ", *spent)?;
                block.put(sink, b"\nend\n")
            }
        }
    }
}

impl Summary {
    /// Puts the lines that the program writes in.
    pub fn put_lines<K: Sink>(&self, sink: &mut K, block: &mut Block) -> Result<(), Failed>
        ensures { PutsText K.written K.held K.faults sink.old sink.new block.old block.new
            (text_of (lines_of_summary self.now)) result }
    {
        self.put_first_line(sink, block)?;
        self.ending.put_lines(sink, block)
    }

    // Puts its first line in.
    fn put_first_line<K: Sink>(&self, sink: &mut K, block: &mut Block) -> Result<(), Failed>
        ensures { PutsText K.written K.held K.faults sink.old sink.new block.old block.new
            (first_line self.now ++ 10 ∷ []) result }
    {
        let (seed, orders) = (u64::from(self.seed), u64::from(self.orders));
        put_two_named(sink, block, b"drill seed ", seed, b" orders ", orders)?;
        put_named(sink, block, b" weight ", self.weight)?;
        block.put(sink, b"\n")
    }
}
