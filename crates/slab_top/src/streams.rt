//! The program between a reader and a writer of std, with the bytes that went through.
ghost use Rattle.std.specs.Prelude.{◌≡◌, ◌≢◌, ◌++◌, ◌↔◌, ℕ, List, [], None, Some, IsSome};
ghost use Rattle.std.specs.Io.KnownBytes.{Appends, Consumes};
ghost use Rattle.mill_io.specs.Standard.{reader_of, bytes_given, read_faults, HasEnded};
ghost use Rattle.mill_io.specs.Standard.{writer_of, bytes_taken, write_faults};
ghost use Rattle.job_words.specs.Words.{AskFor, texts};
ghost use Rattle.job_words.specs.declared.job.Job.{Job};
ghost use Rattle.reply_text.specs.declared.status.TheConstants.{FEASIBLE, READ_FAULT, WRITE_FAULT};
ghost use Rattle.reply_text.specs.declared.status.TheConstants.{OUT_OF_MEMORY};
ghost use Rattle.slab_top.specs.Served.{IsRight, Output, run_of, status_of, text_of};
ghost use Rattle.slab_top.specs.Agree.{MayEndWith};
ghost use Rattle.slab_top.specs.Given.{IsServedWhole};
ghost use Rattle.slab_top.specs.Run.{AskForNoInput, HasEnough, IsAnswered, IsStatus};

use crate::top::run;
use mill_io::{StdSink, StdSource};
use refute_log::Run;
use std::alloc::Global;
use std::io::{Read, Write};
use std::sync::Wait;
use std::thread::Threads;
use steal_workers::Gate;

/// What a run over a reader and a writer leaves: the two streams, which tell the bytes that passed,
/// and the status that the program ends with.
#[derive(Drop)]
pub struct RunEnd<R: Read, W: Write> {
    /// The source over the reader, which tells the bytes that its reads gave.
    pub source: StdSource<R>,
    /// The sink over the writer, which tells the bytes that it took.
    pub sink: StdSink<W>,
    /// What the program is to end with.
    pub status: u8,
}

/// Serves what the words ask for, from any reader of std to any writer of std. No clause can say
/// what the real input and output hold, so these speak of the bytes that the reads gave and the
/// writes took. Statuses, threads and the gate are those of [`run`]. Nothing is flushed, so the
/// writer is to be one that keeps no bytes back.
pub fn run_streams<H: Threads + Wait + Sync, R: Read, W: Write, G: Gate>(
    rt: &H,
    alloc: Global,
    words: &[String],
    reader: R,
    writer: W,
    gate: &G,
    kept: &mut Option<Run>,
) -> RunEnd<R, W>
    // Unless something failed, the status, all that the writer took and the run that is handed out
    // are those of an output that is right for the words and for all that the reader gave.
    ensures answered { IsAnswered result.status → (output : Output)
        × IsServedWhole (texts words.now) (bytes_given result.source) (HasEnded result.source)
        output
        × (result.status ≡ status_of output)
        × (bytes_taken result.sink ≡ text_of output)
        × (kept.new ≡ run_of output) }

    // A run is handed out exactly behind a feasible answer.
    ensures kept { result.status ≡ FEASIBLE → IsSome kept.new }
    ensures none_kept { result.status ≢ FEASIBLE → kept.new ≡ None }

    // Each output that is right for them has this status: it comes exactly there. Only whether a
    // plan is optimal or feasible is left open, where the budget isn't enough.
    ensures exact { IsAnswered result.status → (output : Output)
        → IsRight (texts words.now) (Some (bytes_given result.source)) output
        → MayEndWith output result.status }
    ensures enough { HasEnough (texts words.now) (bytes_given result.source)
        → result.status ≢ FEASIBLE }

    // Where the words ask for nothing, or for what reads nothing, the reader is as it was.
    ensures unread { AskForNoInput (texts words.now) → bytes_given result.source ≡ [] }
    ensures untouched { AskForNoInput (texts words.now) → reader_of result.source ≡ reader }
    ensures known { IsStatus result.status }

    // The statuses of the two faults come exactly where a stream counted a fault.
    ensures read_fault { result.status ≡ READ_FAULT ↔ read_faults result.source ≢ 0 }
    ensures write_fault { result.status ≡ WRITE_FAULT ↔ write_faults result.sink ≢ 0 }

    // A front of the text of such an output was written at a failed write, and nothing at other
    // failures.
    ensures front { result.status ≡ WRITE_FAULT → (output : Output) × (rest : List ℕ)
        × IsServedWhole (texts words.now) (bytes_given result.source) (HasEnded result.source)
        output
        × (text_of output ≡ bytes_taken result.sink ++ rest) }
    ensures unwritten { result.status ≡ READ_FAULT → bytes_taken result.sink ≡ [] }
    ensures memory { result.status ≡ OUT_OF_MEMORY → bytes_taken result.sink ≡ [] }
    ensures memory_for { result.status ≡ OUT_OF_MEMORY →
        (job : Job) × AskFor (texts words.now) job }

    // Nothing was read or written beside. A reader that tells what is to come lost just what was
    // given; a writer that tells what it holds grew by just what was taken.
    ensures reader { Consumes (R.remaining reader) (R.remaining (reader_of result.source))
        (bytes_given result.source) }
    ensures writer { Appends (W.contents writer) (W.contents (writer_of result.sink))
        (bytes_taken result.sink) }
{
    let mut source = StdSource::new(reader);
    let mut sink = StdSink::new(writer);
    let status = run(rt, alloc, words, &mut source, &mut sink, gate, kept);
    RunEnd {
        source,
        sink,
        status,
    }
}
