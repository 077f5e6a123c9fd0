//! Serves words: reads what they ask to be read, has it answered by a searcher, and writes the
//! answer out. What `run` and `run_plain` promise is proved here, for each searcher.
ghost use Rattle.std.specs.Prelude.{◌≡◌, ◌≢◌, ◌++◌, ℕ, true, List, Err, None, IfOk};
ghost use Rattle.std.specs.Prelude.{IfSome, IsErrOf, IsSome, OnOk};
ghost use Rattle.std.specs.Io.KnownBytes.{Appends, IsAtEnd};
ghost use Rattle.mill_io.specs.Causes.{Rose};
ghost use Rattle.mill_io.specs.Bytes.{AppendsFront, AppendsToBoth, GivesLost};
ghost use Rattle.job_words.specs.Words.{AskFor, IsInRange, limit_of, texts};
ghost use Rattle.job_words.specs.declared.job.Job.{Job};
ghost use Rattle.reply_text.specs.Outcome as told;
ghost use Rattle.reply_text.specs.Outcome.{IsToTell};
ghost use Rattle.reply_text.specs.declared.status.TheConstants.{FEASIBLE, READ_FAULT, WRITE_FAULT};
ghost use Rattle.reply_text.specs.declared.status.TheConstants.{OUT_OF_MEMORY};
ghost use Rattle.slab_top.specs.Input.{ReadsWhole};
ghost use Rattle.slab_top.specs.Served.{Output, IsRight, IsServed, Serves};
ghost use Rattle.slab_top.specs.Served.{run_of, status_of, text_of};
ghost use Rattle.slab_top.specs.Agree.{Agree, MayEndWith};
ghost use Rattle.slab_top.specs.Given.{HasAnswered, IsServedWhole};
ghost use Rattle.slab_top.specs.Run.{AskForNoInput, HasEnough, IsAnswered, IsOwnStatus, IsStatus};
ghost use Rattle.slab_top.specs.Run.{IsToBeRead};
ghost use Rattle.slab_top.specs.Threads.{NeedThreads, NeedsThreads};

use crate::commands::serve;
use crate::searcher::Searcher;
use job_words::{Job, read_words, write_usage};
use mill_io::{ReadError, Sink, Source, read_all};
use refute_log::Run;
use reply_text::{OUT_OF_MEMORY, Outcome, READ_FAULT, Refusal, Stop, WRITE_FAULT, WRONG_WORDS};
use std::alloc::Global;

// Why there is no outcome.
#[derive(Clone, Copy, Debug, PartialEq, Eq)]
enum Failure {
    ReadFault,
    OutOfMemory,
}

// What a job answers to a source.
fn outcome_of<V: Searcher, S: Source>(
    searcher: &V,
    alloc: Global,
    job: Job,
    source: &mut S,
) -> Result<Outcome, Failure>
    requires in_range { IsInRange job }
    requires ready { V.ready searcher.now }
    requires threads { NeedsThreads job → V.has_threads ≡ true }
    ensures served { IfOk result (IsServed job (S.left source.old)) }
    ensures told { IfOk result IsToTell }
    ensures ended { OnOk result (IfSome (S.left source.old) (λ input.
        ReadsWhole (limit_of job.command) input → IsAtEnd (S.left source.new))) }
    ensures given { IfOk result (HasAnswered job (S.given source.old) (S.given source.new)
        (S.ended source.new)) }
    ensures lost { GivesLost (S.left source.old) (S.left source.new)
        (S.given source.old) (S.given source.new) }
    ensures fault { IsErrOf result Failure.ReadFault
        → Rose (S.faults source.old) (S.faults source.new) }
    ensures kept { result ≢ Err Failure.ReadFault → S.faults source.new ≡ S.faults source.old }
    ensures unread { limit_of job.command ≡ None → source.new ≡ source.old }
{
    let Some(limit) = job.command.limit() else {
        return answered(searcher, alloc, job, &[]);
    };
    let input = match read_all(alloc, source, limit) {
        Ok(input) => input,
        Err(ReadError::TooLong) => return Ok(Outcome::Refused(Refusal::TooLong { limit })),
        Err(ReadError::ReadFault) => return Err(Failure::ReadFault),
        Err(ReadError::OutOfMemory) => return Err(Failure::OutOfMemory),
    };
    answered(searcher, alloc, job, &input)
}

// What a job answers to what it reads; a refusal is an answer too.
fn answered<V: Searcher>(
    searcher: &V,
    alloc: Global,
    job: Job,
    input: &[u8],
) -> Result<Outcome, Failure>
    requires in_range { IsInRange job }
    requires ready { V.ready searcher.now }
    requires threads { NeedsThreads job → V.has_threads ≡ true }
    ensures served { IfOk result (Serves job.command job input.now) }
    ensures told { IfOk result IsToTell }
    ensures fault { result ≢ Err Failure.ReadFault }
{
    match serve(searcher, alloc, job, input) {
        Ok(outcome) => Ok(outcome),
        Err(Stop::Refused(why)) => Ok(Outcome::Refused(why)),
        Err(Stop::OutOfMemory) => Err(Failure::OutOfMemory),
    }
}

// Writes an outcome, and gives its status where that succeeds. It takes no memory.
fn write_out<K: Sink>(sink: &mut K, outcome: &Outcome) -> u8
    requires told { IsToTell outcome.now }
    requires own { IsOwnStatus (told.status_of outcome.now) }
    ensures known { IsStatus result }
    ensures status { result ≢ WRITE_FAULT → result ≡ told.status_of outcome.now }
    ensures whole { result ≢ WRITE_FAULT
        → Appends (K.written sink.old) (K.written sink.new) (told.text_of outcome.now) }
    ensures kept { result ≢ WRITE_FAULT → K.faults sink.new ≡ K.faults sink.old }
    ensures front { result ≡ WRITE_FAULT
        → AppendsFront (K.written sink.old) (K.written sink.new) (told.text_of outcome.now) }
    ensures held { AppendsToBoth (K.written sink.old) (K.written sink.new)
        (K.held sink.old) (K.held sink.new) }
    ensures fault { result ≡ WRITE_FAULT → Rose (K.faults sink.old) (K.faults sink.new) }
{
    match outcome.write(sink) {
        Ok(()) => outcome.status(),
        Err(_) => WRITE_FAULT,
    }
}

// The run that is handed out: the one behind the outcome, where its text was written whole.
fn run_behind(outcome: Outcome, status: u8) -> Option<Run>
    ensures written { status ≢ WRITE_FAULT → result ≡ told.run_of outcome }
    ensures failed { status ≡ WRITE_FAULT → result ≡ None }
{
    if status == WRITE_FAULT {
        None
    } else {
        outcome.into_run()
    }
}

/// Serves what the words ask for, gives the status that the program ends with, and hands out the
/// run behind a feasible answer in `kept`. `run` says what the clauses mean.
pub fn serve_words<V: Searcher, S: Source, K: Sink>(
    searcher: &V,
    alloc: Global,
    words: &[String],
    source: &mut S,
    sink: &mut K,
    kept: &mut Option<Run>,
) -> u8
    requires ready { V.ready searcher.now }
    requires threads { NeedThreads (texts words.now) → V.has_threads ≡ true }
    ensures answered { IsAnswered result → (output : Output)
        × IsRight (texts words.now) (S.left source.old) output
        × (result ≡ status_of output)
        × Appends (K.written sink.old) (K.written sink.new) (text_of output)
        × (kept.new ≡ run_of output) }
    ensures kept { result ≡ FEASIBLE → IsSome kept.new }
    ensures none_kept { result ≢ FEASIBLE → kept.new ≡ None }
    ensures exact { IsAnswered result → IsSome (S.left source.old) → (output : Output)
        → IsRight (texts words.now) (S.left source.old) output → MayEndWith output result }
    ensures enough { IfSome (S.left source.old) (λ input.
        HasEnough (texts words.now) input → result ≢ FEASIBLE) }
    ensures told { IsAnswered result → IsSome (S.left source.old) → (output : Output)
        → IsRight (texts words.now) (S.left source.old) output → (written : Output)
        × Agree written output
        × Appends (K.written sink.old) (K.written sink.new) (text_of written) }
    ensures given { IsAnswered result → (input : List ℕ) × (output : Output)
        × (S.given source.new ≡ S.given source.old ++ input)
        × IsServedWhole (texts words.now) input (S.ended source.new) output
        × (result ≡ status_of output)
        × Appends (K.written sink.old) (K.written sink.new) (text_of output)
        × (kept.new ≡ run_of output) }
    ensures given_enough { (input : List ℕ) → S.given source.new ≡ S.given source.old ++ input
        → HasEnough (texts words.now) input → result ≢ FEASIBLE }
    ensures given_front { result ≡ WRITE_FAULT → (input : List ℕ) × (output : Output)
        × (S.given source.new ≡ S.given source.old ++ input)
        × IsServedWhole (texts words.now) input (S.ended source.new) output
        × AppendsFront (K.written sink.old) (K.written sink.new) (text_of output) }
    ensures lost { GivesLost (S.left source.old) (S.left source.new)
        (S.given source.old) (S.given source.new) }
    ensures held { AppendsToBoth (K.written sink.old) (K.written sink.new)
        (K.held sink.old) (K.held sink.new) }
    ensures ended { IsAnswered result → IfSome (S.left source.old) (λ input.
        IsToBeRead (texts words.now) input → IsAtEnd (S.left source.new)) }
    ensures unread { AskForNoInput (texts words.now) → source.new ≡ source.old }
    ensures known { IsStatus result }
    ensures read_fault { result ≡ READ_FAULT → Rose (S.faults source.old) (S.faults source.new) }
    ensures no_read_fault { result ≢ READ_FAULT → S.faults source.new ≡ S.faults source.old }
    ensures write_fault { result ≡ WRITE_FAULT → Rose (K.faults sink.old) (K.faults sink.new) }
    ensures no_write_fault { result ≢ WRITE_FAULT → K.faults sink.new ≡ K.faults sink.old }
    ensures front { result ≡ WRITE_FAULT → (output : Output)
        × IsRight (texts words.now) (S.left source.old) output
        × AppendsFront (K.written sink.old) (K.written sink.new) (text_of output) }
    ensures unwritten { result ≡ READ_FAULT → sink.new ≡ sink.old }
    ensures memory { result ≡ OUT_OF_MEMORY → sink.new ≡ sink.old }
    ensures memory_for { result ≡ OUT_OF_MEMORY → (job : Job) × AskFor (texts words.now) job }
{
    *kept = None;
    let Ok(job) = read_words(words) else {
        return match write_usage(sink) {
            Ok(()) => WRONG_WORDS,
            Err(_) => WRITE_FAULT,
        };
    };
    match outcome_of(searcher, alloc, job, source) {
        Ok(outcome) => {
            let status = write_out(sink, &outcome);
            *kept = run_behind(outcome, status);
            status
        }
        Err(Failure::ReadFault) => READ_FAULT,
        Err(Failure::OutOfMemory) => OUT_OF_MEMORY,
    }
}
