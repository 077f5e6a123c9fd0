//! The top call, and whether it needs threads. What it promises is proved in `serving`.
ghost use Rattle.std.specs.Prelude.{◌≡◌, ◌≢◌, ◌++◌, ◌↔◌, ℕ, true, List, None, IfOk, IfSome, IsSome};
ghost use Rattle.std.specs.Io.KnownBytes.{Appends, IsAtEnd};
ghost use Rattle.mill_io.specs.Causes.{Rose};
ghost use Rattle.mill_io.specs.Bytes.{AppendsFront, AppendsToBoth, GivesLost};
ghost use Rattle.job_words.specs.Words.{AskFor, texts};
ghost use Rattle.job_words.specs.declared.job.Job.{Job};
ghost use Rattle.reply_text.specs.declared.status.TheConstants.{FEASIBLE, READ_FAULT, WRITE_FAULT};
ghost use Rattle.reply_text.specs.declared.status.TheConstants.{OUT_OF_MEMORY};
ghost use Rattle.slab_top.specs.Served.{Output, IsRight, run_of, status_of, text_of};
ghost use Rattle.slab_top.specs.Agree.{Agree, MayEndWith};
ghost use Rattle.slab_top.specs.Given.{IsServedWhole};
ghost use Rattle.slab_top.specs.Run.{AskForNoInput, HasEnough, IsAnswered, IsStatus, IsToBeRead};
ghost use Rattle.slab_top.specs.Searches.{IsRightAnswer, IsWithinLimits};
ghost use Rattle.slab_top.specs.Threads.{NeedThreads, lets_run};
ghost use denote.Param.Send.{IsSync};

use crate::plain::run_plain;
use crate::search::Search;
use crate::searcher::ByCall;
use crate::serving::serve_words;
use job_words::{Command, read_words};
use mill_io::{Sink, Source};
use mill_model::OutOfMemory;
use refute_log::Run;
use reply_text::Solution;
use solve_answer::{prove, prove_running, solve, solve_running};
use std::alloc::Global;
use std::sync::Wait;
use std::thread::Threads;
use steal_workers::Gate;

/// Whether the words ask for `solve`, `prove` or `drill` with more than one worker.
pub fn needs_threads(words: &[String]) -> bool
    ensures { (result ≡ true) ↔ NeedThreads (texts words.now) }
{
    match read_words(words) {
        Ok(job) => lets_run(job.command) && job.limits.workers > 1,
        Err(_) => false,
    }
}

// Whether a command lets its workers run beside each other, if it has more than one.
fn lets_run(command: Command) -> bool
    ensures { result ≡ lets_run command }
{
    matches!(command, Command::Solve | Command::Prove | Command::Drill)
}

/// The top call: serves what the words ask for, gives the status that the program ends with, and
/// hands out the run behind a feasible answer in `kept`. `solve`, `prove` and `replay` answer an
/// instance, and `drill` tells how it would answer one that it makes. More workers than one of
/// `solve`, `prove` and `drill` run in threads: such a call waits for them, and each of them passes
/// the gate with each path that it is to close.
///
/// | status | where |
/// |---|---|
/// | 0 | an answering command wrote an optimal plan, or `drill` what one loses |
/// | 0 | `check` or `verify` accepted the answer |
/// | 1 | an answering command wrote the first order that no slab holds |
/// | 2 | the words ask for nothing that the program does |
/// | 3 | the input was refused |
/// | 4 | an answering command wrote a feasible plan, or `drill` what it loses |
/// | 5 | a read failed; nothing was written |
/// | 6 | a write failed; a front of the text was written |
/// | 7 | want of memory; nothing was written |
/// | 8 | `check` or `verify` rejected the answer |
///
/// At status 4 the budget was spent, and a path is left.
pub fn run<R: Threads + Wait + Sync, S: Source, K: Sink, G: Gate>(
    rt: &R,
    alloc: Global,
    words: &[String],
    source: &mut S,
    sink: &mut K,
    gate: &G,
    kept: &mut Option<Run>,
) -> u8
    // Unless something failed, the status is that of an output that is right for the words and the
    // bytes, and its text was written whole; and the run behind it is handed out.
    ensures answered { IsAnswered result → (output : Output)
        × IsRight (texts words.now) (S.left source.old) output
        × (result ≡ status_of output)
        × Appends (K.written sink.old) (K.written sink.new) (text_of output)
        × (kept.new ≡ run_of output) }

    // A run is handed out exactly behind a feasible answer.
    ensures kept { result ≡ FEASIBLE → IsSome kept.new }
    ensures none_kept { result ≢ FEASIBLE → kept.new ≡ None }

    // Where the bytes are told, each output that is right has this status: it comes exactly there.
    // Only whether a plan is optimal or feasible is left open, where the budget isn't enough.
    ensures exact { IsAnswered result → IsSome (S.left source.old) → (output : Output)
        → IsRight (texts words.now) (S.left source.old) output → MayEndWith output result }
    ensures enough { IfSome (S.left source.old) (λ input.
        HasEnough (texts words.now) input → result ≢ FEASIBLE) }

    // And it agrees with the output that was written.
    ensures told { IsAnswered result → IsSome (S.left source.old) → (output : Output)
        → IsRight (texts words.now) (S.left source.old) output → (written : Output)
        × Agree written output
        × Appends (K.written sink.old) (K.written sink.new) (text_of written) }

    // The same is so of the bytes that the reads of this call gave, which are told always, even of
    // the real input.
    ensures given { IsAnswered result → (input : List ℕ) × (output : Output)
        × (S.given source.new ≡ S.given source.old ++ input)
        × IsServedWhole (texts words.now) input (S.ended source.new) output
        × (result ≡ status_of output)
        × Appends (K.written sink.old) (K.written sink.new) (text_of output)
        × (kept.new ≡ run_of output) }
    ensures given_enough { (input : List ℕ) → S.given source.new ≡ S.given source.old ++ input
        → HasEnough (texts words.now) input → result ≢ FEASIBLE }
    ensures given_front { result ≡ WRITE_FAULT → (input : List ℕ) × (output : Output)
        × (S.given source.new ≡ S.given source.old ++ input)
        × IsServedWhole (texts words.now) input (S.ended source.new) output
        × AppendsFront (K.written sink.old) (K.written sink.new) (text_of output) }

    // The reads of this call gave all that the source lost, and what was written is held.
    ensures lost { GivesLost (S.left source.old) (S.left source.new)
        (S.given source.old) (S.given source.new) }
    ensures held { AppendsToBoth (K.written sink.old) (K.written sink.new)
        (K.held sink.old) (K.held sink.new) }

    // Bytes that are to be read were read to the end, and else none was.
    ensures ended { IsAnswered result → IfSome (S.left source.old) (λ input.
        IsToBeRead (texts words.now) input → IsAtEnd (S.left source.new)) }
    ensures unread { AskForNoInput (texts words.now) → source.new ≡ source.old }
    ensures known { IsStatus result }

    // A fault of the source is the one cause of its status, and has no other; so with the sink.
    ensures read_fault { result ≡ READ_FAULT → Rose (S.faults source.old) (S.faults source.new) }
    ensures no_read_fault { result ≢ READ_FAULT → S.faults source.new ≡ S.faults source.old }
    ensures write_fault { result ≡ WRITE_FAULT → Rose (K.faults sink.old) (K.faults sink.new) }
    ensures no_write_fault { result ≢ WRITE_FAULT → K.faults sink.new ≡ K.faults sink.old }
    ensures front { result ≡ WRITE_FAULT → (output : Output)
        × IsRight (texts words.now) (S.left source.old) output
        × AppendsFront (K.written sink.old) (K.written sink.new) (text_of output) }

    // The other failures come before the first write, and want of memory only to a job.
    ensures unwritten { result ≡ READ_FAULT → sink.new ≡ sink.old }
    ensures memory { result ≡ OUT_OF_MEMORY → sink.new ≡ sink.old }
    ensures memory_for { result ≡ OUT_OF_MEMORY → (job : Job) × AskFor (texts words.now) job }
{
    if needs_threads(words) {
        let call = |search: Search| -> Result<Solution, OutOfMemory>
            requires { IsSync R.row × IsSync G.row × IsWithinLimits search }
            ensures { IfOk result (IsRightAnswer search) }
        { run_search(rt, alloc, gate, search) };
        serve_words(&ByCall { call }, alloc, words, source, sink, kept)
    } else {
        run_plain(alloc, words, source, sink, kept)
    }
}

// Searches, with workers in threads where there are more than one.
fn run_search<R: Threads + Wait + Sync, G: Gate>(
    rt: &R,
    alloc: Global,
    gate: &G,
    search: Search,
) -> Result<Solution, OutOfMemory>
    requires { IsWithinLimits search }
    ensures { IfOk result (IsRightAnswer search) }
{
    let Search {
        instance,
        limits,
        with_log,
    } = search;
    match (with_log, limits.workers > 1) {
        (true, true) => prove_running(rt, alloc, &instance, limits, gate),
        (true, false) => prove(alloc, &instance, limits, &[]),
        (false, true) => solve_running(rt, alloc, &instance, limits, gate),
        (false, false) => solve(alloc, &instance, limits),
    }
}
