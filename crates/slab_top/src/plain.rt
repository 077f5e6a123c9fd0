//! The top call for words that need no threads. What it promises is proved in `serving`.
ghost use Rattle.std.specs.Prelude.{◌≡◌, ◌≢◌, ◌++◌, ℕ, List, None, IfSome, IsSome};
ghost use Rattle.std.specs.Io.KnownBytes.{Appends, IsAtEnd};
ghost use Rattle.mill_io.specs.Causes.{Rose};
ghost use Rattle.mill_io.specs.Bytes.{AppendsFront, AppendsToBoth, GivesLost};
ghost use Rattle.job_words.specs.Words.{AskFor, texts};
ghost use Rattle.job_words.specs.declared.job.Job.{Job};
ghost use Rattle.reply_text.specs.declared.status.TheConstants.{FEASIBLE, READ_FAULT, WRITE_FAULT};
ghost use Rattle.reply_text.specs.declared.status.TheConstants.{OUT_OF_MEMORY};
ghost use Rattle.slab_top.specs.Served.{Output, IsRight, run_of, status_of, text_of};
ghost use Rattle.slab_top.specs.Agree.{Agree, MayEndWith};
ghost use Rattle.slab_top.specs.Given.{IsServedWhole};
ghost use Rattle.slab_top.specs.Run.{AskForNoInput, HasEnough, IsAnswered, IsStatus, IsToBeRead};
ghost use Rattle.slab_top.specs.Threads.{NeedThreads};

use crate::searcher::OneThread;
use crate::serving::serve_words;
use mill_io::{Sink, Source};
use refute_log::Run;
use std::alloc::Global;

/// The top call for words that need no threads. It always returns. The statuses are those of
/// [`run`], and so are the clauses.
pub fn run_plain<S: Source, K: Sink>(
    alloc: Global,
    words: &[String],
    source: &mut S,
    sink: &mut K,
    kept: &mut Option<Run>,
) -> u8
    requires plain { NeedThreads (texts words.now) → ⊥ }
    ensures answered { IsAnswered result → (output : Output)
        × IsRight (texts words.now) (S.left source.old) output
        × (result ≡ status_of output)
        × Appends (K.written sink.old) (K.written sink.new) (text_of output)
        × (kept.new ≡ run_of output) }
    ensures kept { result ≡ FEASIBLE → IsSome kept.new }
    ensures none_kept { result ≢ FEASIBLE → kept.new ≡ None }
    ensures exact { IsAnswered result → IsSome (S.left source.old) → (output : Output)
        → IsRight (texts words.now) (S.left source.old) output → MayEndWith output result }
    ensures enough { IfSome (S.left source.old) (λ input.
        HasEnough (texts words.now) input → result ≢ FEASIBLE) }
    ensures told { IsAnswered result → IsSome (S.left source.old) → (output : Output)
        → IsRight (texts words.now) (S.left source.old) output → (written : Output)
        × Agree written output
        × Appends (K.written sink.old) (K.written sink.new) (text_of written) }
    ensures given { IsAnswered result → (input : List ℕ) × (output : Output)
        × (S.given source.new ≡ S.given source.old ++ input)
        × IsServedWhole (texts words.now) input (S.ended source.new) output
        × (result ≡ status_of output)
        × Appends (K.written sink.old) (K.written sink.new) (text_of output)
        × (kept.new ≡ run_of output) }
    ensures given_enough { (input : List ℕ) → S.given source.new ≡ S.given source.old ++ input
        → HasEnough (texts words.now) input → result ≢ FEASIBLE }
    ensures given_front { result ≡ WRITE_FAULT → (input : List ℕ) × (output : Output)
        × (S.given source.new ≡ S.given source.old ++ input)
        × IsServedWhole (texts words.now) input (S.ended source.new) output
        × AppendsFront (K.written sink.old) (K.written sink.new) (text_of output) }
    ensures lost { GivesLost (S.left source.old) (S.left source.new)
        (S.given source.old) (S.given source.new) }
    ensures held { AppendsToBoth (K.written sink.old) (K.written sink.new)
        (K.held sink.old) (K.held sink.new) }
    ensures ended { IsAnswered result → IfSome (S.left source.old) (λ input.
        IsToBeRead (texts words.now) input → IsAtEnd (S.left source.new)) }
    ensures unread { AskForNoInput (texts words.now) → source.new ≡ source.old }
    ensures known { IsStatus result }
    ensures read_fault { result ≡ READ_FAULT → Rose (S.faults source.old) (S.faults source.new) }
    ensures no_read_fault { result ≢ READ_FAULT → S.faults source.new ≡ S.faults source.old }
    ensures write_fault { result ≡ WRITE_FAULT → Rose (K.faults sink.old) (K.faults sink.new) }
    ensures no_write_fault { result ≢ WRITE_FAULT → K.faults sink.new ≡ K.faults sink.old }
    ensures front { result ≡ WRITE_FAULT → (output : Output)
        × IsRight (texts words.now) (S.left source.old) output
        × AppendsFront (K.written sink.old) (K.written sink.new) (text_of output) }
    ensures unwritten { result ≡ READ_FAULT → sink.new ≡ sink.old }
    ensures memory { result ≡ OUT_OF_MEMORY → sink.new ≡ sink.old }
    ensures memory_for { result ≡ OUT_OF_MEMORY → (job : Job) × AskFor (texts words.now) job }
{
    serve_words(&OneThread, alloc, words, source, sink, kept)
}
