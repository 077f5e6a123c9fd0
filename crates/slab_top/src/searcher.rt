//! Who searches for a job: the caller's thread, or workers that run beside each other.
ghost use Rattle.std.specs.Prelude.{◌≡◌, ◌<◌, ◌≤◌, Bool, true, false, IfOk};
ghost use Rattle.answer_text.specs.Text.{Fits, most_orders};
ghost use Rattle.mill_model.specs.declared.limits.TheConstants.{MAX_NODES};
ghost use Rattle.solve_answer.specs.Solved.{IsProved, IsSolved};
ghost use Rattle.slab_top.specs.Threads.{course_of};
ghost use Rattle.slab_top.specs.Searches.{AnswersRightly};

use crate::search::Search;
use mill_model::{Instance, Limits, OutOfMemory};
use reply_text::Solution;
use solve_answer::{prove, solve};
use std::alloc::Global;

/// What answers an instance for `solve` and `prove`. More workers than one want threads.
pub trait Searcher {
    ghost has_threads: { Bool };

    // Whether it may be asked, and then answers rightly.
    ghost ready: { Self → Type 0 };

    /// An answer without a log.
    fn solve(
        &self,
        alloc: Global,
        instance: Instance,
        limits: Limits,
    ) -> Result<Solution, OutOfMemory>
        requires ready { ready self.now }
        requires some { 1 ≤ limits.workers }
        requires few { limits.workers ≤ 64 }
        requires nodes { limits.nodes ≤ MAX_NODES }
        requires threads { 1 < limits.workers → has_threads ≡ true }
        ensures is { IfOk result (IsSolved limits (course_of limits) instance) }
        ensures told { IfOk result (λ solution.
            Fits (most_orders solution.answer) solution.answer) };

    /// An answer that has a log with a best plan.
    fn prove(
        &self,
        alloc: Global,
        instance: Instance,
        limits: Limits,
    ) -> Result<Solution, OutOfMemory>
        requires ready { ready self.now }
        requires some { 1 ≤ limits.workers }
        requires few { limits.workers ≤ 64 }
        requires nodes { limits.nodes ≤ MAX_NODES }
        requires threads { 1 < limits.workers → has_threads ≡ true }
        ensures is { IfOk result (IsProved limits (course_of limits) instance) }
        ensures told { IfOk result (λ solution.
            Fits (most_orders solution.answer) solution.answer) };
}

/// The thread of the caller, in which one worker searches.
#[derive(Drop)]
pub struct OneThread;

impl Searcher for OneThread {
    ghost has_threads = { false };

    ghost ready = { λ _. Unit {0} };

    fn solve(
        &self,
        alloc: Global,
        instance: Instance,
        limits: Limits,
    ) -> Result<Solution, OutOfMemory> {
        solve(alloc, &instance, limits)
    }

    fn prove(
        &self,
        alloc: Global,
        instance: Instance,
        limits: Limits,
    ) -> Result<Solution, OutOfMemory> {
        prove(alloc, &instance, limits, &[])
    }
}

/// A call that searches, with workers in threads where there are more than one.
#[derive(Drop)]
pub struct ByCall<F: Fn(Search) -> Result<Solution, OutOfMemory> + Drop> {
    pub call: F,
}

impl<F: Fn(Search) -> Result<Solution, OutOfMemory> + Drop> Searcher for ByCall<F> {
    ghost has_threads = { true };

    ghost ready = { λ by. AnswersRightly (F.pre by.call) (F.post by.call) };

    fn solve(
        &self,
        _alloc: Global,
        instance: Instance,
        limits: Limits,
    ) -> Result<Solution, OutOfMemory> {
        (self.call)(Search {
            instance,
            limits,
            with_log: false,
        })
    }

    fn prove(
        &self,
        _alloc: Global,
        instance: Instance,
        limits: Limits,
    ) -> Result<Solution, OutOfMemory> {
        (self.call)(Search {
            instance,
            limits,
            with_log: true,
        })
    }
}
