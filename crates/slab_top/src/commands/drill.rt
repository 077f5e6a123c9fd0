ghost use Rattle.std.specs.Prelude.{◌≡◌, ◌<◌, true, IfOk};
ghost use Rattle.job_words.specs.Words.{IsInRange};
ghost use Rattle.reply_text.specs.Outcome.{IsToTell};
ghost use Rattle.reply_text.specs.declared.summary.Ending.{Ending};
ghost use Rattle.slab_top.specs.Drill.{Drills, IsEndingOf};

use crate::searcher::Searcher;
use answer_text::Answer;
use instance_drill::{drill_instance, whole_weight};
use job_words::Job;
use mill_model::OutOfMemory;
use reply_text::{Ending, Outcome, Solution, Summary};
use std::alloc::Global;

/// Searches the instance that a job's seed gives, as `solve` does, and tells what came of it but
/// for the plan. Nothing is read.
pub fn serve<V: Searcher>(searcher: &V, alloc: Global, job: Job) -> Result<Outcome, OutOfMemory>
    requires in_range { IsInRange job }
    requires ready { V.ready searcher.now }
    requires threads { 1 < job.limits.workers → V.has_threads ≡ true }
    ensures drills { IfOk result (Drills job) }
    ensures told { IfOk result IsToTell }
{
    let instance = drill_instance(alloc, job.seed, job.orders, job.p)?;
    let weight = whole_weight(&instance);
    let solution = searcher.solve(alloc, instance, job.limits)?;
    let summary = Summary {
        seed: job.seed,
        orders: job.orders,
        weight,
        ending: ending_of(solution),
    };
    Ok(Outcome::Drilled(summary))
}

// How the search ended that gave a solution.
fn ending_of(solution: Solution) -> Ending
    requires { (ending : Ending) × IsEndingOf solution.answer solution.run ending }
    ensures { IsEndingOf solution.answer solution.run result }
{
    let Solution { answer, run } = solution;
    match answer {
        Answer::Optimal { loss, .. } => Ending::Optimal { loss },
        Answer::Feasible { loss, spent, .. } => match run {
            Some(run) => Ending::Feasible { loss, spent, run },
            None => unreachable!(),
        },
        Answer::Infeasible { .. } => unreachable!(),
    }
}
