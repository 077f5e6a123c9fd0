//! The turns of a crew: one, those of a schedule, rounds of all workers, and rounds to their end.
ghost use Rattle.std.specs.Prelude.{◌≡◌, ◌<◌, IfOk, length};
ghost use Rattle.std.specs.List.{AllByRecursion, list_any};
ghost use Rattle.core_machine.specs.Core.{Rounds, after_schedule, event, whole_round};
ghost use Rattle.core_replay.specs.Crew.{Goes, IsReady, SameRun, has_path};

use crate::crew::Crew;
use mill_model::OutOfMemory;
use search_step::{Phase, Turn, Worker};

// Whether a worker holds a path or has a child that waits, in its phase.
fn has_path(phase: Phase) -> bool
    ensures { result ≡ has_path phase }
{
    match phase {
        Phase::Resting | Phase::Taking | Phase::Stealing | Phase::Publishing => false,
        Phase::Holding | Phase::Halting | Phase::Ended | Phase::Bounding => true,
        Phase::Closing | Phase::Pushing => true,
    }
}

// Whether a worker has a path.
fn any_has_path(workers: &[Worker]) -> bool
    ensures { result ≡ list_any (λ w. has_path w.parts.phase) workers.now }
{
    for worker in workers {
        if has_path(worker.phase()) {
            return true;
        }
    }
    false
}

impl Crew<'_> {
    // One step of a worker.
    pub(crate) fn turn(&mut self, number: u16) -> Turn
        requires number { number < length self.old.core.workers }
        requires ready { IsReady self.old }
        ensures event { Goes result (event self.old.ranked self.old.charges self.old.budget
            self.old.core number) self.new.core }
        ensures same { SameRun self.old self.new }
    {
        let busy = any_has_path(&self.workers);
        self.hand.serve(number, busy);
        self.workers[usize::from(number)].step(&mut self.hand)
    }

    // The steps of a schedule.
    pub(crate) fn follow(&mut self, schedule: &[u16]) -> Result<(), OutOfMemory>
        requires numbers { AllByRecursion (λ number. number < length self.old.core.workers)
            schedule.now }
        requires ready { IsReady self.old }
        ensures run { IfOk result (λ _. self.new.core ≡ after_schedule self.old.ranked
            self.old.charges self.old.budget self.old.core schedule.now) }
        ensures same { SameRun self.old self.new }
        ensures ready { IfOk result (λ _. IsReady self.new) }
    {
        for &number in schedule {
            match self.turn(number) {
                Turn::OutOfMemory => return Err(OutOfMemory),
                Turn::Moved | Turn::Drew | Turn::Idle | Turn::Stopped => {}
            }
        }
        Ok(())
    }

    // One step of each worker, by number. It says whether each answered that it stopped.
    fn round(&mut self) -> Result<bool, OutOfMemory>
        requires ready { IsReady self.old }
        ensures round { IfOk result (λ stopped. (self.new.core, stopped)
            ≡ whole_round self.old.ranked self.old.charges self.old.budget self.old.core) }
        ensures same { SameRun self.old self.new }
        ensures ready { IfOk result (λ _. IsReady self.new) }
    {
        let mut stopped = true;
        for number in 0..self.hand.workers() {
            match self.turn(number) {
                Turn::OutOfMemory => return Err(OutOfMemory),
                Turn::Moved | Turn::Drew | Turn::Idle => stopped = false,
                Turn::Stopped => {}
            }
        }
        Ok(stopped)
    }

    // Rounds, until each worker answers in one that it stopped.
    pub(crate) fn run_out(&mut self) -> Result<(), OutOfMemory>
        requires ready { IsReady self.old }
        ensures rounds { IfOk result (λ _. Rounds self.old.ranked self.old.charges
            self.old.budget self.old.core self.new.core) }
        ensures same { SameRun self.old self.new }
    {
        'rounds: loop {
            if self.round()? {
                return Ok(());
            }
        }
    }
}
