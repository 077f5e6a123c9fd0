ghost use Rattle.core_machine.specs.Laws.{CoreRunsKeepTheirPromise, EachRunEnds, EventsAreSteps};
ghost use Rattle.core_machine.specs.Laws.{OneLastState, RunsKeepTheirPromise, StepsAreEvents};

/// An event of the machine is a step of a worker over the calls of one thread, and each such step
/// that doesn't want memory is an event.
pub fn events_are_steps()
    ensures event { EventsAreSteps }
    ensures step { StepsAreEvents }
{}

/// Each run ends, in one state.
pub fn each_run_ends()
    ensures ends { EachRunEnds }
    ensures one { OneLastState }
{}

/// What a run leaves keeps the promise of a run, also where it went on from another.
pub fn runs_keep_their_promise()
    ensures going_on { RunsKeepTheirPromise }
    ensures from_the_start { CoreRunsKeepTheirPromise }
{}
