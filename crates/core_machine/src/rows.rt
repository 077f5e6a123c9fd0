//! Runs of small machines, computed: a wrong number is refused by the prover.
ghost use Rattle.core_machine.specs.Rows.{DoneAlone, FirstRecords, HoldsWhatItStole};
ghost use Rattle.core_machine.specs.Rows.{FindsAPlan, KeyInOrder, PlanInTheFile, PublishesItsLoss};
ghost use Rattle.core_machine.specs.Rows.{RecordsAlone, ThiefRecords};

/// Two workers with one ticket: the one that the schedule lets steal the empty path records it.
pub fn two_workers()
    ensures holds { HoldsWhatItStole }
    ensures thief { ThiefRecords }
    ensures first { FirstRecords }
{}

/// One worker with enough tickets ends, and records four paths. From a dear start it finds a plan
/// and publishes its loss.
pub fn one_worker()
    ensures done { DoneAlone }
    ensures records { RecordsAlone }
    ensures finds { FindsAPlan }
    ensures publishes { PublishesItsLoss }
{}

/// The plan of a leaf is in the file's order, and the groups of a live key are sorted.
pub fn plan_and_key()
    ensures plan { PlanInTheFile }
    ensures key { KeyInOrder }
{}
