ghost use Rattle.schedule_text.specs.Laws.{OneSchedule, EachIsAWorker, OneWrongToken, NeverBoth};

/// A text stands for at most one schedule, and each number of it is that of a worker.
pub fn one_schedule()
    ensures one { OneSchedule }
    ensures workers { EachIsAWorker }
{}

/// At most one token of a text is the first wrong one, and none where it stands for a schedule.
pub fn one_wrong_token()
    ensures one { OneWrongToken }
    ensures apart { NeverBoth }
{}
