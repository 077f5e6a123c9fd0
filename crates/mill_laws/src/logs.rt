ghost use Rattle.mill_laws.specs.LogLaws.{RefutedLossBounds, LesserLossIsRefuted, RecordedOnce};

/// Where a log refutes a loss, no legal plan of the instance loses less.
pub fn refuted_loss_bounds()
    ensures { RefutedLossBounds }
{}

/// A log that refutes a loss refutes each lesser one.
pub fn lesser_loss_is_refuted()
    ensures { LesserLossIsRefuted }
{}

/// A complete log records no path twice.
pub fn recorded_once()
    ensures { RecordedOnce }
{}
