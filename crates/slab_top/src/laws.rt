//! What ties both halves of the program: the answer of a search, given to a judge. Each law stands
//! on a function of its own, which does nothing.

ghost use Rattle.job_words.specs.declared.command.Command.TheVariants.{Solve, Prove, Check, Verify};
ghost use Rattle.slab_top.specs.BothHalves.{IsAnsweredBehind, IsRightBehind};
ghost use Rattle.slab_top.specs.BothHalves.{checked_as, verified_as};

/// What `prove` prints, behind the bytes that it read and one line feed, has just one right output
/// from `verify` with the same colours, if all of it is within the limit of `verify`: of an optimal
/// plan, that its loss is verified; of an order that no slab holds, that this is confirmed; of a
/// feasible plan, which has no log, that its kind is refused. A run that fails, as for want of
/// memory, says nothing of it.
pub fn proved_is_verified()
    ensures jobs { IsAnsweredBehind Prove Verify verified_as }
    ensures runs { IsRightBehind Prove Verify verified_as }
{}

/// What `solve` or `prove` prints, given on in this way, has just one right output from `check`: a
/// plan is legal and loses what was printed, and an order that no slab holds is confirmed.
pub fn answer_is_checked()
    ensures solved { IsAnsweredBehind Solve Check checked_as }
    ensures proved { IsAnsweredBehind Prove Check checked_as }
    ensures solved_runs { IsRightBehind Solve Check checked_as }
    ensures proved_runs { IsRightBehind Prove Check checked_as }
{}
