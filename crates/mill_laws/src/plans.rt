ghost use Rattle.mill_laws.specs.RankLaws.{RankRises, RankHasTheOrders, RankIsTheOnlyOne};
ghost use Rattle.mill_laws.specs.PlanLaws.{CanonicalFormIsLegal, CanonicalFormLosesTheSame};
ghost use Rattle.mill_laws.specs.PlanLaws.{CanonicalFormIsItsOwn, PlanInRankIsLegal};
ghost use Rattle.mill_laws.specs.PlanLaws.{PlanInRankLosesTheSame, EachAloneIsLegal};

/// The canonical form of a legal plan is legal, loses the same, and numbers its slabs by first
/// appearance.
pub fn canonical_form()
    ensures legal { CanonicalFormIsLegal }
    ensures loss { CanonicalFormLosesTheSame }
    ensures own { CanonicalFormIsItsOwn }
{}

/// A plan of an instance and the same plan of its ranked orders are legal together, and lose the
/// same.
pub fn plan_in_rank()
    ensures legal { PlanInRankIsLegal }
    ensures loss { PlanInRankLosesTheSame }
{}

/// Each order may lie on a slab of its own, where each fits one.
pub fn each_alone()
    ensures { EachAloneIsLegal }
{}

/// The rank is the one list of a file's orders, each with its place, in which each precedes all
/// behind it: by weight falling, then colour rising, then place rising.
pub fn rank_of_orders()
    ensures rises { RankRises }
    ensures orders { RankHasTheOrders }
    ensures alone { RankIsTheOnlyOne }
{}
