//! What ties a slab to the orders on it, each law on a function with nothing to do.
ghost use Rattle.slab_rules.specs.Laws.{JoinedCarriesOneMore, WithinBoundsIsLegal};

/// What a slab carries when an order joins: the orders before, and this one.
pub fn joined_carries_one_more()
    ensures { JoinedCarriesOneMore }
{}

/// A slab is within its bounds exactly where the orders on it are legal.
pub fn within_bounds_is_legal()
    ensures { WithinBoundsIsLegal }
{}
