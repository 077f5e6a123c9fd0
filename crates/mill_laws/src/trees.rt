ghost use Rattle.mill_laws.specs.TreeLaws.{EachPlanHasALeaf, EachLeafIsAPlan};
ghost use Rattle.mill_laws.specs.TreeLaws.{EachPathIsCanonical, TreeHasAtMost};

/// For each legal plan of an instance the tree has a leaf that loses the same.
pub fn each_plan_has_a_leaf()
    ensures { EachPlanHasALeaf }
{}

/// A leaf of the tree is a legal plan of the ranked orders, its slabs numbered by first
/// appearance.
pub fn each_leaf_is_a_plan()
    ensures legal { EachLeafIsAPlan }
    ensures canonical { EachPathIsCanonical }
{}

/// The tree of n orders has at most 0! + 1! + .. + n! paths.
pub fn tree_has_at_most()
    ensures { TreeHasAtMost }
{}
