ghost use Rattle.mill_laws.specs.RunLaws.{PiecesRefute, NoPathTwice, RunFitsTheTree};
ghost use Rattle.mill_laws.specs.RunLaws.{ThriftyRunFitsTheThriftyTree};

/// The pieces of a run with nothing unclosed refute each loss for which their records are sound.
pub fn pieces_refute()
    ensures { PiecesRefute }
{}

/// No path of a run is there twice.
pub fn no_path_twice()
    ensures { NoPathTwice }
{}

/// A run has at most as many paths as the tree of those that it may split.
pub fn run_fits_the_tree()
    ensures any_test { RunFitsTheTree }
    ensures ascent { ThriftyRunFitsTheThriftyTree }
{}
