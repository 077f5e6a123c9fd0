//! Possible starts of small instances, computed, and how what is promised of them goes with the
//! moves, each on a function with nothing to do.
ghost use Rattle.std.specs.Prelude.{◌≡◌, ◌∷◌, []};
ghost use Rattle.mill_model.specs.Instance.{loss_charge};
ghost use Rattle.mill_model.specs.Pairs.{IsPossibleStart, IsStartBound};
ghost use Rattle.mill_model.specs.Plan.{loss};
ghost use Rattle.mill_model.specs.Small.{four, order, three_mill, three_orders};
ghost use Rattle.large_moves.specs.Laws.{NoMovesPromiseNothing, BoundFallsWithMoves};
ghost use Rattle.large_moves.specs.Laws.{EnoughMovesCloseAll};

/// The sizes 5 and 7, and the orders (3, 1), (3, 1), (2, 1) and (2, 1): greedy, those of each
/// weight lie together and lose 2. That is the start bound with no moves; with 30 of them, which is
/// 2 + 1 times the 10 pairs that four slabs have, that plan is no possible start, since its pair of
/// slabs isn't closed.
pub fn start_of_four_orders()
    ensures greedy { IsStartBound (record { largest = 7; most_colours = 2 })
        (loss_charge (5 ∷ 7 ∷ [])) (order 3 1 ∷ order 3 1 ∷ order 2 1 ∷ order 2 1 ∷ []) 0 2 }
    ensures not_greedy { IsPossibleStart (record { largest = 7; most_colours = 2 })
        (loss_charge (5 ∷ 7 ∷ [])) (order 3 1 ∷ order 3 1 ∷ order 2 1 ∷ order 2 1 ∷ []) 30
        (0 ∷ 0 ∷ 1 ∷ 1 ∷ []) → ⊥ }
    ensures moved { IsPossibleStart (record { largest = 7; most_colours = 2 })
        (loss_charge (5 ∷ 7 ∷ [])) (order 3 1 ∷ order 3 1 ∷ order 2 1 ∷ order 2 1 ∷ []) 30
        (0 ∷ 1 ∷ 0 ∷ 1 ∷ []) }
{}

/// One size, 4, and the orders (1, 1), (1, 2) and (2, 3), with two colours a slab: the greedy plan
/// loses 4 and is pair-closed, so 4 is the start bound with 1000 moves.
pub fn start_of_three_orders()
    ensures { IsStartBound three_mill four three_orders 1000 4 }
{}

/// With no moves, any legal plan that loses no more than the better greedy plan may be the start.
pub fn no_moves_promise_nothing()
    ensures { NoMovesPromiseNothing }
{}

/// The start bound doesn't rise with the moves.
pub fn bound_falls_with_moves()
    ensures { BoundFallsWithMoves }
{}

/// From (B + 1) n (n + 1) / 2 moves on, where B is what the better greedy plan of n orders loses,
/// every possible start has all its pairs closed.
pub fn enough_moves_close_all()
    ensures { EnoughMovesCloseAll }
{}
