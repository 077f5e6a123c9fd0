//! The definitions at small instances, computed: a wrong number is refused by the prover.
ghost use Rattle.std.specs.Prelude.{◌≡◌, ◌∷◌, [], true, false, map, Some, None, eqb};
ghost use Rattle.std.specs.List.{list_all};
ghost use Rattle.list_laws.specs.Sets.{below, chosen, different, same_times, sets, total};
ghost use Rattle.mill_model.specs.Slab.{colours, legal, load};
ghost use Rattle.mill_model.specs.Instance.{largest, loss_charge, size_for};
ghost use Rattle.mill_model.specs.Plan.{legal_plan, loss};
ghost use Rattle.mill_model.specs.Small.{every_plan, four, loses_at_least, six_orders, three_mill};
ghost use Rattle.mill_model.specs.Small.{three_orders, twenty_sizes, two_orders};
ghost use Rattle.mill_model.specs.Tree.{canonical};
ghost use Rattle.mill_model.specs.Rank.{ranked_orders};
ghost use Rattle.mill_model.specs.Small.{order};
ghost use Rattle.mill_model.specs.Starts.{best_fit_loss, best_fit_path, best_start_loss};
ghost use Rattle.mill_model.specs.Starts.{first_fit_loss, first_fit_path};
ghost use Rattle.mill_model.specs.Pairs.{first_closed, pair_closed, pairs_of, sure_tries};

/// The orders (1, 1), (1, 2) and (2, 3) weigh 4 together and have three colours; the first and
/// the last fit one slab of two colours.
pub fn slabs()
    ensures load { load three_orders ≡ 4 }
    ensures colours { colours three_orders ≡ 3 }
    ensures too_colourful { legal three_mill three_orders ≡ false }
    ensures fits { legal three_mill two_orders ≡ true }
{}

/// The sizes 2, 4 and 9, and what they charge the loads 0 to 5 and 9.
pub fn charges()
    ensures largest { largest (2 ∷ 4 ∷ 9 ∷ []) ≡ 9 }
    ensures next_size { size_for (2 ∷ 4 ∷ 9 ∷ []) 5 ≡ Some 9 }
    ensures no_size { size_for (2 ∷ 4 ∷ 9 ∷ []) 10 ≡ None }
    ensures charges { map (loss_charge (2 ∷ 4 ∷ 9 ∷ [])) (0 ∷ 1 ∷ 2 ∷ 3 ∷ 4 ∷ 5 ∷ 9 ∷ [])
        ≡ 0 ∷ 1 ∷ 0 ∷ 1 ∷ 0 ∷ 4 ∷ 0 ∷ [] }
{}

/// One size, 4, and the orders (1, 1), (1, 2) and (2, 3), with two colours a slab.
pub fn three_orders_on_one_size()
    ensures pair { loss four (0 ∷ 1 ∷ 0 ∷ []) three_orders ≡ 4 }
    ensures other_pair { loss four (0 ∷ 0 ∷ 1 ∷ []) three_orders ≡ 4 }
    ensures alone { loss four (0 ∷ 1 ∷ 2 ∷ []) three_orders ≡ 8 }
    ensures pair_is_legal { legal_plan three_mill (0 ∷ 1 ∷ 0 ∷ []) three_orders ≡ true }
    ensures other_is_legal { legal_plan three_mill (0 ∷ 0 ∷ 1 ∷ []) three_orders ≡ true }
    ensures too_colourful { legal_plan three_mill (0 ∷ 0 ∷ 0 ∷ []) three_orders ≡ false }
    ensures least { list_all (loses_at_least 4) (every_plan 3) ≡ true }
{}

/// Six orders on slabs of twenty sizes, of which a plan loses nothing.
pub fn six_orders_on_twenty_sizes()
    ensures { loss (loss_charge twenty_sizes) (0 ∷ 0 ∷ 1 ∷ 1 ∷ 2 ∷ 2 ∷ []) six_orders ≡ 0 }
{}

/// Slabs are numbered by first appearance.
pub fn numbered_by_first_appearance()
    ensures { canonical (5 ∷ 2 ∷ 5 ∷ 7 ∷ 2 ∷ []) ≡ 0 ∷ 1 ∷ 0 ∷ 2 ∷ 1 ∷ [] }
{}

/// First fit and best fit. The three orders lose 4 by both. Of the six orders in rank, (22, 2),
/// (9, 3), (8, 5), (5, 4), (4, 1) and (4, 5), first fit puts the last with (8, 5) and (5, 4), whose
/// load is then 17, a size; best fit puts it with (4, 1), which adds 4 less.
pub fn first_fit_and_best_fit()
    ensures first { first_fit_path three_mill (ranked_orders three_orders) ≡ 0 ∷ 0 ∷ 1 ∷ [] }
    ensures first_loss { first_fit_loss three_mill four (ranked_orders three_orders) ≡ 4 }
    ensures best { best_fit_path three_mill four (ranked_orders three_orders)
        ≡ 0 ∷ 0 ∷ 1 ∷ [] }
    ensures six_first { first_fit_path (record { largest = 44; most_colours = 2 })
        (ranked_orders six_orders) ≡ 0 ∷ 0 ∷ 1 ∷ 1 ∷ 2 ∷ 1 ∷ [] }
    ensures six_first_loss { first_fit_loss (record { largest = 44; most_colours = 2 })
        (loss_charge twenty_sizes) (ranked_orders six_orders) ≡ 9 }
    ensures six_best { best_fit_path (record { largest = 44; most_colours = 2 })
        (loss_charge twenty_sizes) (ranked_orders six_orders)
        ≡ 0 ∷ 0 ∷ 1 ∷ 1 ∷ 2 ∷ 2 ∷ [] }
    ensures six_start { best_start_loss (record { largest = 44; most_colours = 2 })
        (loss_charge twenty_sizes) (ranked_orders six_orders) ≡ 6 }
{}

/// Where two slabs add the same, best fit takes the lowest.
pub fn best_fit_between_equals()
    ensures { best_fit_path three_mill four (order 3 1 ∷ order 3 2 ∷ order 1 1 ∷ [])
        ≡ 0 ∷ 1 ∷ 0 ∷ [] }
{}

/// The sizes 5 and 7: both put the two orders of weight 3 together and those of weight 2, and lose
/// 1 on each slab. The pair of the two slabs isn't closed, since 3 and 2 together fill a size.
pub fn two_slabs_that_lose_one_each()
    ensures first { first_fit_loss (record { largest = 7; most_colours = 2 })
        (loss_charge (5 ∷ 7 ∷ [])) (order 3 1 ∷ order 3 1 ∷ order 2 1 ∷ order 2 1 ∷ []) ≡ 2 }
    ensures best { best_fit_loss (record { largest = 7; most_colours = 2 })
        (loss_charge (5 ∷ 7 ∷ [])) (order 3 1 ∷ order 3 1 ∷ order 2 1 ∷ order 2 1 ∷ []) ≡ 2 }
    ensures not_closed { pair_closed (record { largest = 7; most_colours = 2 })
        (loss_charge (5 ∷ 7 ∷ [])) (order 3 1 ∷ order 3 1 ∷ order 2 1 ∷ order 2 1 ∷ [])
        (0 ∷ 0 ∷ 1 ∷ 1 ∷ []) ≡ false }
    ensures closed { pair_closed (record { largest = 7; most_colours = 2 })
        (loss_charge (5 ∷ 7 ∷ [])) (order 3 1 ∷ order 3 1 ∷ order 2 1 ∷ order 2 1 ∷ [])
        (0 ∷ 1 ∷ 0 ∷ 1 ∷ []) ≡ true }
{}

/// The pairs of a plan whose slabs 1 and 3 are used, and the tries that are sure to go to them.
pub fn pairs_of_a_plan()
    ensures pairs { pairs_of (1 ∷ 3 ∷ 1 ∷ 1 ∷ []) ≡ (1, 1) ∷ (1, 3) ∷ (3, 3) ∷ [] }
    ensures none_gained { sure_tries 1000 0 4 ≡ 1000 }
    ensures two_gained { sure_tries 1000 2 4 ≡ 980 }
    ensures all_spent { sure_tries 5 2 2 ≡ 0 }
{}

/// The orders (2, 1) and (3, 1) fill a slab of size 5. Alone each is closed, and the pair isn't.
pub fn closed_pairs()
    ensures alone { first_closed (record { largest = 5; most_colours = 2 })
        (loss_charge (5 ∷ [])) (order 2 1 ∷ order 3 1 ∷ []) (0 ∷ 1 ∷ []) 1 ≡ true }
    ensures not_both { first_closed (record { largest = 5; most_colours = 2 })
        (loss_charge (5 ∷ [])) (order 2 1 ∷ order 3 1 ∷ []) (0 ∷ 1 ∷ []) 2 ≡ false }
    ensures together { pair_closed (record { largest = 5; most_colours = 2 })
        (loss_charge (5 ∷ [])) (order 2 1 ∷ order 3 1 ∷ []) (0 ∷ 0 ∷ []) ≡ true }
    ensures three { pair_closed three_mill four three_orders (0 ∷ 1 ∷ 0 ∷ []) ≡ true }
{}
