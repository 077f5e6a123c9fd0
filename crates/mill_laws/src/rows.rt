//! The definitions at small instances, computed. The one size is 4 throughout.
ghost use Rattle.std.specs.Prelude.{◌≡◌, [], ◌∷◌, true, false, pos, ◌-ℤ◌, map, Some, None};
ghost use Rattle.std.specs.Prelude.{take, drop};
ghost use Rattle.mill_model.specs.Small.{four, order, three_mill, three_orders};
ghost use Rattle.mill_model.specs.Rank.{rank, ranked_orders, starts_class_in};
ghost use Rattle.mill_model.specs.Tree.{children};
ghost use Rattle.mill_model.specs.Prices.{valid, least_slack};
ghost use Rattle.mill_model.specs.LiveKey.{live_groups, live_key, dead_loss};
ghost use Rattle.mill_model.specs.Log.{sound, Refutes};
ghost use Rattle.mill_model.specs.Bounds.{least_new, least_new_with, least_on_with};
ghost use Rattle.mill_model.specs.Bounds.{ascent_prices, ascent_worth, swept_worth};
ghost use Rattle.mill_model.specs.Thrift.{is_open};
ghost use Rattle.mill_model.specs.Size.{size, thrifty_size, enough};
ghost use Rattle.mill_model.specs.declared.closing.Closing.TheVariants.{Priced, Dominated};
ghost use Rattle.mill_laws.specs.Examples.{one_colour, three_ranked, three_task, seven_lines};
ghost use Rattle.mill_laws.specs.Examples.{full_group, last_order, four_task, ten_lines};
ghost use Rattle.mill_laws.specs.Examples.{class_task, two_task, worth_at, swept_at, same_key};
ghost use Rattle.mill_laws.specs.Examples.{balances, tied_orders};

/// The orders (1, 1), (1, 2) and (2, 3) in rank, by their places, and the children of two paths.
pub fn rank_and_children()
    ensures rank { map (λ placed. placed.place) (rank three_orders) ≡ 2 ∷ 0 ∷ 1 ∷ [] }
    ensures apart { children three_mill three_ranked (0 ∷ 1 ∷ [])
        ≡ (0 ∷ 1 ∷ 0 ∷ []) ∷ (0 ∷ 1 ∷ 1 ∷ []) ∷ (0 ∷ 1 ∷ 2 ∷ []) ∷ [] }
    ensures together { children three_mill three_ranked (0 ∷ 0 ∷ []) ≡ (0 ∷ 0 ∷ 1 ∷ []) ∷ [] }
{}

/// What prices are worth.
pub fn worth_of_prices()
    ensures at_the_root { worth_at three_task [] (pos 60 ∷ pos 0 ∷ pos 0 ∷ []) ≡ pos 60 }
    ensures beside_a_full_slab { worth_at three_task (0 ∷ 0 ∷ []) (pos 180 ∷ []) ≡ pos 240 }
    ensures one_colour { worth_at two_task [] (pos 60 ∷ pos 180 ∷ []) ≡ pos 240 }
    ensures dear { valid three_mill four last_order (pos 180 ∷ []) ≡ true }
    ensures too_dear { valid three_mill four last_order (pos 181 ∷ []) ≡ false }
{}

/// The least slacks of a new slab and of a group.
pub fn least_slacks()
    ensures new { least_new three_mill four three_ranked (pos 0 ∷ pos 0 ∷ pos 0 ∷ [])
        ≡ Some (pos 60) }
    ensures new_with_the_last { least_new_with three_mill four three_ranked
        (pos 60 ∷ pos 0 ∷ pos 0 ∷ []) 2 ≡ Some (pos 0) }
    ensures group { least_slack three_mill four full_group last_order (pos 180 ∷ []) ≡ pos 60 }
    ensures cannot_join { least_on_with three_mill four full_group last_order (pos 180 ∷ []) 0
        ≡ None }
{}

/// The ascent and the sweep.
pub fn ascent_and_sweep()
    ensures prices { ascent_prices three_mill four three_ranked [] ≡ pos 60 ∷ pos 0 ∷ pos 0 ∷ [] }
    ensures worth { ascent_worth three_mill four three_ranked [] ≡ pos 60 }
    ensures stays { swept_at two_task [] (pos 60 ∷ pos 180 ∷ []) ≡ pos 60 ∷ pos 180 ∷ [] }
    ensures falls { swept_at three_task (0 ∷ 1 ∷ []) (pos 0 ∷ []) ≡ (pos 0 -ℤ pos 60) ∷ [] }
    ensures before { worth_at three_task (0 ∷ 1 ∷ []) (pos 0 ∷ []) ≡ pos 180 }
    ensures after { worth_at three_task (0 ∷ 1 ∷ []) ((pos 0 -ℤ pos 60) ∷ []) ≡ pos 240 }
{}

/// A slab with two colours is full for an order of a third.
pub fn full_slab()
    ensures live { live_groups three_mill three_ranked (0 ∷ 0 ∷ []) ≡ [] }
    ensures dead { dead_loss three_mill four three_ranked (0 ∷ 0 ∷ []) ≡ 1 }
{}

/// A log of seven lines that refutes 4, with a price of 121 at least and 180 at most.
pub fn seven_lines_refute_four()
    ensures refutes { Refutes three_task 4 (seven_lines (pos 180)) }
    ensures not_five { Refutes three_task 5 (seven_lines (pos 180)) → ⊥ }
    ensures at_121 { Refutes three_task 4 (seven_lines (pos 121)) }
    ensures worth_at_121 { worth_at three_task (0 ∷ 0 ∷ []) (pos 121 ∷ []) ≡ pos 181 }
    ensures at_120 { Refutes three_task 4 (seven_lines (pos 120)) → ⊥ }
    ensures worth_at_120 { worth_at three_task (0 ∷ 0 ∷ []) (pos 120 ∷ []) ≡ pos 180 }
    ensures at_181 { Refutes three_task 4 (seven_lines (pos 181)) → ⊥ }
    ensures unsound_at_181 { sound three_task 4 (0 ∷ 0 ∷ []) (Priced (pos 181 ∷ [])) ≡ false }
{}

/// A log of ten lines that refutes 2, with a dominated path.
pub fn dominated_path()
    ensures key { same_key four_task (0 ∷ 1 ∷ 0 ∷ []) (0 ∷ 0 ∷ 1 ∷ []) ≡ true }
    ensures dead { dead_loss three_mill four four_task.ranked (0 ∷ 1 ∷ 0 ∷ []) ≡ 0 }
    ensures other_dead { dead_loss three_mill four four_task.ranked (0 ∷ 0 ∷ 1 ∷ []) ≡ 0 }
    ensures refutes { Refutes four_task 2 ten_lines }
    ensures by_another { sound four_task 2 (0 ∷ 1 ∷ 0 ∷ []) (Dominated (0 ∷ 1 ∷ 1 ∷ [])) ≡ false }
{}

/// Inside a class a path isn't dominated, though another has its live key and less dead loss.
pub fn inside_a_class()
    ensures inside { starts_class_in 3 class_task.ranked ≡ false }
    ensures key { same_key class_task (0 ∷ 1 ∷ 2 ∷ []) (0 ∷ 0 ∷ 1 ∷ []) ≡ true }
    ensures dead { dead_loss one_colour four class_task.ranked (0 ∷ 1 ∷ 2 ∷ []) ≡ 5 }
    ensures less_dead { dead_loss one_colour four class_task.ranked (0 ∷ 0 ∷ 1 ∷ []) ≡ 1 }
    ensures unsound { sound class_task 3 (0 ∷ 1 ∷ 2 ∷ []) (Dominated (0 ∷ 0 ∷ 1 ∷ [])) ≡ false }
{}

/// The first three of the seven lines leave one path open; with the other lines none is.
pub fn conserved_pieces()
    ensures one_open { balances three_task (take 3 (seven_lines (pos 180)) ∷ [])
        ((0 ∷ 1 ∷ []) ∷ []) ≡ true }
    ensures lost { balances three_task (take 3 (seven_lines (pos 180)) ∷ []) [] ≡ false }
    ensures whole { balances three_task
        (take 3 (seven_lines (pos 180)) ∷ drop 3 (seven_lines (pos 180)) ∷ []) [] ≡ true }
{}

/// Thrift for a loss of 4: the ascent at the path `1 2` is worth 180, which is not too much, but
/// one sweep of its price makes it worth 240.
pub fn thrift()
    ensures ascent { ascent_worth three_mill four three_ranked (0 ∷ 1 ∷ []) ≡ pos 180 }
    ensures sweep { swept_worth three_mill four three_ranked (0 ∷ 1 ∷ []) ≡ pos 240 }
    ensures closed { is_open three_task 4 (0 ∷ 1 ∷ []) ≡ false }
    ensures open { is_open three_task 4 (0 ∷ []) ≡ true }
    ensures at_the_root { is_open three_task 2 [] ≡ true }
    ensures not_at_the_root { is_open three_task 1 [] ≡ false }
{}

/// Equal orders stand by their places: of (1, 5), (2, 1), (1, 5), (2, 1) and (1, 2) the heavier
/// come first, then the lower colour.
pub fn rank_with_ties()
    ensures places { map (λ placed. placed.place) (rank tied_orders)
        ≡ 1 ∷ 3 ∷ 4 ∷ 0 ∷ 2 ∷ [] }
    ensures orders { ranked_orders tied_orders
        ≡ order 2 1 ∷ order 2 1 ∷ order 1 2 ∷ order 1 5 ∷ order 1 5 ∷ [] }
    ensures classes { map (λ k. starts_class_in k (ranked_orders tied_orders))
        (0 ∷ 1 ∷ 2 ∷ 3 ∷ 4 ∷ 5 ∷ [])
        ≡ true ∷ false ∷ true ∷ true ∷ false ∷ true ∷ [] }
{}

/// The live key of a path as a value: the group with (2, 3) alone has its load, one colour, and
/// neither of the colours to come.
pub fn live_key_of_a_path()
    ensures { live_key three_mill three_ranked (0 ∷ [])
        ≡ record {
          depth = 1;
          groups = record {
            load = 2;
            colours = 1;
            coming = false ∷ false ∷ [];
          } ∷ [];
        } }
{}

/// A path that has placed every order has no child.
pub fn no_child_of_a_leaf()
    ensures { children three_mill three_ranked (0 ∷ 1 ∷ 2 ∷ []) ≡ [] }
{}

/// How many paths the tree of the three orders has, and the thrifty tree for a start that loses 4.
#[tactic(auto, unfolding(mill_model::specs::Size::size))]
pub fn tree_sizes()
    ensures thrifty { thrifty_size three_task 4 ≡ 7 }
    ensures whole { size three_task (λ path. true) 3 [] ≡ 8 }
    ensures enough { enough 6 ≡ 874 }
{}
