//! The definitions at small lists, computed: a wrong number is refused by the prover.
ghost use Rattle.std.specs.Prelude.{◌≡◌, ◌∷◌, [], true, false, eqb};
ghost use Rattle.list_laws.specs.Sets.{below, chosen, different, same_times, sets, total};

/// Sets are marks, and multisets are counted.
pub fn sets_and_sums()
    ensures chosen { chosen (true ∷ false ∷ true ∷ []) (below 3) ≡ 0 ∷ 2 ∷ [] }
    ensures sets { sets 2 ≡ (false ∷ false ∷ []) ∷ (false ∷ true ∷ []) ∷ (true ∷ false ∷ [])
        ∷ (true ∷ true ∷ []) ∷ [] }
    ensures different { different (3 ∷ 1 ∷ 3 ∷ []) ≡ 2 }
    ensures total { total 4 (λ n. n) ≡ 6 }
    ensures one_multiset { same_times eqb (1 ∷ 2 ∷ 1 ∷ []) (2 ∷ 1 ∷ 1 ∷ []) ≡ true }
    ensures another { same_times eqb (1 ∷ 2 ∷ []) (1 ∷ 1 ∷ 2 ∷ []) ≡ false }
{}
