ghost use Rattle.std.specs.Prelude.{◌≡◌, [], ◌∷◌};
ghost use Rattle.instance_drill.specs.Draws.{draw};
ghost use Rattle.instance_drill.specs.Drilled.{orders_from};

/// The first numbers that are drawn from the seed 1, and its first three orders.
pub fn instance_of_seed_one()
    ensures first { draw 1 0 ≡ 16838 }
    ensures second { draw 1 1 ≡ 5758 }
    ensures third { draw 1 2 ≡ 10113 }
    ensures fourth { draw 1 3 ≡ 17515 }
    ensures orders { orders_from 1 3
        ≡ record { weight = 9; colour = 19 }
        ∷ record { weight = 16; colour = 16 }
        ∷ record { weight = 10; colour = 8 }
        ∷ [] }
{}
