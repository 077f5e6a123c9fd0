// The least of 60 times the charge less the prices, over the sets of a table.

ghost use Rattle.std.specs.Prelude.{◌≡◌, ℕ, List, Bool, ◌+◌, ◌*◌, ◌<◌, ◌≤◌, ℤ, pos, neg_ℤ, length};
ghost use Rattle.mill_model.specs.declared.order.Order.{Order};
ghost use Rattle.set_minima.specs.Packs.{IsTable, IsTop};
ghost use Rattle.set_minima.specs.Joins.{gain, Packed};
ghost use Rattle.set_minima.specs.Cells.{cell, found, AreNear};
ghost use Rattle.colour_tables.specs.Entries.{entry};
ghost use Rattle.colour_tables.specs.Entries.{AreSmallAll};
ghost use Rattle.colour_tables.specs.Leasts.{AreCharged};
ghost use Rattle.colour_tables.specs.Entries.{table_limit};

/// The least charge less value.
pub(crate) fn least(charges: &[i64], table: &[i64]) -> i64
    requires reach { length table.now ≤ length charges.now }
    requires small { AreSmallAll charges.now }
    requires near { AreNear table_limit table.now }
    ensures top { (allowed : ℕ → Bool) → (own : List ℕ) → (k : ℕ) → (rest : List Order) →
        (prices : List ℤ) → (charge : ℕ → ℕ) → (base : ℕ) →
        AreCharged charge base (length table.now) charges.now →
        IsTable allowed own k rest prices (length table.now) (cell table.now) →
        IsTop (Packed allowed own k rest 0 (length table.now)) (gain charge base rest prices)
        (found (neg_ℤ result)) }
{
    let mut least = i64::MAX;
    for l in 0..table.len() {
        least = least.min(charges[l] - table[l]);
    }
    least
}

/// The same over the loads from 1 on.
pub(crate) fn least_above(charges: &[i64], table: &[i64]) -> i64
    requires some { 0 < length table.now }
    requires reach { length table.now ≤ length charges.now }
    requires small { AreSmallAll charges.now }
    requires near { AreNear table_limit table.now }
    ensures top { (allowed : ℕ → Bool) → (own : List ℕ) → (k : ℕ) → (rest : List Order) →
        (prices : List ℤ) → (charge : ℕ → ℕ) → (base : ℕ) →
        AreCharged charge base (length table.now) charges.now →
        IsTable allowed own k rest prices (length table.now) (cell table.now) →
        IsTop (Packed allowed own k rest 1 (length table.now)) (gain charge base rest prices)
        (found (neg_ℤ result)) }
{
    let mut least = i64::MAX;
    for l in 1..table.len() {
        least = least.min(charges[l] - table[l]);
    }
    least
}
