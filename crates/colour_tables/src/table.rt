// Tables of the knapsack: the best prices of sets by load, one order at a time.

ghost use Rattle.std.specs.Prelude.{◌≡◌, ℕ, List, Bool, true, false, ℤ, ◌+◌, ◌-◌, ◌^◌, ◌<◌, ◌≤◌};
ghost use Rattle.std.specs.Prelude.{◌⊎◌, leb};
ghost use Rattle.std.specs.Prelude.{cond, length, Some, None, pos, suc, ◌∷◌, []};
ghost use Rattle.list_laws.specs.Sets.{holds};
ghost use Rattle.mill_model.specs.declared.order.Order.{Order};
ghost use Rattle.set_minima.specs.Packs.{better, with_price, IsTable};
ghost use Rattle.set_minima.specs.Cells.{cell, nothing, found, IsNear, AreNear, IsSmall};
ghost use Rattle.colour_tables.specs.Entries.{entry};
ghost use Rattle.colour_tables.specs.Colours.{but_for, of_colour_but};
ghost use Rattle.colour_tables.specs.Items.{IsRun, AreSmall, let_in, places};
ghost use Rattle.mill_model.specs.declared.prices.TheConstants.{MAX_PRICE};
ghost use Rattle.mill_model.specs.Limits.{all_prices};

use crate::items::Item;

/// Stands in a table where there is no set.
pub(crate) const NOTHING: i64 = -4_611_686_018_427_387_904;

/// The better of what a load has and what a lower one has with a price more.
pub(crate) fn best_of(here: i64, below: i64, price: i64) -> i64
    requires here { IsNear (2 ^ 60) here }
    requires below { IsNear (2 ^ 59) below }
    requires price { IsSmall MAX_PRICE price }
    ensures is { found result ≡ better (found here) (with_price price (found below)) }
    ensures near { (n : ℕ) → IsNear n here → IsNear n below → IsNear (n + MAX_PRICE) result }
{
    here.max(below + price)
}

/// Lets an order into four loads of a table.
fn add_four(table: &mut [i64], at: usize, weight: usize, price: i64)
    requires weight { 0 < weight }
    requires above { weight ≤ at }
    requires inside { at + 4 ≤ length table.old }
    requires near { (l : ℕ) → l < at + 4 → IsNear (2 ^ 59) (entry table.old l) }
    requires price { IsSmall MAX_PRICE price }
    ensures cells { (l : ℕ) → at ≤ l → l < at + 4 → cell table.new l ≡
        better (cell table.old l) (with_price price (cell table.old (l - weight))) }
    ensures others { (l : ℕ) → l < at ⊎ at + 4 ≤ l → entry table.new l ≡ entry table.old l }
    ensures near { (n : ℕ) → ((l : ℕ) → l < at + 4 → IsNear n (entry table.old l)) → (l : ℕ) →
        at ≤ l → l < at + 4 → IsNear (n + MAX_PRICE) (entry table.new l) }
{
    let low = at - weight;
    let x0 = best_of(table[at], table[low], price);
    let x1 = best_of(table[at + 1], table[low + 1], price);
    let x2 = best_of(table[at + 2], table[low + 2], price);
    let x3 = best_of(table[at + 3], table[low + 3], price);
    table[at] = x0;
    table[at + 1] = x1;
    table[at + 2] = x2;
    table[at + 3] = x3;
}

/// Lets an order into a table, one load at a time.
fn add_tail(table: &mut [i64], weight: usize, price: i64)
    requires weight { 0 < weight }
    requires near { AreNear (2 ^ 59) table.old }
    requires price { IsSmall MAX_PRICE price }
    ensures cells { (l : ℕ) → l < length table.old → cell table.new l ≡
        cond (leb weight l)
        (better (cell table.old l) (with_price price (cell table.old (l - weight))))
        (cell table.old l) }
    ensures near { (n : ℕ) → AreNear n table.old → AreNear (n + MAX_PRICE) table.new }
{
    for l in (weight..table.len()).rev() {
        table[l] = best_of(table[l], table[l - weight], price);
    }
}

/// Lets an order into a table, from the greatest load down, four loads at a time.
pub(crate) fn add(table: &mut [i64], weight: usize, price: i64)
    requires weight { 0 < weight }
    requires near { AreNear (2 ^ 59) table.old }
    requires price { IsSmall MAX_PRICE price }
    ensures cells { (l : ℕ) → l < length table.old → cell table.new l ≡
        cond (leb weight l)
        (better (cell table.old l) (with_price price (cell table.old (l - weight))))
        (cell table.old l) }
    ensures near { (n : ℕ) → AreNear n table.old → AreNear (n + MAX_PRICE) table.new }
{
    let len = table.len();
    if weight <= len {
        let fours = (len - weight) / 4;
        for i in 0..fours {
            add_four(table, len - 4 * (i + 1), weight, price);
        }
        add_tail(&mut table[..len - 4 * fours], weight, price);
    }
}

/// Makes a table that of the empty set alone.
pub(crate) fn clear(table: &mut [i64])
    requires some { 0 < length table.old }
    ensures first { cell table.new 0 ≡ Some (pos 0) }
    ensures others { (l : ℕ) → suc l < length table.new → cell table.new (suc l) ≡ None }
    ensures zero { entry table.new 0 ≡ pos 0 }
    ensures nothing { (l : ℕ) → 0 < l → l < length table.new → entry table.new l ≡ nothing }
    ensures near { AreNear 0 table.new }
{
    table.fill(NOTHING);
    table[0] = 0;
}

/// Whether an order is let in, where one of them may have to be skipped.
fn is_let_in(place: usize, skip: Option<usize>) -> bool
    ensures { result ≡ but_for skip place }
{
    match skip {
        None => true,
        Some(other) => place != other,
    }
}

/// Lets an item into a table, where it isn't the one to skip.
fn consider(table: &mut [i64], run: &[Item], t: usize, skip: Option<usize>)
    requires here { t < length run.now }
    requires small { AreSmall run.now }
    requires near { AreNear (2 ^ 59) table.old }
    ensures best { (rest : List Order) → (prices : List ℤ) → (c : ℕ) →
        IsRun rest prices c run.now → (before : ℕ → Bool) → (own : List ℕ) → (k : ℕ) →
        holds c own ≡ true →
        ((i : ℕ) → i < length rest → holds i (places run.now) ≡ true → before i ≡ false) →
        IsTable (let_in before run.now skip t) own k rest prices (length table.old)
        (cell table.old) →
        IsTable (let_in before run.now skip (t + 1)) own k rest prices (length table.old)
        (cell table.new) }
    ensures near { (n : ℕ) → AreNear n table.old → AreNear (n + MAX_PRICE) table.new }
{
    let item = run[t];
    if is_let_in(item.place, skip) {
        add(table, item.weight, item.price);
    }
}

/// Lets the items of a run into a table, but for the one to skip.
pub(crate) fn add_run(table: &mut [i64], run: &[Item], skip: Option<usize>)
    requires small { AreSmall run.now }
    requires near { AreNear (2 ^ 58) table.old }
    ensures best { (rest : List Order) → (prices : List ℤ) → (c : ℕ) →
        IsRun rest prices c run.now → (before : ℕ → Bool) → (own : List ℕ) → (k : ℕ) →
        holds c own ≡ true →
        ((i : ℕ) → i < length rest → holds i (places run.now) ≡ true → before i ≡ false) →
        IsTable before own k rest prices (length table.old) (cell table.old) →
        IsTable (let_in before run.now skip (length run.now)) own k rest prices
        (length table.old) (cell table.new) }
    ensures near { (n : ℕ) → AreNear n table.old → AreNear (n + all_prices) table.new }
{
    for t in 0..run.len() {
        consider(table, run, t, skip);
    }
}

/// The table of a run alone, but for the item to skip.
pub(crate) fn fill_run(table: &mut [i64], run: &[Item], skip: Option<usize>)
    requires some { 0 < length table.old }
    requires small { AreSmall run.now }
    ensures best { (rest : List Order) → (prices : List ℤ) → (c : ℕ) →
        IsRun rest prices c run.now →
        IsTable (of_colour_but rest c skip) (c ∷ []) 1 rest prices (length table.old)
        (cell table.new) }
    ensures near { AreNear all_prices table.new }
{
    clear(table);
    add_run(table, run, skip);
}
