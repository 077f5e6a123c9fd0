// The best prices of sets of orders by load, one order at a time.

ghost use Rattle.std.specs.Prelude.{◌≡◌, ℕ, List, Bool, true, ◌+◌, ◌-◌, ◌*◌, ◌^◌, ◌<◌, ◌≤◌, ◌⊎◌};
ghost use Rattle.std.specs.Prelude.{◌∷◌, [], cond, leb, length, slice_index_or, pos};
ghost use Rattle.list_laws.specs.Sets.{holds};
ghost use Rattle.set_minima.specs.Packs.{better, with_price, colour_at, IsNext};
ghost use Rattle.set_minima.specs.Joins.{all_places};
ghost use Rattle.set_minima.specs.Cells.{cell, found, IsNear, AreNear, IsSmall};
ghost use Rattle.least_slacks.specs.Items.{IsStretch, Letting, item_at};
ghost use Rattle.least_slacks.specs.Later.{IsLater, IsTableOf, IsRunOf, HaveSame, let_to};
ghost use Rattle.least_slacks.specs.Later.{joined_to, others_of};
ghost use Rattle.mill_model.specs.declared.prices.TheConstants.{MAX_PRICE};

use crate::later_orders::{Item, LaterOrders, has_colour, run_end};

/// Stands in a table where there is no set.
pub(crate) const NOTHING: i64 = -4_611_686_018_427_387_904;

/// The better of what a load has and what a lower one has with a price more.
pub(crate) fn best_of(here: i64, below: i64, price: i64) -> i64
    requires here { IsNear (2 ^ 60) here }
    requires below { IsNear (2 ^ 59) below }
    requires price { IsSmall MAX_PRICE price }
    ensures is { found result ≡ better (found here) (with_price price (found below)) }
    ensures near { (n : ℕ) → IsNear n here → IsNear n below → IsNear (n + MAX_PRICE) result }
{
    here.max(below + price)
}

/// Lets one order into a table.
fn add_order(table: &mut [i64], weight: usize, price: i64)
    requires weight { 0 < weight }
    requires near { AreNear (2 ^ 59) table.old }
    requires price { IsSmall MAX_PRICE price }
    ensures cells { (l : ℕ) → l < length table.old → cell table.new l ≡
        cond (leb weight l)
        (better (cell table.old l) (with_price price (cell table.old (l - weight))))
        (cell table.old l) }
    ensures near { (n : ℕ) → AreNear n table.old →
        AreNear (n + MAX_PRICE) table.new }
{
    for l in (weight..table.len()).rev() {
        table[l] = best_of(table[l], table[l - weight], price);
    }
}

/// Betters one table, which begins at `at`, by the sets of the one at `from` with one order more.
pub(crate) fn raise_cells(
    tables: &mut [i64],
    from: usize,
    at: usize,
    width: usize,
    weight: usize,
    price: i64,
)
    requires apart { from + width ≤ at }
    requires inside { at + width ≤ length tables.old }
    requires near { AreNear (2 ^ 59) tables.old }
    requires price { IsSmall MAX_PRICE price }
    ensures cells { (l : ℕ) → l < width → cell tables.new (at + l) ≡
        cond (leb weight l)
        (better (cell tables.old (at + l))
        (with_price price (cell tables.old (from + (l - weight)))))
        (cell tables.old (at + l)) }
    ensures other { (i : ℕ) → i < at ⊎ at + width ≤ i →
        slice_index_or tables.new i (pos 0) ≡ slice_index_or tables.old i (pos 0) }
    ensures near { (n : ℕ) → AreNear n tables.old → AreNear (n + MAX_PRICE) tables.new }
{
    for l in weight..width {
        tables[at + l] = best_of(tables[at + l], tables[from + (l - weight)], price);
    }
}

/// Lets the order of an item into a table.
fn add_item(table: &mut [i64], later: &LaterOrders, item: Item)
    requires later { IsLater later.now }
    requires here { item.place < length later.now.rest.now }
    requires near { AreNear (2 ^ 59) table.old }
    ensures best { (before after : ℕ → Bool) → (own : List ℕ) → (k : ℕ) →
        IsNext before after item.place →
        holds (colour_at later.now.rest.now item.place) own ≡ true →
        IsTableOf later.now before own k (length table.old) (cell table.old) →
        IsTableOf later.now after own k (length table.old) (cell table.new) }
    ensures near { (n : ℕ) → AreNear n table.old →
        AreNear (n + MAX_PRICE) table.new }
{
    let weight = later.rest[item.place].weight as usize;
    add_order(table, weight, later.prices[item.place]);
}

/// Lets the orders of a run into a table where its colour is paid for.
pub(crate) fn add_run(table: &mut [i64], later: &LaterOrders, at: usize, end: usize)
    requires later { IsLater later.now }
    requires order { at ≤ end }
    requires ends { end ≤ length later.now.items.now }
    requires near { AreNear (2 ^ 58) table.old }
    ensures best { (letting : Letting) → (colour k : ℕ) →
        IsRunOf later.now letting at end colour →
        IsTableOf later.now (let_to later.now letting at) (colour ∷ []) k
        (length table.old) (cell table.old) →
        IsTableOf later.now (let_to later.now letting end) (colour ∷ []) k
        (length table.old) (cell table.new) }
    ensures near { (n : ℕ) → AreNear n table.old →
        AreNear (n + (end - at) * MAX_PRICE) table.new }
{
    for t in at..end {
        add_item(table, later, later.items[t]);
    }
}

/// Lets the orders of a run into a table of a slab that has its colour.
fn add_own_run(table: &mut [i64], later: &LaterOrders, at: usize, end: usize)
    requires later { IsLater later.now }
    requires stretch { IsStretch later.now.items.now at end }
    requires near { AreNear (2 ^ 58) table.old }
    ensures best { (out own : List ℕ) → (k : ℕ) → HaveSame later.now own out →
        holds (item_at later.now.items.now at).colour out ≡ true →
        IsTableOf later.now (joined_to later.now out at) own k (length table.old)
        (cell table.old) →
        IsTableOf later.now (joined_to later.now out end) own k (length table.old)
        (cell table.new) }
    ensures near { (n : ℕ) → AreNear n table.old →
        AreNear (n + (end - at) * MAX_PRICE) table.new }
{
    for t in at..end {
        add_item(table, later, later.items[t]);
    }
}

/// Lets the orders of a run into a table, where their colour was left out.
fn add_run_left_out(table: &mut [i64], later: &LaterOrders, out: &[u16], at: usize, end: usize)
    requires later { IsLater later.now }
    requires stretch { IsStretch later.now.items.now at end }
    requires near { AreNear (2 ^ 58) table.old }
    ensures best { (own : List ℕ) → (k : ℕ) → HaveSame later.now own out.now →
        IsTableOf later.now (joined_to later.now out.now at) own k
        (length table.old) (cell table.old) →
        IsTableOf later.now (joined_to later.now out.now end) own k
        (length table.old) (cell table.new) }
    ensures near { (n : ℕ) → AreNear n table.old →
        AreNear (n + (end - at) * MAX_PRICE) table.new }
{
    if has_colour(out, later.items[at].colour) {
        add_own_run(table, later, at, end);
    }
}

/// Lets the orders of the colours that were left out into a table of a slab that has them.
pub(crate) fn add_left_out(table: &mut [i64], later: &LaterOrders, out: &[u16])
    requires later { IsLater later.now }
    requires near { AreNear 200000000000000000 table.old }
    ensures best { (own : List ℕ) → (k : ℕ) → HaveSame later.now own out.now →
        IsTableOf later.now (others_of later.now out.now) own k
        (length table.old) (cell table.old) →
        IsTableOf later.now all_places own k (length table.old) (cell table.new) }
    ensures near { AreNear 300000000000000000 table.new }
{
    let mut at = 0;
    while at < later.items.len() {
        let end = run_end(later.items, at);
        add_run_left_out(table, later, out, at, end);
        at = end;
    }
}
