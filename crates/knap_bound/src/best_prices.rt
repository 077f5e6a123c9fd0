// The best prices of sets of orders by load, one order at a time.

ghost use Rattle.std.specs.Prelude.{◌≡◌, ℕ, List, Bool, true, ◌+◌, ◌-◌, ◌^◌, ◌<◌, ◌≤◌};
ghost use Rattle.std.specs.Prelude.{◌&&◌, false, ◌∷◌, [], cond, leb, length};
ghost use Rattle.list_laws.specs.Sets.{holds};
ghost use Rattle.set_minima.specs.Packs.{better, with_price, colour_at, IsNext};
ghost use Rattle.set_minima.specs.Joins.{all_but};
ghost use Rattle.set_minima.specs.Cells.{cell, found, IsNear, AreNear, IsSmall};
ghost use Rattle.knap_bound.specs.Packing.{IsPacking, IsTableOf, IsRunOf, let_to};
ghost use Rattle.knap_bound.specs.Items.{item_at};
ghost use Rattle.knap_bound.specs.Packing.{joined_to, others_of};
ghost use Rattle.mill_model.specs.Limits.{all_prices};
ghost use Rattle.mill_model.specs.declared.prices.TheConstants.{MAX_PRICE};

use crate::orders_by_colour::{Item, Packing, has_colour};

/// Stands in a table where there is no set.
pub(crate) const NOTHING: i64 = -4_611_686_018_427_387_904;

/// The better of what a load has and what a lower one has with a price more.
pub(crate) fn best_of(here: i64, below: i64, price: i64) -> i64
    requires here { IsNear (2 ^ 60) here }
    requires below { IsNear (2 ^ 59) below }
    requires price { IsSmall MAX_PRICE price }
    ensures is { found result ≡ better (found here) (with_price price (found below)) }
    ensures near { (n : ℕ) → IsNear n here → IsNear n below → IsNear (n + MAX_PRICE) result }
{
    here.max(below + price)
}

/// Lets one order into a table.
fn add_order(table: &mut [i64], weight: usize, price: i64)
    requires weight { 0 < weight }
    requires near { AreNear (2 ^ 59) table.old }
    requires price { IsSmall MAX_PRICE price }
    ensures cells { (l : ℕ) → l < length table.old → cell table.new l ≡
        cond (leb weight l)
        (better (cell table.old l) (with_price price (cell table.old (l - weight))))
        (cell table.old l) }
    ensures near { (n : ℕ) → AreNear n table.old →
        AreNear (n + MAX_PRICE) table.new }
{
    for l in (weight..table.len()).rev() {
        table[l] = best_of(table[l], table[l - weight], price);
    }
}

/// Lets the order of an item into a table.
fn add_item(table: &mut [i64], packing: &Packing, item: Item)
    requires packing { IsPacking packing.now }
    requires here { item.place < length packing.now.rest.now }
    requires near { AreNear (2 ^ 59) table.old }
    ensures best { (before after : ℕ → Bool) → (own : List ℕ) → (k : ℕ) →
        IsNext before after item.place →
        holds (colour_at packing.now.rest.now item.place) own ≡ true →
        IsTableOf packing.now before own k (length table.old) (cell table.old) →
        IsTableOf packing.now after own k (length table.old) (cell table.new) }
    ensures near { (n : ℕ) → AreNear n table.old →
        AreNear (n + MAX_PRICE) table.new }
{
    let weight = packing.rest[item.place].weight as usize;
    add_order(table, weight, packing.prices[item.place]);
}

/// Lets the order of an item into a table where its colour is paid for, unless it is skipped.
fn add_kept(table: &mut [i64], packing: &Packing, t: usize)
    requires packing { IsPacking packing.now }
    requires here { t < length packing.now.items.now }
    requires near { AreNear (2 ^ 59) table.old }
    ensures best { (out own : List ℕ) → (k : ℕ) →
        holds (colour_at packing.now.rest.now (item_at packing.now.items.now t).place) out
        ≡ false →
        holds (colour_at packing.now.rest.now (item_at packing.now.items.now t).place) own
        ≡ true →
        IsTableOf packing.now (let_to packing.now out t) own k
        (length table.old) (cell table.old) →
        IsTableOf packing.now (let_to packing.now out (t + 1)) own k
        (length table.old) (cell table.new) }
    ensures near { (n : ℕ) → AreNear n table.old →
        AreNear (n + MAX_PRICE) table.new }
{
    let item = packing.items[t];
    if item.place != packing.skip {
        add_item(table, packing, item);
    }
}

/// Lets the orders of a run into a table where its colour is paid for.
pub(crate) fn add_run(table: &mut [i64], packing: &Packing, at: usize, end: usize)
    requires packing { IsPacking packing.now }
    requires order { at ≤ end }
    requires ends { end ≤ length packing.now.items.now }
    requires near { AreNear (2 ^ 58) table.old }
    ensures best { (out : List ℕ) → (colour k : ℕ) →
        IsRunOf packing.now out at end colour →
        IsTableOf packing.now (let_to packing.now out at) (colour ∷ []) k
        (length table.old) (cell table.old) →
        IsTableOf packing.now (let_to packing.now out end) (colour ∷ []) k
        (length table.old) (cell table.new) }
    ensures near { (n : ℕ) → AreNear n table.old →
        AreNear (n + all_prices) table.new }
{
    for t in at..end {
        add_kept(table, packing, t);
    }
}

/// Whether an item is of one of some colours and isn't the skipped one.
fn is_wanted(packing: &Packing, out: &[u16], item: Item) -> bool
    ensures { result ≡ (all_but packing.now.skip item.place && holds item.colour out.now) }
{
    item.place != packing.skip && has_colour(out, item.colour)
}

/// Lets the order of an item into a table, where its colour was left out.
fn consider(table: &mut [i64], packing: &Packing, out: &[u16], t: usize)
    requires packing { IsPacking packing.now }
    requires here { t < length packing.now.items.now }
    requires near { AreNear (2 ^ 59) table.old }
    ensures best { (k : ℕ) →
        IsTableOf packing.now (joined_to packing.now out.now t) out.now k
        (length table.old) (cell table.old) →
        IsTableOf packing.now (joined_to packing.now out.now (t + 1)) out.now k
        (length table.old) (cell table.new) }
    ensures near { (n : ℕ) → AreNear n table.old →
        AreNear (n + MAX_PRICE) table.new }
{
    let item = packing.items[t];
    if is_wanted(packing, out, item) {
        add_item(table, packing, item);
    }
}

/// Lets the orders of the colours that were left out into a table of a slab that has them.
pub(crate) fn add_left_out(table: &mut [i64], packing: &Packing, out: &[u16])
    requires packing { IsPacking packing.now }
    requires near { AreNear 200000000000000000 table.old }
    ensures best { (k : ℕ) →
        IsTableOf packing.now (others_of packing.now out.now) out.now k
        (length table.old) (cell table.old) →
        IsTableOf packing.now (all_but packing.now.skip) out.now k
        (length table.old) (cell table.new) }
    ensures near { AreNear 300000000000000000 table.new }
{
    for t in 0..packing.items.len() {
        consider(table, packing, out, t);
    }
}
