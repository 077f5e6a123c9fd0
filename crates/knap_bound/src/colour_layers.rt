// Layers of tables of one width one after another: layer `t` has the sets of at most `t` colours.

ghost use Rattle.std.specs.Prelude.{◌≡◌, ℕ, List, [], suc, ◌+◌, ◌-◌, ◌*◌, ◌^◌, ◌<◌, ◌≤◌, ◌⊎◌, ◌≢◌};
ghost use Rattle.std.specs.Prelude.{length, slice_index_or, pos};
ghost use Rattle.std.specs.Int.{int_max};
ghost use Rattle.set_minima.specs.Cells.{cell, AreNear};
ghost use Rattle.knap_bound.specs.Items.{IsStretch, item_at, no_place};
ghost use Rattle.knap_bound.specs.Packing.{IsPacking, IsTableOf, AreLayersOf, IsRunOf, let_to};
ghost use Rattle.knap_bound.specs.Packing.{others_of};
ghost use Rattle.mill_model.specs.Limits.{all_prices};

use crate::best_prices::add_run;
use crate::orders_by_colour::{Item, Packing, has_colour};

/// Copies the layer that begins at `at` into a table.
pub(crate) fn copy_layer(table: &mut [i64], tables: &[i64], at: usize)
    requires { at + length table.old ≤ length tables.now }
    ensures { (l : ℕ) → l < length table.old →
        slice_index_or table.new l (pos 0) ≡ slice_index_or tables.now (at + l) (pos 0) }
{
    for l in 0..table.len() {
        table[l] = tables[at + l];
    }
}

/// Puts a table where a layer begins.
fn put_layer(tables: &mut [i64], table: &[i64], at: usize)
    requires { at + length table.now ≤ length tables.old }
    ensures here { (l : ℕ) → l < length table.now →
        slice_index_or tables.new (at + l) (pos 0) ≡ slice_index_or table.now l (pos 0) }
    ensures other { (i : ℕ) → i < at ⊎ at + length table.now ≤ i →
        slice_index_or tables.new i (pos 0) ≡ slice_index_or tables.old i (pos 0) }
{
    for l in 0..table.len() {
        tables[at + l] = table[l];
    }
}

/// Betters the layer that begins at `at` by a table.
fn better_layer(tables: &mut [i64], table: &[i64], at: usize)
    requires { at + length table.now ≤ length tables.old }
    ensures here { (l : ℕ) → l < length table.now → slice_index_or tables.new (at + l) (pos 0) ≡
        int_max (slice_index_or tables.old (at + l) (pos 0)) (slice_index_or table.now l (pos 0)) }
    ensures other { (i : ℕ) → i < at ⊎ at + length table.now ≤ i →
        slice_index_or tables.new i (pos 0) ≡ slice_index_or tables.old i (pos 0) }
{
    for l in 0..table.len() {
        tables[at + l] = tables[at + l].max(table[l]);
    }
}

/// Lets the orders of a run into layer `t`, over the sets that the layer below has for a colour
/// less.
fn raise_layer(
    tables: &mut [i64],
    table: &mut [i64],
    packing: &Packing,
    run: (usize, usize),
    t: usize,
)
    requires packing { IsPacking packing.now }
    requires above { 0 < t }
    requires inside { t * length table.old + length table.old ≤ length tables.old }
    requires order { run.0 ≤ run.1 }
    requires ends { run.1 ≤ length packing.now.items.now }
    requires near { AreNear (2 ^ 58) tables.old }
    ensures best { (out : List ℕ) → (colour k : ℕ) →
        IsRunOf packing.now out run.0 run.1 colour →
        IsTableOf packing.now (let_to packing.now out run.0) [] k (length table.old)
        (λ l. cell tables.old ((t - 1) * length table.old + l)) →
        IsTableOf packing.now (let_to packing.now out run.0) [] (suc k)
        (length table.old) (λ l. cell tables.old (t * length table.old + l)) →
        IsTableOf packing.now (let_to packing.now out run.1) [] (suc k)
        (length table.old) (λ l. cell tables.new (t * length table.old + l)) }
    ensures other { (i : ℕ) → i < t * length table.old ⊎
        t * length table.old + length table.old ≤ i →
        slice_index_or tables.new i (pos 0) ≡ slice_index_or tables.old i (pos 0) }
    ensures near { (n : ℕ) → AreNear n tables.old → AreNear (n + all_prices) tables.new }
{
    let width = table.len();
    copy_layer(table, tables, (t - 1) * width);
    add_run(table, packing, run.0, run.1);
    better_layer(tables, table, t * width);
}

/// Lets the orders of a colour into all layers but the first, from the last down.
fn add_colour(
    tables: &mut [i64],
    table: &mut [i64],
    packing: &Packing,
    run: (usize, usize),
    layers: usize,
)
    requires packing { IsPacking packing.now }
    requires shape { layers * length table.old ≤ length tables.old }
    requires layers { layers ≤ 9 }
    requires order { run.0 ≤ run.1 }
    requires ends { run.1 ≤ length packing.now.items.now }
    requires near { AreNear 200000000000000000 tables.old }
    ensures best { (out : List ℕ) → (colour : ℕ) →
        IsRunOf packing.now out run.0 run.1 colour →
        AreLayersOf packing.now (let_to packing.now out run.0) layers
        (length table.old) tables.old →
        AreLayersOf packing.now (let_to packing.now out run.1) layers
        (length table.old) tables.new }
    ensures near { (n : ℕ) → AreNear n tables.old → AreNear (n + (9 * all_prices)) tables.new }
{
    for t in (1..layers).rev() {
        raise_layer(tables, table, packing, run, t);
    }
}

/// Puts one table into all layers.
pub(crate) fn spread_layer(tables: &mut [i64], table: &[i64], layers: usize)
    requires { length tables.old ≡ layers * length table.now }
    ensures is { (t : ℕ) → t < layers → (l : ℕ) → l < length table.now →
        slice_index_or tables.new (t * length table.now + l) (pos 0)
        ≡ slice_index_or table.now l (pos 0) }
    ensures near { (n : ℕ) → AreNear n table.now → AreNear n tables.new }
{
    for t in 0..layers {
        put_layer(tables, table, t * table.len());
    }
}

/// The place behind the items that have the colour of the one at `at`.
fn run_end(items: &[Item], at: usize) -> usize
    requires { at < length items.now }
    ensures some { at < result }
    ensures ends { result ≤ length items.now }
    ensures alike { (t : ℕ) → at ≤ t → t < result →
        (item_at items.now t).colour ≡ (item_at items.now at).colour }
    ensures other { result < length items.now →
        (item_at items.now result).colour ≢ (item_at items.now at).colour }
{
    for t in at + 1..items.len() {
        if items[t].colour != items[at].colour {
            return t;
        }
    }
    items.len()
}

/// Lets the orders of a colour into all layers but the first, where it isn't left out.
fn add_next(
    tables: &mut [i64],
    table: &mut [i64],
    packing: &Packing,
    out: &[u16],
    run: (usize, usize),
    layers: usize,
)
    requires packing { IsPacking packing.now }
    requires shape { layers * length table.old ≤ length tables.old }
    requires layers { layers ≤ 9 }
    requires stretch { IsStretch packing.now.items.now run.0 run.1 }
    requires near { AreNear 200000000000000000 tables.old }
    ensures best { AreLayersOf packing.now (let_to packing.now out.now run.0) layers
        (length table.old) tables.old →
        AreLayersOf packing.now (let_to packing.now out.now run.1) layers
        (length table.old) tables.new }
    ensures near { (n : ℕ) → AreNear n tables.old → AreNear (n + (9 * all_prices)) tables.new }
{
    if !has_colour(out, packing.items[run.0].colour) {
        add_colour(tables, table, packing, run, layers);
    }
}

/// Lets the orders of all colours that aren't left out into layers of the empty set, one colour
/// after another.
pub(crate) fn add_colours(
    tables: &mut [i64],
    table: &mut [i64],
    packing: &Packing,
    out: &[u16],
    layers: usize,
)
    requires packing { IsPacking packing.now }
    requires shape { layers * length table.old ≤ length tables.old }
    requires layers { layers ≤ 9 }
    requires near { AreNear 0 tables.old }
    ensures best { AreLayersOf packing.now no_place layers (length table.old) tables.old →
        AreLayersOf packing.now (others_of packing.now out.now) layers
        (length table.old) tables.new }
    ensures near { AreNear 200000000000000000 tables.new }
{
    let mut at = 0;
    while at < packing.items.len() {
        let end = run_end(packing.items, at);
        add_next(tables, table, packing, out, (at, end), layers);
        at = end;
    }
}
