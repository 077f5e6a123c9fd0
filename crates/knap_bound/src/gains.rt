// The greatest gain of the sets that may join a slab: their prices, less 60 times the charge of the
// slab with them.

ghost use Rattle.std.specs.Prelude.{◌≡◌, ℕ, ℤ, List, [], Bool, Some, None, suc, neg_ℤ, pos};
ghost use Rattle.std.specs.Prelude.{◌+◌, ◌-◌, ◌*◌, ◌^◌, ◌<◌, ◌≤◌, length, slice_index_or};
ghost use Rattle.list_laws.specs.Sets.{different};
ghost use Rattle.mill_model.specs.Charges.{charge_of};
ghost use Rattle.mill_model.specs.declared.order.Order.{Order};
ghost use Rattle.mill_model.specs.declared.charges.TheConstants.{MAX_CHARGE};
ghost use Rattle.mill_model.specs.declared.prices.TheConstants.{MAX_PRICE};
ghost use Rattle.set_minima.specs.Packs.{IsTable, IsTop};
ghost use Rattle.set_minima.specs.Joins.{gain, Packed, Joins, all_but};
ghost use Rattle.set_minima.specs.Cells.{cell, found, AreNear, AreNearTo, IsNear, IsSmall};
ghost use Rattle.knap_bound.specs.Packing.{IsPacking, AreLayersOf, IsTableOf, others_of};

use crate::best_prices::{NOTHING, add_left_out, best_of};
use crate::colour_layers::{add_colours, copy_layer, spread_layer};
use crate::orders_by_colour::Packing;
use mill_model::Charges;

/// What a charge takes from the prices of a set.
fn paid(charge: u64) -> i64
    requires { charge ≤ MAX_CHARGE }
    ensures is { result ≡ neg_ℤ (pos (60 * charge)) }
    ensures small { IsSmall MAX_PRICE result }
{
    -((60 * charge) as i64)
}

/// The greatest gain of the sets of a table that weigh `low` or more, beside a load.
fn best_gain(table: &[i64], charges: &Charges, load: usize, low: usize) -> i64
    requires reach { load + length table.now ≤ length charges.now.list }
    requires few { load + length table.now ≤ 20001 }
    requires low { low ≤ length table.now }
    requires near { AreNear 300000000000000000 table.now }
    ensures top { (allowed : ℕ → Bool) → (own : List ℕ) → (k : ℕ) → (rest : List Order) →
        (prices : List ℤ) →
        IsTable allowed own k rest prices (length table.now) (cell table.now) →
        IsTop (Packed allowed own k rest low (length table.now))
        (gain (charge_of charges.now) load rest prices) (found result) }
    ensures near { IsNear (2 ^ 59) result }
{
    let mut best = NOTHING;
    for l in low..table.len() {
        let charge = charges.charge((load + l) as u32);
        best = best_of(best, table[l], paid(charge));
    }
    best
}

/// Makes a table that of the empty set alone.
fn clear(table: &mut [i64])
    requires some { 0 < length table.old }
    ensures first { cell table.new 0 ≡ Some (pos 0) }
    ensures others { (l : ℕ) → suc l < length table.new → cell table.new (suc l) ≡ None }
    ensures near { AreNear 0 table.new }
{
    table.fill(NOTHING);
    table[0] = 0;
}

/// Fills layers with the orders of the colours that aren't left out. All that stands in the tables
/// before is written over.
fn fill_layers(tables: &mut [i64], table: &mut [i64], packing: &Packing, out: &[u16], layers: usize)
    requires packing { IsPacking packing.now }
    requires shape { length tables.old ≡ layers * length table.old }
    requires layers { layers ≤ 9 }
    requires some { 0 < length table.old }
    ensures best { AreLayersOf packing.now (others_of packing.now out.now) layers
        (length table.old) tables.new }
    ensures near { AreNear 200000000000000000 tables.new }
{
    clear(table);
    spread_layer(tables, table, layers);
    add_colours(tables, table, packing, out, layers);
}

/// Fills the front of the layers, so many of a width. The front of the other table is written over.
fn fill_front(
    layers: &mut [i64],
    one: &mut [i64],
    packing: &Packing,
    out: &[u16],
    count: usize,
    width: usize,
)
    requires packing { IsPacking packing.now }
    requires few { count ≤ 9 }
    requires some { 0 < width }
    requires one { width ≤ length one.old }
    requires room { count * width ≤ length layers.old }
    ensures best { AreLayersOf packing.now (others_of packing.now out.now) count width layers.new }
    ensures near { AreNearTo 200000000000000000 (count * width) layers.new }
{
    let front = &mut layers[..count * width];
    fill_layers(front, &mut one[..width], packing, out, count);
}

/// Makes a table that of a slab which has the colours that were left out, from the layer that
/// begins at `at`.
fn join_layer(table: &mut [i64], layers: &[i64], packing: &Packing, out: &[u16], at: usize)
    requires packing { IsPacking packing.now }
    requires inside { at + length table.old ≤ length layers.now }
    requires near { (l : ℕ) → l < length table.old →
        IsNear 200000000000000000 (slice_index_or layers.now (at + l) (pos 0)) }
    ensures best { (t : ℕ) → length out.now ≡ different out.now →
        IsTableOf packing.now (others_of packing.now out.now) [] t (length table.old)
        (λ l. cell layers.now (at + l)) →
        IsTableOf packing.now (all_but packing.now.skip) out.now (t + length out.now)
        (length table.old) (cell table.new) }
    ensures near { AreNear 300000000000000000 table.new }
{
    copy_layer(table, layers, at);
    add_left_out(table, packing, out);
}

/// The greatest gain from a layer of the orders whose colours the slab hasn't.
fn joined_gain(
    table: &mut [i64],
    layers: &[i64],
    packing: &Packing,
    charges: &Charges,
    base: usize,
    own: &[u16],
    at: usize,
    low: usize,
) -> i64
    requires packing { IsPacking packing.now }
    requires inside { at + length table.old ≤ length layers.now }
    requires near { (l : ℕ) → l < length table.old →
        IsNear 200000000000000000 (slice_index_or layers.now (at + l) (pos 0)) }
    requires reach { base + length table.old ≤ length charges.now.list }
    requires few { base + length table.old ≤ 20001 }
    requires low { low ≤ length table.old }
    ensures top { (t : ℕ) → length own.now ≡ different own.now →
        IsTableOf packing.now (others_of packing.now own.now) [] t (length table.old)
        (λ l. cell layers.now (at + l)) →
        IsTop (Packed (all_but packing.now.skip) own.now (t + length own.now)
        packing.now.rest.now low (length table.old))
        (gain (charge_of charges.now) base packing.now.rest.now packing.now.prices.now)
        (found result) }
    ensures near { IsNear (2 ^ 59) result }
{
    join_layer(table, layers, packing, own, at);
    best_gain(table, charges, base, low)
}

/// The greatest gain of the sets that weigh `low` or more and may join a slab of some load and
/// colours, without the skipped order.
pub(crate) fn greatest_gain(
    layers: &mut [i64],
    one: &mut [i64],
    packing: &Packing,
    charges: &Charges,
    largest: usize,
    most: usize,
    base: usize,
    own: &[u16],
    low: usize,
) -> i64
    requires packing { IsPacking packing.now }
    requires one { largest + 1 ≤ length one.old }
    requires layers { (most + 1) * (largest + 1) ≤ length layers.old }
    requires reach { length charges.now.list ≡ largest + 1 }
    requires size { largest ≤ 20000 }
    requires most { most ≤ 8 }
    requires base { base ≤ largest }
    requires once { length own.now ≡ different own.now }
    requires colours { length own.now ≤ most }
    requires low { low ≤ 1 }
    ensures top { IsTop (Joins (all_but packing.now.skip) low largest base own.now most
        packing.now.rest.now)
        (gain (charge_of charges.now) base packing.now.rest.now packing.now.prices.now)
        (found result) }
    ensures near { IsNear (2 ^ 59) result }
{
    let width = largest - base + 1;
    let free = most - own.len();
    fill_front(layers, one, packing, own, free + 1, width);
    joined_gain(
        &mut one[..width],
        layers,
        packing,
        charges,
        base,
        own,
        free * width,
        low,
    )
}
