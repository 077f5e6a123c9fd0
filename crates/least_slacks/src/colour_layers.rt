// Layers of tables of one width one after another: layer `t` has the sets of at most `t` colours.
// These reach no further than the `t` heaviest colours together. So, when a colour is let in, a
// layer is raised up to the load that its sets reach then; the numbers above say that there is no
// set, before and after.

ghost use Rattle.std.specs.Prelude.{◌≡◌, ℕ, List, [], suc, ◌+◌, ◌-◌, ◌*◌, ◌^◌, ◌<◌, ◌≤◌, ◌⊎◌};
ghost use Rattle.std.specs.Prelude.{length, slice_index_or, pos};
ghost use Rattle.std.specs.Int.{int_max};
ghost use Rattle.set_minima.specs.Cells.{cell, IsNear, AreNear};
ghost use Rattle.set_minima.specs.Reaches.{IsReach};
ghost use Rattle.least_slacks.specs.Items.{IsStretch, Letting};
ghost use Rattle.least_slacks.specs.Later.{IsLater, IsTableOf, AreLayersOf, IsRunOf, let_to};
ghost use Rattle.least_slacks.specs.Later.{AreReachesOf, IsRaised, others_of};
ghost use Rattle.least_slacks.specs.Parts.{IsWithin, letting_of, out_of};
ghost use Rattle.mill_model.specs.Limits.{all_prices};
ghost use Rattle.mill_model.specs.declared.order.TheConstants.{MAX_ORDERS};
ghost use Rattle.mill_model.specs.declared.prices.TheConstants.{MAX_PRICE};

use crate::best_prices::{add_run, raise_cells};
use crate::later_orders::{LaterOrders, run_end};
use crate::parts::Part;

/// Copies the layer that begins at `at` into a table.
pub(crate) fn copy_layer(table: &mut [i64], tables: &[i64], at: usize)
    requires { at + length table.old ≤ length tables.now }
    ensures { (l : ℕ) → l < length table.old →
        slice_index_or table.new l (pos 0) ≡ slice_index_or tables.now (at + l) (pos 0) }
{
    for l in 0..table.len() {
        table[l] = tables[at + l];
    }
}

/// Puts so many loads of a table, from the one at `from` on, where a layer begins.
fn put_layer(tables: &mut [i64], at: usize, width: usize, table: &[i64], from: usize)
    requires inside { at + width ≤ length tables.old }
    requires there { from + width ≤ length table.now }
    ensures here { (l : ℕ) → l < width →
        slice_index_or tables.new (at + l) (pos 0) ≡ slice_index_or table.now (from + l) (pos 0) }
    ensures other { (i : ℕ) → i < at ⊎ at + width ≤ i →
        slice_index_or tables.new i (pos 0) ≡ slice_index_or tables.old i (pos 0) }
{
    for l in 0..width {
        tables[at + l] = table[from + l];
    }
}

/// Betters the layer that begins at `at` by a table.
fn better_layer(tables: &mut [i64], table: &[i64], at: usize)
    requires { at + length table.now ≤ length tables.old }
    ensures here { (l : ℕ) → l < length table.now → slice_index_or tables.new (at + l) (pos 0) ≡
        int_max (slice_index_or tables.old (at + l) (pos 0)) (slice_index_or table.now l (pos 0)) }
    ensures other { (i : ℕ) → i < at ⊎ at + length table.now ≤ i →
        slice_index_or tables.new i (pos 0) ≡ slice_index_or tables.old i (pos 0) }
{
    for l in 0..table.len() {
        tables[at + l] = tables[at + l].max(table[l]);
    }
}

/// Lets the orders of a run into the layer that begins at `here`, over the sets that the layer at
/// `below` has for a colour less: up to the loads of the table that is worked with.
fn raise_by_run(
    tables: &mut [i64],
    table: &mut [i64],
    later: &LaterOrders,
    run: (usize, usize),
    below: usize,
    here: usize,
)
    requires later { IsLater later.now }
    requires apart { below + length table.old ≤ here }
    requires inside { here + length table.old ≤ length tables.old }
    requires order { run.0 ≤ run.1 }
    requires ends { run.1 ≤ length later.now.items.now }
    requires near { AreNear (2 ^ 58) tables.old }
    ensures raised { IsRaised later.now run.0 run.1 (length table.old) below here tables.old
        tables.new }
    ensures near { (n : ℕ) → AreNear n tables.old →
        AreNear (n + (run.1 - run.0) * MAX_PRICE) tables.new }
{
    copy_layer(table, tables, below);
    add_run(table, later, run.0, run.1);
    better_layer(tables, table, here);
}

/// The same for a run of one order, in one pass over so many loads.
fn raise_by_order(
    tables: &mut [i64],
    later: &LaterOrders,
    at: usize,
    below: usize,
    here: usize,
    loads: usize,
)
    requires later { IsLater later.now }
    requires apart { below + loads ≤ here }
    requires inside { here + loads ≤ length tables.old }
    requires item { at < length later.now.items.now }
    requires near { AreNear (2 ^ 58) tables.old }
    ensures raised { IsRaised later.now at (at + 1) loads below here tables.old tables.new }
    ensures near { (n : ℕ) → AreNear n tables.old → AreNear (n + MAX_PRICE) tables.new }
{
    let place = later.items[at].place;
    let weight = later.rest[place].weight as usize;
    let price = later.prices[place];
    raise_cells(tables, below, here, loads, weight, price);
}

/// Lets the orders of a run into a layer, by the way that is cheaper.
fn raise_loads(
    tables: &mut [i64],
    table: &mut [i64],
    later: &LaterOrders,
    run: (usize, usize),
    below: usize,
    here: usize,
)
    requires later { IsLater later.now }
    requires apart { below + length table.old ≤ here }
    requires inside { here + length table.old ≤ length tables.old }
    requires order { run.0 ≤ run.1 }
    requires ends { run.1 ≤ length later.now.items.now }
    requires near { AreNear (2 ^ 58) tables.old }
    ensures raised { IsRaised later.now run.0 run.1 (length table.old) below here tables.old
        tables.new }
    ensures near { (n : ℕ) → AreNear n tables.old →
        AreNear (n + (run.1 - run.0) * MAX_PRICE) tables.new }
{
    if run.1 == run.0 + 1 {
        raise_by_order(tables, later, run.0, below, here, table.len());
    } else {
        raise_by_run(tables, table, later, run, below, here);
    }
}

/// Lets the orders of a run into layer `t`, whose sets reach up to a load then. The loads above it
/// have no sets and stay as they are.
fn raise_layer(
    tables: &mut [i64],
    table: &mut [i64],
    later: &LaterOrders,
    run: (usize, usize),
    t: usize,
    reach: usize,
)
    requires later { IsLater later.now }
    requires above { 0 < t }
    requires reach { reach < length table.old }
    requires inside { t * length table.old + length table.old ≤ length tables.old }
    requires order { run.0 ≤ run.1 }
    requires ends { run.1 ≤ length later.now.items.now }
    requires near { AreNear (2 ^ 58) tables.old }
    ensures best { (letting : Letting) → (colour k : ℕ) →
        IsRunOf later.now letting run.0 run.1 colour →
        IsReach (let_to later.now letting run.1) [] (suc k) later.now.rest.now (length table.old)
        reach →
        IsTableOf later.now (let_to later.now letting run.0) [] k (length table.old)
        (λ l. cell tables.old ((t - 1) * length table.old + l)) →
        IsTableOf later.now (let_to later.now letting run.0) [] (suc k)
        (length table.old) (λ l. cell tables.old (t * length table.old + l)) →
        IsTableOf later.now (let_to later.now letting run.1) [] (suc k)
        (length table.old) (λ l. cell tables.new (t * length table.old + l)) }
    ensures other { (i : ℕ) → i < t * length table.old ⊎
        t * length table.old + length table.old ≤ i →
        slice_index_or tables.new i (pos 0) ≡ slice_index_or tables.old i (pos 0) }
    ensures near { (n : ℕ) → AreNear n tables.old →
        AreNear (n + (run.1 - run.0) * MAX_PRICE) tables.new }
{
    let width = table.len();
    let front = &mut table[..reach + 1];
    raise_loads(tables, front, later, run, (t - 1) * width, t * width);
}

/// How far the sets of layer `t` reach with a colour more whose orders have a weight together: at
/// most to the last load.
fn reach_with(reach: [usize; 9], t: usize, weight: usize, width: usize) -> usize
    requires above { 0 < t }
    requires layer { t < 9 }
    requires some { 0 < width }
    requires narrow { width ≤ 20001 }
    requires light { weight ≤ MAX_ORDERS * 2 ^ 32 }
    ensures inside { result < width }
    ensures without { slice_index_or reach t 0 ≤ result ⊎ width ≤ suc result }
    ensures beside { slice_index_or reach (t - 1) 0 + weight ≤ result ⊎ width ≤ suc result }
{
    let last = width - 1;
    let beside = reach[t - 1].min(last) + weight;
    reach[t].max(beside).min(last)
}

/// Lets the orders of a colour into all layers but the first, from the last down, and tells how far
/// they reach then.
fn add_colour(
    tables: &mut [i64],
    table: &mut [i64],
    later: &LaterOrders,
    run: (usize, usize),
    layers: usize,
    reach: [usize; 9],
) -> [usize; 9]
    requires later { IsLater later.now }
    requires shape { layers * length table.old ≤ length tables.old }
    requires layers { layers ≤ 9 }
    requires some { 0 < length table.old }
    requires narrow { length table.old ≤ 20001 }
    requires order { run.0 ≤ run.1 }
    requires ends { run.1 ≤ length later.now.items.now }
    requires near { AreNear 200000000000000000 tables.old }
    ensures best { (letting : Letting) → (colour : ℕ) →
        IsRunOf later.now letting run.0 run.1 colour →
        AreReachesOf later.now (let_to later.now letting run.0) layers (length table.old) reach →
        AreLayersOf later.now (let_to later.now letting run.0) layers
        (length table.old) tables.old →
        AreLayersOf later.now (let_to later.now letting run.1) layers
        (length table.old) tables.new }
    ensures reach { (letting : Letting) → (colour : ℕ) →
        IsRunOf later.now letting run.0 run.1 colour →
        AreReachesOf later.now (let_to later.now letting run.0) layers (length table.old) reach →
        AreReachesOf later.now (let_to later.now letting run.1) layers (length table.old) result }
    ensures near { (n : ℕ) → AreNear n tables.old →
        AreNear (n + (run.1 - run.0) * (9 * MAX_PRICE)) tables.new }
{
    let width = table.len();
    let weight = later.run_weight(run);
    let mut reach = reach;
    for t in (1..layers).rev() {
        let top = reach_with(reach, t, weight, width);
        raise_layer(tables, table, later, run, t, top);
        reach[t] = top;
    }
    reach
}

/// Fills layers of a width with the fronts of others, each of which begins `apart` after the one
/// before; with one table, where `apart` is 0.
pub(crate) fn copy_layers(
    tables: &mut [i64],
    width: usize,
    layers: usize,
    from: &[i64],
    apart: usize,
)
    requires shape { length tables.old ≡ layers * width }
    requires there { (t : ℕ) → t < layers → t * apart + width ≤ length from.now }
    ensures is { (t : ℕ) → t < layers → (l : ℕ) → l < width →
        slice_index_or tables.new (t * width + l) (pos 0)
        ≡ slice_index_or from.now (t * apart + l) (pos 0) }
    ensures near { (n : ℕ) → ((t : ℕ) → t < layers → (l : ℕ) → l < width →
        IsNear n (slice_index_or from.now (t * apart + l) (pos 0))) → AreNear n tables.new }
{
    for t in 0..layers {
        put_layer(tables, t * width, width, from, t * apart);
    }
}

/// Lets the orders of a colour into all layers but the first, where a part asks for it.
fn add_next(
    tables: &mut [i64],
    table: &mut [i64],
    later: &LaterOrders,
    part: &Part,
    run: (usize, usize),
    layers: usize,
    reach: [usize; 9],
) -> [usize; 9]
    requires later { IsLater later.now }
    requires shape { layers * length table.old ≤ length tables.old }
    requires layers { layers ≤ 9 }
    requires some { 0 < length table.old }
    requires narrow { length table.old ≤ 20001 }
    requires stretch { IsStretch later.now.items.now run.0 run.1 }
    requires near { AreNear 200000000000000000 tables.old }
    ensures best { AreReachesOf later.now
        (let_to later.now (letting_of later.now.rest.now part.now) run.0) layers
        (length table.old) reach → AreLayersOf later.now
        (let_to later.now (letting_of later.now.rest.now part.now) run.0) layers
        (length table.old) tables.old →
        AreLayersOf later.now (let_to later.now (letting_of later.now.rest.now part.now) run.1)
        layers (length table.old) tables.new }
    ensures reach { AreReachesOf later.now
        (let_to later.now (letting_of later.now.rest.now part.now) run.0) layers
        (length table.old) reach → AreReachesOf later.now
        (let_to later.now (letting_of later.now.rest.now part.now) run.1) layers
        (length table.old) result }
    ensures near { (n : ℕ) → AreNear n tables.old →
        AreNear (n + (run.1 - run.0) * (9 * MAX_PRICE)) tables.new }
{
    if part.lets_in(later.items[run.0].colour) {
        return add_colour(tables, table, later, run, layers, reach);
    }
    reach
}

/// Lets the orders of all colours that a part asks for into layers, one colour after another, and
/// tells how far they reach then.
pub(crate) fn add_colours(
    tables: &mut [i64],
    table: &mut [i64],
    later: &LaterOrders,
    part: &Part,
    layers: usize,
    reach: [usize; 9],
) -> [usize; 9]
    requires later { IsLater later.now }
    requires shape { layers * length table.old ≤ length tables.old }
    requires layers { layers ≤ 9 }
    requires some { 0 < length table.old }
    requires narrow { length table.old ≤ 20001 }
    requires within { IsWithin part.now }
    requires near { AreNear 100000000000000000 tables.old }
    ensures best { AreReachesOf later.now
        (others_of later.now (letting_of later.now.rest.now part.now).before) layers
        (length table.old) reach → AreLayersOf later.now
        (others_of later.now (letting_of later.now.rest.now part.now).before) layers
        (length table.old) tables.old →
        AreLayersOf later.now (others_of later.now (out_of part.now.most part.now.keys.now)) layers
        (length table.old) tables.new }
    ensures reach { AreReachesOf later.now
        (others_of later.now (letting_of later.now.rest.now part.now).before) layers
        (length table.old) reach → AreReachesOf later.now
        (others_of later.now (out_of part.now.most part.now.keys.now)) layers
        (length table.old) result }
    ensures near { (n : ℕ) → AreNear n tables.old → AreNear (n + 9 * all_prices) tables.new }
{
    let mut reach = reach;
    let mut at = 0;
    while at < later.items.len() {
        let end = run_end(later.items, at);
        let next = add_next(tables, table, later, part, (at, end), layers, reach);
        reach = next;
        at = end;
    }
    reach
}
