// Keys in halves, so that no table is filled anew for each of them. The first tables leave out the
// colours to come of all keys. Those of a half are a copy of those of the whole, into which the
// colours are let that the other half alone leaves out; and so on, down to keys that name the same
// colours. So a colour is let in as often as the keys can be halved, and not once for each key.

ghost use Rattle.std.specs.Prelude.{◌≡◌, ℕ, ◌+◌, ◌*◌, ◌^◌, ◌<◌, ◌≤◌, ◌++◌, ◌∷◌, [], true, false};
ghost use Rattle.std.specs.Prelude.{All};
ghost use Rattle.std.specs.Prelude.{IfOk, OnOk, IfSome, IfNone, length, slice_index};
ghost use Rattle.std.specs.Prelude.{slice_index_or, pos};
ghost use Rattle.mill_model.specs.Instance.{IsOrder};
ghost use Rattle.mill_model.specs.Limits.{IsPrice, all_prices};
ghost use Rattle.mill_model.specs.Prices.{valid};
ghost use Rattle.mill_model.specs.declared.order.TheConstants.{MAX_ORDERS};
ghost use Rattle.set_minima.specs.Cells.{AreNear, AreNearTo};
ghost use Rattle.least_slacks.specs.Keys.{AreLeast, HasRoom, IsInside, new_slab};
ghost use Rattle.least_slacks.specs.Later.{IsLater, AreLayersOf, AreReachesOf, others_of};
ghost use Rattle.least_slacks.specs.Limits.{mill_within};
ghost use Rattle.least_slacks.specs.Parts.{IsFilled, IsWithin, ServesAll, drift, out_of};

use crate::best_prices::NOTHING;
use crate::colour_layers::{add_colours, copy_layers};
use crate::key::{Key, NO_COLOUR};
use crate::later_orders::{LaterOrders, by_colour, run_count, weight_of};
use crate::least_slack::{Layers, clear, judge_each};
use crate::limits::SlabLimits;
use crate::parts::{Part, Shape, name_the_same, shape_for};
use mill_model::{Order, OutOfMemory};
use std::alloc::Global;

/// Tables for one group after another, as long as those of an empty slab, and layers of them for
/// each halving.
#[derive(Drop)]
pub struct SlackTables {
    one: Vec<i64>,
    stack: Vec<i64>,
}

/// Fills layers with the orders of the colours that no key leaves out. All that stands in the
/// tables before is written over.
fn fill_layers(
    tables: &mut [i64],
    table: &mut [i64],
    later: &LaterOrders,
    part: &Part,
    layers: usize,
) -> [usize; 9]
    requires later { IsLater later.now }
    requires shape { length tables.old ≡ layers * length table.old }
    requires layers { layers ≤ 9 }
    requires some { 0 < length table.old }
    requires narrow { length table.old ≤ 20001 }
    requires first { part.now.first ≡ true }
    requires within { IsWithin part.now }
    ensures best { AreLayersOf later.now (others_of later.now (out_of part.now.most
        part.now.keys.now)) layers (length table.old) tables.new }
    ensures reach { AreReachesOf later.now (others_of later.now (out_of part.now.most
        part.now.keys.now)) layers (length table.old) result }
    ensures near { AreNear (9 * all_prices) tables.new }
{
    clear(table);
    copy_layers(tables, table.len(), layers, table, 0);
    add_colours(tables, table, later, part, layers, [0; 9])
}

/// Fills the first layers for all keys.
fn fill_first(
    tables: &mut [i64],
    one: &mut [i64],
    limits: &SlabLimits,
    later: &LaterOrders,
    keys: &[Key],
) -> (Shape, [usize; 9])
    requires later { IsLater later.now }
    requires one { length one.old ≡ limits.now.largest + 1 }
    requires room { (limits.now.most + 1) * (limits.now.largest + 1) ≤ length tables.old }
    ensures filled { IsFilled limits.now later.now keys.now result.0 result.1 tables.new }
    ensures near { AreNearTo (9 * all_prices) (result.0.layers * result.0.width) tables.new }
{
    let shape = shape_for(keys, limits, later);
    let part = Part {
        keys,
        whole: keys,
        first: true,
        most: limits.most,
    };
    let front = &mut tables[..shape.layers * shape.width];
    let reach = fill_layers(front, &mut one[..shape.width], later, &part, shape.layers);
    (shape, reach)
}

/// Fills layers for a part of keys from those for the whole.
fn refill_layers(
    tables: &mut [i64],
    table: &mut [i64],
    from: &Layers,
    later: &LaterOrders,
    part: &Part,
    layers: usize,
) -> [usize; 9]
    requires later { IsLater later.now }
    requires shape { length tables.old ≡ layers * length table.old }
    requires layers { layers ≤ 9 }
    requires some { 0 < length table.old }
    requires narrow { length table.old ≤ 20001 }
    requires part { part.now.first ≡ false }
    requires within { IsWithin part.now }
    requires deep { layers ≤ from.now.shape.layers }
    requires wide { length table.old ≤ from.now.shape.width }
    requires inside { from.now.shape.layers * from.now.shape.width ≤ length from.now.tables.now }
    requires near { AreNearTo 100000000000000000 (from.now.shape.layers * from.now.shape.width)
        from.now.tables.now }
    ensures best { AreReachesOf later.now (others_of later.now (out_of part.now.most
        part.now.whole.now)) from.now.shape.layers from.now.shape.width from.now.reach →
        AreLayersOf later.now (others_of later.now (out_of part.now.most
        part.now.whole.now)) from.now.shape.layers from.now.shape.width from.now.tables.now →
        AreLayersOf later.now (others_of later.now (out_of part.now.most part.now.keys.now)) layers
        (length table.old) tables.new }
    ensures reach { AreReachesOf later.now (others_of later.now (out_of part.now.most
        part.now.whole.now)) from.now.shape.layers from.now.shape.width from.now.reach →
        AreReachesOf later.now (others_of later.now (out_of part.now.most part.now.keys.now))
        layers (length table.old) result }
    ensures near { (n : ℕ) → AreNearTo n (from.now.shape.layers * from.now.shape.width)
        from.now.tables.now → AreNear (n + 9 * all_prices) tables.new }
{
    copy_layers(tables, table.len(), layers, from.tables, from.shape.width);
    add_colours(tables, table, later, part, layers, from.reach)
}

/// Fills layers for some keys from those for more keys.
fn fill_part(
    tables: &mut [i64],
    one: &mut [i64],
    from: &Layers,
    limits: &SlabLimits,
    later: &LaterOrders,
    part: &Part,
) -> (Shape, [usize; 9])
    requires later { IsLater later.now }
    requires one { length one.old ≡ limits.now.largest + 1 }
    requires room { (limits.now.most + 1) * (limits.now.largest + 1) ≤ length tables.old }
    requires part { (part.now.first ≡ false) × (part.now.most ≡ limits.now.most) }
    requires within { IsWithin part.now }
    requires serves { ServesAll limits.now later.now from.now.shape part.now.keys.now }
    requires filled { IsFilled limits.now later.now part.now.whole.now from.now.shape
        from.now.reach from.now.tables.now }
    requires near { AreNearTo 100000000000000000 (from.now.shape.layers * from.now.shape.width)
        from.now.tables.now }
    ensures filled { IsFilled limits.now later.now part.now.keys.now result.0 result.1 tables.new }
    ensures near { (n : ℕ) → AreNearTo n (from.now.shape.layers * from.now.shape.width)
        from.now.tables.now →
        AreNearTo (n + 9 * all_prices) (result.0.layers * result.0.width) tables.new }
{
    let need = shape_for(part.keys, limits, later);
    let layers = need.layers.min(from.shape.layers);
    let width = need.width.min(from.shape.width);
    let front = &mut tables[..layers * width];
    let reach = refill_layers(front, &mut one[..width], from, later, part, layers);
    (Shape { layers, width }, reach)
}

/// The least slack of the group of each key, from layers for all of them. `levels` is how often
/// they can be halved.
fn judge_keys(
    slacks: &mut [i64],
    stack: &mut [i64],
    one: &mut [i64],
    layers: &Layers,
    limits: &SlabLimits,
    later: &LaterOrders,
    keys: &[Key],
    levels: usize,
)
    requires later { IsLater later.now }
    requires one { length one.old ≡ limits.now.largest + 1 }
    requires stack { levels * ((limits.now.most + 1) * (limits.now.largest + 1))
        ≤ length stack.old }
    requires filled { IsFilled limits.now later.now keys.now layers.now.shape
        layers.now.reach layers.now.tables.now }
    requires near { AreNearTo (drift levels) (layers.now.shape.layers * layers.now.shape.width)
        layers.now.tables.now }
    requires keys { All (IsInside limits.now) keys.now }
    requires long { length slacks.old ≡ length keys.now }
    requires levels { (levels ≤ 64) × (length keys.now ≤ 2 ^ levels) }
    ensures { AreLeast limits.now later.now.rest.now later.now.prices.now keys.now slacks.new }
{
    if name_the_same(keys, limits.most) {
        judge_each(slacks, one, layers, limits, later, keys);
        return;
    }
    let (low, high) = keys.split_at(keys.len() / 2);
    let (first, second) = slacks.split_at_mut(low.len());
    let (here, deeper) = stack.split_at_mut((limits.most + 1) * (limits.largest + 1));
    let most = limits.most;
    let first_part = Part {
        keys: low,
        whole: keys,
        first: false,
        most,
    };
    let (shape, reach) = fill_part(here, one, layers, limits, later, &first_part);
    let tables = &here[..];
    let half = Layers {
        tables,
        shape,
        reach,
    };
    judge_keys(first, deeper, one, &half, limits, later, low, levels - 1);
    let second_part = Part {
        keys: high,
        whole: keys,
        first: false,
        most,
    };
    let (shape, reach) = fill_part(here, one, layers, limits, later, &second_part);
    let tables = &here[..];
    let half = Layers {
        tables,
        shape,
        reach,
    };
    judge_keys(second, deeper, one, &half, limits, later, high, levels - 1);
}

/// The same, with tables for the first layers and for `levels` halvings.
fn judge_all(
    slacks: &mut [i64],
    stack: &mut [i64],
    one: &mut [i64],
    limits: &SlabLimits,
    later: &LaterOrders,
    keys: &[Key],
    levels: usize,
)
    requires later { IsLater later.now }
    requires one { length one.old ≡ limits.now.largest + 1 }
    requires stack { (levels + 1) * ((limits.now.most + 1) * (limits.now.largest + 1))
        ≤ length stack.old }
    requires keys { All (IsInside limits.now) keys.now }
    requires long { length slacks.old ≡ length keys.now }
    requires levels { (levels ≤ 64) × (length keys.now ≤ 2 ^ levels) }
    ensures { AreLeast limits.now later.now.rest.now later.now.prices.now keys.now slacks.new }
{
    let (here, deeper) = stack.split_at_mut((limits.most + 1) * (limits.largest + 1));
    let (shape, reach) = fill_first(here, one, limits, later, keys);
    let tables = &here[..];
    let layers = Layers {
        tables,
        shape,
        reach,
    };
    judge_keys(slacks, deeper, one, &layers, limits, later, keys, levels);
}

/// How often so many keys must be halved until there is one.
fn halvings(count: usize) -> usize
    ensures few { result ≤ 64 }
    ensures enough { count ≤ 2 ^ result }
    ensures least { (levels : ℕ) → count ≤ 2 ^ levels → result ≤ levels }
{
    for levels in 0..64u32 {
        if count <= 1usize << levels {
            return levels as usize;
        }
    }
    64
}

/// Keys, and behind them that of a new slab.
fn with_new_slab(alloc: Global, keys: &[Key]) -> Result<Vec<Key>, OutOfMemory>
    ensures { IfOk result (λ all. all.items ≡ keys.now ++ new_slab ∷ []) }
{
    let mut all = keys.to_vec(alloc)?;
    let coming = [NO_COLOUR; 8];
    all.push(Key {
        coming,
        colours: 0,
        load: 0,
    })?;
    Ok(all)
}

/// The slack at a place.
fn slack_at(slacks: &[i64], place: usize) -> i64
    requires { place < length slacks.now }
    ensures { result ≡ slice_index_or slacks.now place (pos 0) }
{
    slacks[place]
}

impl SlackTables {
    /// Tables for slabs up to the largest load and the most colours.
    pub fn new(alloc: Global, largest: usize, most: usize) -> Result<SlackTables, OutOfMemory>
        requires size { largest ≤ 20000 }
        requires few { most ≤ 8 }
        ensures { IfOk result (HasRoom largest most) }
    {
        let one = vec![in alloc; NOTHING; largest + 1]?;
        let stack = vec![in alloc; NOTHING; (most + 1) * (largest + 1)]?;
        Ok(SlackTables { one, stack })
    }

    /// Makes room for layers, and for so many halvings of the keys that they serve.
    fn make_room(&mut self, limits: &SlabLimits, levels: usize) -> Result<(), OutOfMemory>
        requires few { levels ≤ 64 }
        ensures one { length self.new.one.items ≡ length self.old.one.items }
        ensures stack { OnOk result ((levels + 1) * ((limits.now.most + 1)
            * (limits.now.largest + 1)) ≤ length self.new.stack.items) }
    {
        let room = (levels + 1) * ((limits.most + 1) * (limits.largest + 1));
        if self.stack.len() < room {
            self.stack.resize(room, NOTHING)?;
        }
        Ok(())
    }
}

/// The least slack of the group of each key, under prices for later orders; nothing where the
/// prices aren't valid. It is fast where the keys stand in order, from the least to the greatest.
pub fn least_slacks(
    alloc: Global,
    tables: &mut SlackTables,
    limits: &SlabLimits,
    rest: &[Order],
    prices: &[i64],
    keys: &[Key],
) -> Result<Option<Vec<i64>>, OutOfMemory>
    requires few { length rest.now ≤ MAX_ORDERS }
    requires orders { All IsOrder rest.now }
    requires same { length prices.now ≡ length rest.now }
    requires priced { All IsPrice prices.now }
    requires room { HasRoom limits.now.largest limits.now.most tables.old }
    requires keys { All (λ key. (key.load ≤ limits.now.largest)
        × (key.colours ≤ limits.now.most)) keys.now }
    ensures some { IfOk result (λ found. IfSome found (λ slacks.
        (valid (mill_within limits.now) (λ l. slice_index limits.now.charges.now l) rest.now
        prices.now ≡ true)
        × AreLeast limits.now rest.now prices.now keys.now slacks.items)) }
    ensures none { IfOk result (λ found. IfNone found (
        valid (mill_within limits.now) (λ l. slice_index limits.now.charges.now l) rest.now
        prices.now ≡ false)) }
    ensures room { HasRoom limits.now.largest limits.now.most tables.new }
{
    let items = by_colour(alloc, rest)?;
    let all = with_new_slab(alloc, keys)?;
    let mut slacks = vec![in alloc; 0; all.len()]?;
    let levels = halvings(all.len());
    tables.make_room(limits, levels)?;
    let later = LaterOrders {
        rest,
        prices,
        items: &items,
        weight: weight_of(rest),
        kinds: run_count(&items),
    };
    let stack = &mut tables.stack;
    let one = &mut tables.one;
    judge_all(&mut slacks, stack, one, limits, &later, &all, levels);
    let slack = slack_at(&slacks, keys.len());
    if slack < 0 {
        return Ok(None);
    }
    slacks.truncate(keys.len());
    Ok(Some(slacks))
}
