// The least slacks of groups with the same colours to come, from tables that serve them all.

ghost use Rattle.std.specs.Prelude.{◌≡◌, ℕ, List, [], Bool, true, false, ◌+◌, ◌-◌, ◌*◌, ◌<◌, ◌≤◌};
ghost use Rattle.std.specs.Prelude.{◌^◌, ◌⊎◌, All, IfOk, IfSome, IfNone, length, slice_index};
ghost use Rattle.std.specs.Prelude.{slice_index_or, pos, neg_ℤ, ℤ, suc, Some, None};
ghost use Rattle.mill_model.specs.Slab.{load};
ghost use Rattle.mill_model.specs.declared.order.Order.{Order};
ghost use Rattle.set_minima.specs.Packs.{IsTable, IsTop};
ghost use Rattle.set_minima.specs.Joins.{gain, Packed, Joins, IsSlab, all_places};
ghost use Rattle.set_minima.specs.Cells.{cell, found, AreNear, AreNearTo, IsNear, IsSmall};
ghost use Rattle.set_minima.specs.Cells.{slack_limit};
ghost use Rattle.mill_model.specs.Instance.{IsOrder};
ghost use Rattle.mill_model.specs.Limits.{IsPrice};
ghost use Rattle.mill_model.specs.Prices.{least_slack, valid};
ghost use Rattle.list_laws.specs.Sets.{different};
ghost use Rattle.least_slacks.specs.Later.{IsLater, AreLayersOf, IsTableOf, HaveSame, others_of};
ghost use Rattle.least_slacks.specs.Limits.{mill_within};
ghost use Rattle.least_slacks.specs.Parts.{IsFor};
ghost use Rattle.least_slacks.specs.Keys.{AreLeast, HasColours, IsInside, IsJoined};
ghost use Rattle.mill_model.specs.declared.prices.TheConstants.{MAX_PRICE};
ghost use Rattle.mill_model.specs.declared.order.TheConstants.{MAX_ORDERS};
ghost use Rattle.mill_model.specs.declared.charges.TheConstants.{MAX_CHARGE};

use crate::best_prices::{NOTHING, add_left_out, best_of};
use crate::colour_layers::copy_layer;
use crate::key::{Key, NO_COLOUR};
use crate::later_orders::LaterOrders;
use crate::limits::SlabLimits;
use crate::parts::{Shape, are_alike};

/// What a charge takes from the prices of a set.
fn paid(charge: u64) -> i64
    requires { charge ≤ MAX_CHARGE }
    ensures is { result ≡ neg_ℤ (pos (60 * charge)) }
    ensures small { IsSmall MAX_PRICE result }
{
    -((60 * charge) as i64)
}

/// The greatest gain of the sets of a table, beside a load.
fn best_gain(table: &[i64], charges: &[u64], load: usize) -> i64
    requires reach { load + length table.now ≤ length charges.now }
    requires small { All (λ charge. charge ≤ MAX_CHARGE) charges.now }
    requires few { length table.now ≤ 20001 }
    requires near { AreNear 300000000000000000 table.now }
    ensures top { (allowed : ℕ → Bool) → (own : List ℕ) → (k : ℕ) → (rest : List Order) →
        (prices : List ℤ) →
        IsTable allowed own k rest prices (length table.now) (cell table.now) →
        IsTop (Packed allowed own k rest 0 (length table.now))
        (gain (λ l. slice_index charges.now l) load rest prices) (found result) }
    ensures near { IsNear (2 ^ 59) result }
{
    let mut best = NOTHING;
    for l in 0..table.len() {
        best = best_of(best, table[l], paid(charges[load + l]));
    }
    best
}

/// Makes a table that of the empty set alone.
pub(crate) fn clear(table: &mut [i64])
    requires some { 0 < length table.old }
    ensures first { cell table.new 0 ≡ Some (pos 0) }
    ensures others { (l : ℕ) → suc l < length table.new → cell table.new (suc l) ≡ None }
    ensures near { AreNear 0 table.new }
{
    table.fill(NOTHING);
    table[0] = 0;
}

/// What the one table is: up to `reach`, that of all orders for the slabs which have so many
/// colours, among them those that are to come.
#[derive(Clone, Copy)]
pub(crate) struct Joined {
    pub(crate) coming: [u16; 8],
    pub(crate) colours: usize,
    pub(crate) reach: usize,
}

/// Layers of tables that serve some keys, and the load up to which each may have sets.
#[derive(Drop)]
pub(crate) struct Layers<'a> {
    pub(crate) tables: &'a [i64],
    pub(crate) shape: Shape,
    pub(crate) reach: [usize; 9],
}

/// Makes a table that of a slab which has the colours that were left out, from the layer that
/// begins at `at`.
fn join_layer(table: &mut [i64], layers: &[i64], later: &LaterOrders, out: &[u16], at: usize)
    requires later { IsLater later.now }
    requires inside { at + length table.old ≤ length layers.now }
    requires near { (l : ℕ) → l < length table.old →
        IsNear 200000000000000000 (slice_index_or layers.now (at + l) (pos 0)) }
    ensures best { (own : List ℕ) → (t : ℕ) → length own ≡ different own →
        HaveSame later.now own out.now →
        IsTableOf later.now (others_of later.now out.now) [] t (length table.old)
        (λ l. cell layers.now (at + l)) →
        IsTableOf later.now all_places own (t + length own) (length table.old) (cell table.new) }
    ensures near { AreNear 300000000000000000 table.new }
{
    copy_layer(table, layers, at);
    add_left_out(table, later, out);
}

/// Makes a table that of a slab which takes no other colour than those that come.
fn join_none(table: &mut [i64], later: &LaterOrders, out: &[u16])
    requires later { IsLater later.now }
    requires some { 0 < length table.old }
    ensures best { (own : List ℕ) → length own ≡ different own → HaveSame later.now own out.now →
        IsTableOf later.now all_places own (length own) (length table.old) (cell table.new) }
    ensures near { AreNear 300000000000000000 table.new }
{
    clear(table);
    add_left_out(table, later, out);
}

/// How many loads a slab of a load has to look at: those up to its room, or up to what all later
/// orders weigh.
pub(crate) fn room_beside(limits: &SlabLimits, later: &LaterOrders, base: usize) -> usize
    requires later { IsLater later.now }
    requires fits { base ≤ limits.now.largest }
    ensures some { 0 < result }
    ensures wide { result ≤ limits.now.largest + 1 }
    ensures fits { base + result ≤ suc limits.now.largest }
    ensures reach { suc limits.now.largest ≤ base + result ⊎ load later.now.rest.now < result }
    ensures narrow { result ≤ load later.now.rest.now + 1 }
{
    (limits.largest - base).min(later.weight) + 1
}

/// The least slack of a group of a load, from a table of the slabs that have its colours.
fn slack_from(
    one: &[i64],
    limits: &SlabLimits,
    later: &LaterOrders,
    base: usize,
    room: usize,
) -> i64
    requires later { IsLater later.now }
    requires here { room ≤ length one.now }
    requires near { AreNearTo 300000000000000000 room one.now }
    requires fits { base + room ≤ suc limits.now.largest }
    requires some { 0 < room }
    requires enough { suc limits.now.largest ≤ base + room ⊎ load later.now.rest.now < room }
    ensures is { (own : List ℕ) → different own ≤ limits.now.most →
        IsTableOf later.now all_places own limits.now.most room (cell one.now) →
        (IsSmall slack_limit result) × ((group : List Order) → IsSlab group base own →
        result ≡ least_slack (mill_within limits.now) (λ l. slice_index limits.now.charges.now l)
        group later.now.rest.now later.now.prices.now) }
{
    -best_gain(&one[..room], limits.charges, base)
}

/// Makes the one table that of the slabs with the colours of a key, up to `room` loads at least.
fn join(
    one: &mut [i64],
    layers: &Layers,
    limits: &SlabLimits,
    later: &LaterOrders,
    key: Key,
    room: usize,
) -> Joined
    requires later { IsLater later.now }
    requires one { length one.old ≡ limits.now.largest + 1 }
    requires layers { IsFor limits.now later.now layers.now.shape layers.now.tables.now key }
    requires few { key.colours ≤ limits.now.most }
    requires some { 0 < room }
    requires room { (key.load + room ≤ limits.now.largest + 1)
        × (room ≤ load later.now.rest.now + 1) }
    ensures joined { IsJoined later.now limits.now.most result one.new }
    ensures same { (result.coming ≡ key.coming) × (result.colours ≡ key.colours) }
    ensures reach { room ≤ result.reach }
{
    let Key {
        coming,
        colours,
        ..
    } = key;
    if limits.most <= colours {
        join_none(&mut one[..room], later, &coming);
        let reach = room;
        return Joined {
            coming,
            colours,
            reach,
        };
    }
    let reach = layers.shape.width;
    let t = (limits.most - colours).min(layers.shape.layers - 1);
    join_layer(&mut one[..reach], layers.tables, later, &coming, t * reach);
    Joined {
        coming,
        colours,
        reach,
    }
}

/// The same, unless it is that already.
fn serve(
    one: &mut [i64],
    layers: &Layers,
    limits: &SlabLimits,
    later: &LaterOrders,
    key: Key,
    room: usize,
    joined: Joined,
) -> Joined
    requires later { IsLater later.now }
    requires one { length one.old ≡ limits.now.largest + 1 }
    requires layers { IsFor limits.now later.now layers.now.shape layers.now.tables.now key }
    requires joined { IsJoined later.now limits.now.most joined one.old }
    requires few { key.colours ≤ limits.now.most }
    requires some { 0 < room }
    requires room { (key.load + room ≤ limits.now.largest + 1)
        × (room ≤ load later.now.rest.now + 1) }
    ensures joined { IsJoined later.now limits.now.most result one.new }
    ensures same { (result.coming ≡ key.coming) × (result.colours ≡ key.colours) }
    ensures reach { room ≤ result.reach }
{
    if are_alike(joined.coming, key.coming)
        && joined.colours == key.colours
        && room <= joined.reach
    {
        return joined;
    }
    join(one, layers, limits, later, key, room)
}

/// The least slack of the group of a key, and what the one table is then.
fn slack_of(
    one: &mut [i64],
    layers: &Layers,
    limits: &SlabLimits,
    later: &LaterOrders,
    key: Key,
    joined: Joined,
) -> (i64, Joined)
    requires later { IsLater later.now }
    requires one { length one.old ≡ limits.now.largest + 1 }
    requires layers { IsFor limits.now later.now layers.now.shape layers.now.tables.now key }
    requires joined { IsJoined later.now limits.now.most joined one.old }
    requires fits { key.load ≤ limits.now.largest }
    requires few { key.colours ≤ limits.now.most }
    ensures joined { IsJoined later.now limits.now.most result.1 one.new }
    ensures is { (own : List ℕ) → HasColours later.now.rest.now key own →
        (IsSmall slack_limit result.0) × ((group : List Order) → IsSlab group key.load own →
        result.0 ≡ least_slack (mill_within limits.now)
        (λ l. slice_index limits.now.charges.now l) group later.now.rest.now
        later.now.prices.now) }
{
    let base = key.load as usize;
    let room = room_beside(limits, later, base);
    let joined = serve(one, layers, limits, later, key, room, joined);
    let slack = slack_from(one, limits, later, base, room);
    (slack, joined)
}

/// The least slack of the group of each key, from layers that serve them all. Of keys in order,
/// those with the same colours stand together, that with most room first.
pub(crate) fn judge_each(
    slacks: &mut [i64],
    one: &mut [i64],
    layers: &Layers,
    limits: &SlabLimits,
    later: &LaterOrders,
    keys: &[Key],
)
    requires later { IsLater later.now }
    requires one { length one.old ≡ limits.now.largest + 1 }
    requires layers { All (IsFor limits.now later.now layers.now.shape layers.now.tables.now)
        keys.now }
    requires keys { All (IsInside limits.now) keys.now }
    requires long { length slacks.old ≡ length keys.now }
    ensures { AreLeast limits.now later.now.rest.now later.now.prices.now keys.now slacks.new }
{
    let coming = [NO_COLOUR; 8];
    let colours = 0;
    let reach = 0;
    let mut joined = Joined {
        coming,
        colours,
        reach,
    };
    for i in 0..keys.len() {
        let (slack, next) = slack_of(one, layers, limits, later, keys[i], joined);
        slacks[i] = slack;
        joined = next;
    }
}
