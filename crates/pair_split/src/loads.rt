//! The loads of the marked states, and which of them makes the cheapest split.
ghost use Rattle.std.specs.Prelude.{◌≡◌, ℕ, ◌+◌, ◌-◌, ◌*◌, ◌^◌, ◌<◌, ◌≤◌, ◌↔◌, length, IsTrue};
ghost use Rattle.std.specs.Prelude.{IfSome, IfNone, slice_index};
ghost use Rattle.mill_model.specs.Charges.{Reaches, charge_of};
ghost use Rattle.mill_model.specs.Slab.{load};
ghost use Rattle.mill_model.specs.declared.order.TheConstants.{MAX_ORDERS};
ghost use Rattle.pair_split.specs.Loads.{Gathers, IsLoads, IsCheapest};
ghost use Rattle.pair_split.specs.States.{IsWithin, loaded};
ghost use Rattle.pair_split.specs.Tables.{mill_in, table_size, Marked};
ghost use Rattle.pair_split.specs.Words.{bit};
ghost use Rattle.pair_split.specs.declared.state.State.{State};

use crate::back::is_marked;
use crate::layout::Layout;
use crate::state::{State, state_at};
use crate::words::{bit_of, clear, shift_or};
use mill_model::{Charges, Order};

/// Sets the bits of a row besides.
fn gather_row(table: &[u64], loads: &mut [u64], r: usize, words: usize)
    requires row { r * words + words ≤ length table.now }
    requires loads { length loads.old ≡ words }
    ensures { Gathers words table.now loads.old loads.new (λ q. q ≡ r) }
{
    let start = r * words;
    shift_or(loads, &table[start..start + words], 0);
}

/// Sets the bits of the rows of some number of colours on the first slab besides.
fn gather_second(table: &[u64], loads: &mut [u64], first: u8, layout: Layout)
    requires size { length table.now ≡ table_size layout }
    requires loads { length loads.old ≡ layout.words }
    requires few { first ≤ layout.p }
    ensures { Gathers layout.words table.now loads.old loads.new
        (λ r. (first * 36 ≤ r) × (r < first * 36 + 4 * (layout.p + 1))) }
{
    let from = first as usize * 36;
    for r in from..from + 4 * (layout.p as usize + 1) {
        gather_row(table, loads, r, layout.words);
    }
}

/// Finds the loads of all marked states.
pub fn gather_loads(table: &[u64], loads: &mut [u64], layout: Layout)
    requires size { length table.now ≡ table_size layout }
    requires loads { length loads.old ≡ layout.words }
    ensures { IsLoads (mill_in layout) layout.words table.now loads.new }
{
    clear(loads);
    for first in 0..layout.p + 1 {
        gather_second(table, loads, first, layout);
    }
}

/// Whether a row's state of this load is within the bounds and marked.
fn has_load(table: &[u64], row: State, load: u32, layout: Layout) -> bool
    requires size { length table.now ≡ table_size layout }
    requires load { load ≤ layout.largest }
    requires row { (row.first ≤ layout.p) × (row.second ≤ 8) }
    ensures { IsTrue result ↔ IsWithin (mill_in layout) (loaded row load)
        × Marked layout.words table.now (loaded row load) }
{
    row.second <= layout.p && is_marked(table, State { load, ..row }, layout)
}

/// A marked state with this load.
pub fn state_with(table: &[u64], load: u32, layout: Layout) -> State
    requires size { length table.now ≡ table_size layout }
    requires load { load ≤ layout.largest }
    requires some { (s : State) × IsWithin (mill_in layout) s × Marked layout.words table.now s
        × (s.load ≡ load) }
    ensures within { IsWithin (mill_in layout) result }
    ensures marked { Marked layout.words table.now result }
    ensures load { result.load ≡ load }
{
    for r in 0..36 * (layout.p as usize + 1) {
        let row = state_at(r);
        if has_load(table, row, load, layout) {
            return State { load, ..row };
        }
    }
    state_at(0)
}

/// The load of some orders.
pub fn load_of(orders: &[Order]) -> u64
    requires few { length orders.now ≤ MAX_ORDERS }
    ensures is { result ≡ load orders.now }
    ensures limit { result < 2 ^ 60 }
{
    let mut sum: u64 = 0;
    for order in orders {
        sum += order.weight as u64;
    }
    sum
}

/// What a split with this load on the first slab loses, if it leaves the second light enough.
fn loss_at(charges: &Charges, whole: u64, load: u32, largest: u32) -> Option<u64>
    requires charges { length charges.now.list ≡ largest + 1 }
    requires load { load ≤ largest }
    requires sizes { largest ≤ 20000 }
    requires whole { whole < 2 ^ 60 }
    ensures none { IfNone result (load + largest < whole) }
    ensures some { IfSome result (λ loss. (whole ≤ load + largest) × (loss
        ≡ charge_of charges.now load + charge_of charges.now (whole - load))) }
{
    if whole > u64::from(load) + u64::from(largest) {
        return None;
    }
    let rest = whole.saturating_sub(u64::from(load)) as u32;
    Some(charges.charge(load) + charges.charge(rest))
}

/// The better of the best load so far and another, by what their splits lose.
fn better_load(
    best: Option<(u32, u64)>,
    loads: &[u64],
    load: u32,
    charges: &Charges,
    whole: u64,
    largest: u32,
) -> Option<(u32, u64)>
    requires wide { largest < 64 * length loads.now }
    requires charges { length charges.now.list ≡ largest + 1 }
    requires sizes { largest ≤ 20000 }
    requires whole { whole < 2 ^ 60 }
    requires load { load ≤ largest }
    requires best { IsCheapest (charge_of charges.now) whole largest load loads.now best }
    ensures { IsCheapest (charge_of charges.now) whole largest (load + 1) loads.now
        result }
{
    if !bit_of(loads, load as usize) {
        return best;
    }
    let Some(loss) = loss_at(charges, whole, load, largest) else {
        return best;
    };
    match best {
        Some((_, least)) if least <= loss => best,
        _ => Some((load, loss)),
    }
}

/// The load whose split loses least, with its loss, if the second slab can be light enough.
pub fn cheapest_load(
    loads: &[u64],
    charges: &Charges,
    orders: &[Order],
    layout: Layout,
) -> Option<(u32, u64)>
    requires loads { length loads.now ≡ layout.words }
    requires reach { Reaches charges.now (mill_in layout) }
    requires few { length orders.now ≤ MAX_ORDERS }
    ensures { IsCheapest (charge_of charges.now) (load orders.now) layout.largest
        (layout.largest + 1) loads.now result }
{
    let whole = load_of(orders);
    let mut best = None;
    for load in 0..layout.largest + 1 {
        best = better_load(best, loads, load, charges, whole, layout.largest);
    }
    best
}
