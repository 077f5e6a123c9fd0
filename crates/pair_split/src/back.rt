//! From a state back to a split that reaches it.
ghost use Rattle.std.specs.Prelude.{◌≡◌, ℕ, ◌≤◌, ◌↔◌, Bool, List, length, drop, true, IsTrue};
ghost use Rattle.std.specs.Prelude.{IfSome, IfNone};
ghost use Rattle.pair_split.specs.Splits.{grouped};
ghost use Rattle.pair_split.specs.States.{IsWithin, IsPart, state_of, with_order, loaded};
ghost use Rattle.pair_split.specs.Tables.{mill_in, table_size, Marked, Comes};

use crate::layout::Layout;
use crate::state::{State, on_first, on_second, row_of, state_at};
use crate::table::{fill_table, front_at};
use mill_model::Order;

/// Whether a state is marked.
pub fn is_marked(table: &[u64], state: State, layout: Layout) -> bool
    requires size { length table.now ≡ table_size layout }
    requires within { IsWithin (mill_in layout) state }
    ensures { IsTrue result ↔ Marked layout.words table.now state }
{
    let load = state.load as usize;
    (table[row_of(state) * layout.words + load / 64] >> (load % 64)) & 1 == 1
}

/// A state of a row from which an order leads to `at`, and whether it went to the first slab.
fn back_from(
    table: &[u64],
    row: State,
    at: State,
    weight: u32,
    same: bool,
    layout: Layout,
) -> Option<(State, bool)>
    requires size { length table.now ≡ table_size layout }
    requires row { (row.first ≤ layout.p) × (row.second ≤ 8) }
    requires at { at.load ≤ layout.largest }
    ensures some { IfSome result (λ b. IsWithin (mill_in layout) b.0
        × Marked layout.words table.now b.0 × (with_order b.1 weight same b.0 ≡ at)) }
    ensures none { IfNone result ((l : ℕ) → IsWithin (mill_in layout) (loaded row l) →
        Marked layout.words table.now (loaded row l) → (mark : Bool) →
        with_order mark weight same (loaded row l) ≡ at → ⊥) }
{
    if row.second > layout.p {
        return None;
    }
    if weight <= at.load {
        let before = State {
            load: at.load - weight,
            ..row
        };
        if is_marked(table, before, layout) && on_first(before, weight, same) == at {
            return Some((before, true));
        }
    }
    let before = State {
        load: at.load,
        ..row
    };
    if is_marked(table, before, layout) && on_second(before, same) == at {
        return Some((before, false));
    }
    None
}

/// A marked state from which an order leads to `at`, and whether it went to the first slab.
fn step_back(table: &[u64], at: State, weight: u32, same: bool, layout: Layout) -> (State, bool)
    requires size { length table.now ≡ table_size layout }
    requires at { at.load ≤ layout.largest }
    requires comes { Comes (mill_in layout) layout.words weight same table.now at }
    ensures within { IsWithin (mill_in layout) result.0 }
    ensures marked { Marked layout.words table.now result.0 }
    ensures leads { with_order result.1 weight same result.0 ≡ at }
{
    for r in 0..36 * (layout.p as usize + 1) {
        if let Some(found) = back_from(table, state_at(r), at, weight, same, layout) {
            return found;
        }
    }
    (at, false)
}

/// Marks a split of all orders whose state is the target.
pub fn mark_split(
    table: &mut [u64],
    spare: &mut [u64],
    orders: &[Order],
    marks: &mut [bool],
    target: State,
    layout: Layout,
)
    requires size { length table.old ≡ table_size layout }
    requires spare { length spare.old ≡ table_size layout }
    requires together { (i : ℕ) → grouped (drop i orders.now) ≡ true }
    requires marks { length marks.old ≡ length orders.now }
    requires reached { (set : List Bool) × IsPart (mill_in layout) orders.now set
        × (state_of orders.now set ≡ target) }
    ensures part { IsPart (mill_in layout) orders.now marks.new }
    ensures is { state_of orders.now marks.new ≡ target }
{
    let mut at = target;
    for i in 0..orders.len() {
        fill_table(table, spare, orders, i + 1, layout);
        let weight = orders[i].weight;
        let same = orders[i].colour == front_at(orders, i + 1);
        let (before, first) = step_back(table, at, weight, same, layout);
        marks[i] = first;
        at = before;
    }
}
