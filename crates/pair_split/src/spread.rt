//! One more order: what it makes of the marks of a table.
ghost use Rattle.std.specs.Prelude.{◌≡◌, ℕ, ◌+◌, ◌-◌, ◌*◌, ◌<◌, ◌≤◌, length, max, false};
ghost use Rattle.pair_split.specs.States.{loaded};
ghost use Rattle.pair_split.specs.Tables.{mill_in, table_size, row_bit, Pushes, Spreads};

use crate::layout::Layout;
use crate::state::{State, on_first, on_second, row_of};
use crate::words::shift_or;

/// Sets bit `l` of a row besides where bit `l - weight` of a row of the old table is set.
#[inline(always)]
fn shift_row(new: &mut [u64], to: usize, old: &[u64], from: usize, words: usize, weight: usize)
    requires to { to * words + words ≤ length new.old }
    requires from { from * words + words ≤ length old.now }
    ensures shifted { (l : ℕ) → weight ≤ l → l < 64 * words → row_bit words new.new to l
        ≡ max (row_bit words new.old to l) (row_bit words old.now from (l - weight)) }
    ensures low { (l : ℕ) → l < weight → l < 64 * words →
        row_bit words new.new to l ≡ row_bit words new.old to l }
    ensures others { (r l : ℕ) → (r ≡ to → ⊥) → l < 64 * words →
        row_bit words new.new r l ≡ row_bit words new.old r l }
{
    let at = to * words;
    let start = from * words;
    shift_or(&mut new[at..at + words], &old[start..start + words], weight);
}

/// Marks in the row of `after` what is marked in the old table's row of `before`, by the load of
/// `after` higher.
#[inline(always)]
fn push(old: &[u64], new: &mut [u64], before: State, after: State, layout: Layout)
    requires old { length old.now ≡ table_size layout }
    requires size { length new.old ≡ table_size layout }
    requires before { (before.first ≤ layout.p) × (before.second ≤ layout.p) }
    ensures { Pushes (mill_in layout) layout.words old.now new.old new.new before after }
{
    if after.first > layout.p || after.second > layout.p {
        return;
    }
    let load = after.load as usize;
    shift_row(new, row_of(after), old, row_of(before), layout.words, load);
}

/// Whether a row has a bit that is set.
#[inline(always)]
fn has_bits(table: &[u64], r: usize, words: usize) -> bool
    requires { r * words + words ≤ length table.now }
    ensures { result ≡ false → (l : ℕ) → l < 64 * words → row_bit words table.now r l ≡ 0 }
{
    for k in 0..words {
        if table[r * words + k] != 0 {
            return true;
        }
    }
    false
}

/// Marks where one more order leads from the marks of a row.
#[inline(always)]
fn spread_row(old: &[u64], new: &mut [u64], from: State, weight: u32, same: bool, layout: Layout)
    requires old { length old.now ≡ table_size layout }
    requires size { length new.old ≡ table_size layout }
    requires from { from.load ≡ 0 }
    requires few { (from.first ≤ layout.p) × (from.second ≤ layout.p) }
    ensures { Spreads (mill_in layout) layout.words weight same old.now new.old new.new
        (λ s. s ≡ loaded from s.load) }
{
    if !has_bits(old, row_of(from), layout.words) {
        return;
    }
    push(old, new, from, on_first(from, weight, same), layout);
    push(old, new, from, on_second(from, same), layout);
}

/// The state with load 0 of some colours and flags.
#[inline(always)]
fn empty(first: u8, second: u8, on_first: bool, on_second: bool) -> State
    ensures { result ≡ record {
      load = 0;
      first = first;
      second = second;
      on_first = on_first;
      on_second = on_second;
    } }
{
    State {
        load: 0,
        first,
        second,
        on_first,
        on_second,
    }
}

/// Marks where one more order leads from the marks of some numbers of colours.
fn spread_flags(
    old: &[u64],
    new: &mut [u64],
    first: u8,
    second: u8,
    weight: u32,
    same: bool,
    layout: Layout,
)
    requires old { length old.now ≡ table_size layout }
    requires size { length new.old ≡ table_size layout }
    requires few { (first ≤ layout.p) × (second ≤ layout.p) }
    ensures { Spreads (mill_in layout) layout.words weight same old.now new.old new.new
        (λ s. (s.first ≡ first) × (s.second ≡ second)) }
{
    let neither = empty(first, second, false, false);
    spread_row(old, new, neither, weight, same, layout);
    let other = empty(first, second, false, true);
    spread_row(old, new, other, weight, same, layout);
    let one = empty(first, second, true, false);
    spread_row(old, new, one, weight, same, layout);
    let both = empty(first, second, true, true);
    spread_row(old, new, both, weight, same, layout);
}

/// Marks where one more order leads from the marks of some number of colours on the first slab.
fn spread_second(old: &[u64], new: &mut [u64], first: u8, weight: u32, same: bool, layout: Layout)
    requires old { length old.now ≡ table_size layout }
    requires size { length new.old ≡ table_size layout }
    requires few { first ≤ layout.p }
    ensures { Spreads (mill_in layout) layout.words weight same old.now new.old new.new
        (λ s. s.first ≡ first) }
{
    for second in 0..layout.p + 1 {
        spread_flags(old, new, first, second, weight, same, layout);
    }
}

/// Marks where one more order leads from all marks.
pub fn spread(old: &[u64], new: &mut [u64], weight: u32, same: bool, layout: Layout)
    requires old { length old.now ≡ table_size layout }
    requires size { length new.old ≡ table_size layout }
    ensures { Spreads (mill_in layout) layout.words weight same old.now new.old new.new
        (λ s. s.first ≤ layout.p) }
{
    for first in 0..layout.p + 1 {
        spread_second(old, new, first, weight, same, layout);
    }
}
