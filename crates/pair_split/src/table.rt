//! The table of the states that some orders' splits reach, made from the last order on.
ghost use Rattle.std.specs.Prelude.{◌≡◌, ℕ, suc, ◌+◌, ◌<◌, ◌≤◌, [], length, drop, true};
ghost use Rattle.pair_split.specs.Splits.{front, grouped};
ghost use Rattle.pair_split.specs.Tables.{mill_in, table_size, IsTable};

use crate::layout::Layout;
use crate::spread::spread;
use crate::words::clear;
use mill_model::Order;

/// The colour of the order at `i`, or 0 past the last.
pub fn front_at(orders: &[Order], i: usize) -> u16
    ensures { result ≡ front (drop i orders.now) }
{
    if i < orders.len() {
        orders[i].colour
    } else {
        0
    }
}

/// Makes the table of the orders from `i` on, from that of the orders from `i + 1` on.
fn add_order(old: &[u64], new: &mut [u64], orders: &[Order], i: usize, layout: Layout)
    requires old { length old.now ≡ table_size layout }
    requires size { length new.old ≡ table_size layout }
    requires here { i < length orders.now }
    requires together { grouped (drop i orders.now) ≡ true }
    requires table { IsTable (mill_in layout) layout.words (drop (suc i) orders.now) old.now }
    ensures table { IsTable (mill_in layout) layout.words (drop i orders.now) new.new }
{
    let weight = orders[i].weight;
    let same = orders[i].colour == front_at(orders, i + 1);
    clear(new);
    spread(old, new, weight, same, layout);
}

/// Makes the table of no orders.
fn start(table: &mut [u64], layout: Layout)
    requires size { length table.old ≡ table_size layout }
    ensures table { IsTable (mill_in layout) layout.words [] table.new }
{
    clear(table);
    table[0] = 1;
}

/// Makes the table of the last order, or of none.
fn begin(table: &mut [u64], spare: &mut [u64], orders: &[Order], top: usize, layout: Layout)
    requires size { length table.old ≡ table_size layout }
    requires spare { length spare.old ≡ table_size layout }
    requires top { (top ≤ length orders.now) × (length orders.now ≤ top + 1) }
    requires together { (i : ℕ) → grouped (drop i orders.now) ≡ true }
    ensures table { IsTable (mill_in layout) layout.words (drop top orders.now) table.new }
{
    if top >= orders.len() {
        start(table, layout);
        return;
    }
    start(spare, layout);
    add_order(spare, table, orders, top, layout);
}

/// Adds the orders at `i + 1` and `i`, so that no table is copied back.
fn add_two(table: &mut [u64], spare: &mut [u64], orders: &[Order], i: usize, layout: Layout)
    requires size { length table.old ≡ table_size layout }
    requires spare { length spare.old ≡ table_size layout }
    requires here { i + 1 < length orders.now }
    requires together { (i : ℕ) → grouped (drop i orders.now) ≡ true }
    requires table { IsTable (mill_in layout) layout.words (drop (suc (suc i)) orders.now)
        table.old }
    ensures table { IsTable (mill_in layout) layout.words (drop i orders.now) table.new }
{
    add_order(table, spare, orders, i + 1, layout);
    add_order(spare, table, orders, i, layout);
}

/// Makes the table of the orders from `from` on.
pub fn fill_table(
    table: &mut [u64],
    spare: &mut [u64],
    orders: &[Order],
    from: usize,
    layout: Layout,
)
    requires size { length table.old ≡ table_size layout }
    requires spare { length spare.old ≡ table_size layout }
    requires from { from ≤ length orders.now }
    requires together { (i : ℕ) → grouped (drop i orders.now) ≡ true }
    ensures table { IsTable (mill_in layout) layout.words (drop from orders.now) table.new }
{
    let count = orders.len() - from;
    let top = orders.len() - count % 2;
    begin(table, spare, orders, top, layout);
    for k in 0..count / 2 {
        add_two(table, spare, orders, top - 2 * k - 2, layout);
    }
}
