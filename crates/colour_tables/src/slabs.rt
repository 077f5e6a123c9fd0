// The least slacks of a slab, by its load and its colours.

ghost use Rattle.std.specs.Prelude.{◌≡◌, ℕ, List, Bool, true, false, ℤ, ◌+◌, ◌-◌, ◌^◌, ◌<◌, ◌≤◌};
ghost use Rattle.std.specs.Prelude.{◌-ℤ◌, ◌∷◌, [], length};
ghost use Rattle.std.specs.Prelude.{neg_ℤ, set, map, Some, slice_index_or};
ghost use Rattle.colour_tables.specs.Threes.{once};
ghost use Rattle.list_laws.specs.Sets.{holds, different};
ghost use Rattle.mill_model.specs.Prices.{least_slack};
ghost use Rattle.mill_model.specs.Bounds.{least_on_with, least_on_without, least_new_with};
ghost use Rattle.mill_model.specs.Bounds.{least_new};
ghost use Rattle.mill_model.specs.declared.order.Order.{Order};
ghost use Rattle.set_minima.specs.Packs.{IsTable, IsTop, colour_at, nobody};
ghost use Rattle.set_minima.specs.Joins.{IsSlab, gain, Packed, all_but, all_places, AreOrders};
ghost use Rattle.set_minima.specs.Cells.{cell, found, AreNear, IsSmall};
ghost use Rattle.colour_tables.specs.Entries.{AreSmallAll};
ghost use Rattle.colour_tables.specs.Leasts.{AreCharged};
ghost use Rattle.colour_tables.specs.Colours.{but_order};
ghost use Rattle.colour_tables.specs.Leasts.{IsLeast, IsRoom, two_colours};
ghost use Rattle.colour_tables.specs.Rowed.{IsShaped, AreRows};
ghost use Rattle.colour_tables.specs.Items.{AreSmall, IsRun, item_at};
ghost use Rattle.colour_tables.specs.Owned.{run_of, IsRunSafe, AreRunsSafe, AreRuns, IsHeld, IsOwn};
ghost use Rattle.colour_tables.specs.Owned.{MayTake, IsTurn, IsInRun, IsFound};
ghost use Rattle.mill_model.specs.declared.prices.TheConstants.{MAX_PRICE};
ghost use Rattle.mill_model.specs.Limits.{all_prices};
ghost use Rattle.colour_tables.specs.Entries.{row_limit};
ghost use Rattle.colour_tables.specs.Entries.{table_limit};

use crate::colour_rows::Rows;
use crate::gain::{least, least_above};
use crate::items::Item;
use crate::slab::Own;
use crate::table::{NOTHING, clear, fill_run};
use crate::turn::TurnTables;

/// The orders to come, colour by colour.
#[derive(Drop)]
pub(crate) struct Runs {
    pub(crate) items: Vec<Item>,
    pub(crate) ends: Vec<(usize, usize)>,
}

impl Runs {
    /// The orders of a colour.
    pub(crate) fn run(&self, c: usize) -> &[Item]
        requires safe { IsRunSafe self.now c }
        ensures is { result.now ≡ run_of self.now c }
        ensures small { AreSmall result.now }
    {
        let (at, end) = self.ends[c];
        &self.items[at..end]
    }

    /// Where an order stands among the items, by its colour and its place.
    pub(crate) fn position(&self, c: usize, place: usize) -> usize
        requires safe { IsRunSafe self.now c }
        ensures is { (rest : List Order) → (prices : List ℤ) → (x : ℕ) →
            IsRun rest prices x (run_of self.now c) → place < length rest →
            colour_at rest place ≡ x → IsFound self.now c place result }
    {
        let (at, end) = self.ends[c];
        for t in at..end {
            if self.items[t].place == place {
                return t;
            }
        }
        at
    }

    /// Sets the price of one of the orders of a colour.
    pub(crate) fn set_price(&mut self, at: usize, price: i64)
        requires here { at < length self.old.items.items }
        requires price { IsSmall MAX_PRICE price }
        ensures ends { self.new.ends.items ≡ self.old.ends.items }
        ensures items { self.new.items.items ≡ set self.old.items.items at (record {
          place = (item_at self.old.items.items at).place;
          weight = (item_at self.old.items.items at).weight;
          price = price;
        }) }
        ensures is { (rest : List Order) → (prices : List ℤ) → (name : ℕ → ℕ) →
            (present : List ℕ) → (c : ℕ) → AreRuns rest prices name present self.old →
            once (map name present) ≡ true → holds c present ≡ true →
            IsInRun self.old c at → (item_at self.old.items.items at).place < length rest →
            colour_at rest (item_at self.old.items.items at).place ≡ name c →
            AreRuns rest (set prices (item_at self.old.items.items at).place price) name present
            self.new }
        ensures safe { (c : ℕ) → IsRunSafe self.old c → IsRunSafe self.new c }
    {
        self.items[at].price = price;
    }
}

/// The least over the front of a table.
fn least_front(charges: &[i64], table: &[i64], n: usize) -> i64
    requires long { n ≤ length table.now }
    requires reach { n ≤ length charges.now }
    requires small { AreSmallAll charges.now }
    requires near { AreNear table_limit table.now }
    ensures top { (allowed : ℕ → Bool) → (own : List ℕ) → (k : ℕ) → (rest : List Order) →
        (prices : List ℤ) → (charge : ℕ → ℕ) → (base : ℕ) →
        AreCharged charge base n charges.now →
        IsTable allowed own k rest prices n (cell table.now) →
        IsTop (Packed allowed own k rest 0 n) (gain charge base rest prices)
        (found (neg_ℤ result)) }
{
    least(charges, &table[..n])
}

/// The least slack of a slab that no order may join: that of the empty set.
fn least_of_none(table: &mut [i64], charges: &[i64]) -> i64
    requires some { 0 < length table.old }
    requires reach { length table.old ≤ length charges.now }
    requires charges { AreSmallAll charges.now }
    ensures is { (rest : List Order) → (prices : List ℤ) → (charge : ℕ → ℕ) →
        (largest base : ℕ) → (own : List ℕ) → AreOrders rest → different own ≡ 2 →
        ((i : ℕ) → i < length rest → holds (colour_at rest i) own ≡ false) →
        IsRoom largest base (length table.old) →
        AreCharged charge base (length table.old) charges.now →
        IsLeast rest prices charge largest base all_places own result }
{
    clear(table);
    least(charges, table)
}

/// The least slack of a slab over all sets that may join it. The table is a place to work in, as
/// long as the room of the slab.
pub(crate) fn least_on(
    rows: &Rows,
    runs: &Runs,
    table: &mut [i64],
    charges: &[i64],
    own: Own,
) -> i64
    requires shaped { IsShaped rows.now }
    requires safe { AreRunsSafe rows.now.present.items runs.now }
    requires held { IsHeld rows.now.present.items own }
    requires some { 0 < length table.old }
    requires few { length table.old ≤ rows.now.width }
    requires reach { length table.old ≤ length charges.now }
    requires charges { AreSmallAll charges.now }
    ensures is { (rest : List Order) → (prices : List ℤ) → (name : ℕ → ℕ) → (charge : ℕ → ℕ) →
        (largest base : ℕ) → (colours : List ℕ) → AreRows rest prices name rows.now →
        AreRuns rest prices name rows.now.present.items runs.now →
        IsOwn rest name colours own → IsRoom largest base (length table.old) →
        AreCharged charge base (length table.old) charges.now →
        (group : List Order) → IsSlab group base colours →
        result ≡ least_slack (two_colours largest) charge group rest prices }
{
    match own {
        Own::Bare => least_front(charges, &rows.best, table.len()),
        Own::Free(d) => rows.least_beside(table, charges, d, runs.run(d), None),
        Own::One(d) => least_front(charges, rows.row(d), table.len()),
        Own::Two(d, e) => rows.least_pair(table, charges, d, runs.run(e), None),
        Own::Full => least_of_none(table, charges),
    }
}

/// The tables of an order in its turn: that of its colour without it, and that of its colour and at
/// most one other without it.
pub(crate) fn begin_turn(
    rows: &Rows,
    runs: &Runs,
    alone: &mut [i64],
    beside: &mut [i64],
    c: usize,
    j: usize,
)
    requires shaped { IsShaped rows.now }
    requires safe { AreRunsSafe rows.now.present.items runs.now }
    requires colour { holds c rows.now.present.items ≡ true }
    requires alone { length alone.old ≡ rows.now.width }
    requires beside { length beside.old ≡ rows.now.width }
    ensures is { (rest : List Order) → (prices : List ℤ) → (name : ℕ → ℕ) →
        AreRows rest prices name rows.now →
        AreRuns rest prices name rows.now.present.items runs.now → j < length rest →
        colour_at rest j ≡ name c →
        IsTurn rest prices name rows.now.width c j alone.new beside.new }
    ensures alone { AreNear all_prices alone.new }
    ensures beside { AreNear table_limit beside.new }
{
    let run = runs.run(c);
    fill_run(alone, run, Some(j));
    rows.put_beside(beside, c, run, Some(j));
}

/// The least slack of a new slab over all sets that hold an order, from the table of its colour
/// and at most one other.
pub(crate) fn least_new_with(charges: &[i64], beside: &[i64], n: usize) -> i64
    requires long { n ≤ length beside.now }
    requires reach { n ≤ length charges.now }
    requires charges { AreSmallAll charges.now }
    requires near { AreNear table_limit beside.now }
    ensures is { (rest : List Order) → (prices : List ℤ) → (charge : ℕ → ℕ) →
        (largest c j : ℕ) → length prices ≡ length rest → j < length rest →
        colour_at rest j ≡ c →
        IsTable (all_but j) (c ∷ []) 2 rest prices n (cell beside.now) →
        IsRoom largest (slice_index_or rest j nobody).weight n →
        AreCharged charge (slice_index_or rest j nobody).weight n charges.now → (v : ℤ) →
        least_new_with (two_colours largest) charge rest (set prices j v) j
        ≡ Some (result -ℤ v) }
{
    least_front(charges, beside, n)
}

/// The least slack of a slab over all sets that may join it and hold the order in its turn.
pub(crate) fn least_with(
    rows: &Rows,
    runs: &Runs,
    table: &mut [i64],
    charges: &[i64],
    own: Own,
    turn: &TurnTables,
) -> i64
    requires shaped { IsShaped rows.now }
    requires safe { AreRunsSafe rows.now.present.items runs.now }
    requires held { IsHeld rows.now.present.items own }
    requires colour { holds turn.now.colour rows.now.present.items ≡ true }
    requires takes { MayTake turn.now.colour own }
    requires alone { AreNear row_limit turn.now.alone.now }
    requires beside { AreNear table_limit turn.now.beside.now }
    requires same { length turn.now.alone.now ≡ rows.now.width }
    requires wide { length turn.now.beside.now ≡ rows.now.width }
    requires some { 0 < length table.old }
    requires few { length table.old ≤ rows.now.width }
    requires reach { length table.old ≤ length charges.now }
    requires charges { AreSmallAll charges.now }
    ensures is { (rest : List Order) → (prices : List ℤ) → (name : ℕ → ℕ) → (charge : ℕ → ℕ) →
        (largest base : ℕ) → (colours : List ℕ) → AreRows rest prices name rows.now →
        AreRuns rest prices name rows.now.present.items runs.now →
        IsTurn rest prices name rows.now.width turn.now.colour turn.now.place turn.now.alone.now
        turn.now.beside.now →
        IsOwn rest name colours own →
        IsRoom largest (base + (slice_index_or rest turn.now.place nobody).weight)
        (length table.old) →
        AreCharged charge (base + (slice_index_or rest turn.now.place nobody).weight)
        (length table.old)
        charges.now → (v : ℤ) → (group : List Order) → IsSlab group base colours →
        least_on_with (two_colours largest) charge group rest (set prices turn.now.place v)
        turn.now.place
        ≡ Some (result -ℤ v) }
{
    let c = turn.colour;
    match own {
        Own::Bare => least_front(charges, turn.alone, table.len()),
        Own::Free(d) => {
            if d == c {
                return least_front(charges, turn.beside, table.len());
            }
            rows.least_pair(table, charges, d, runs.run(c), Some(turn.place))
        }
        Own::One(_) => least_front(charges, turn.alone, table.len()),
        Own::Two(d, e) => {
            if d == c {
                return rows.least_pair(table, charges, e, runs.run(c), Some(turn.place));
            }
            rows.least_pair(table, charges, d, runs.run(c), Some(turn.place))
        }
        Own::Full => least_of_none(table, charges),
    }
}

/// The least slack of a slab over all sets that may join it and don't hold the order in its turn.
pub(crate) fn least_without(
    rows: &Rows,
    runs: &Runs,
    table: &mut [i64],
    charges: &[i64],
    own: Own,
    turn: &TurnTables,
) -> i64
    requires shaped { IsShaped rows.now }
    requires safe { AreRunsSafe rows.now.present.items runs.now }
    requires held { IsHeld rows.now.present.items own }
    requires colour { holds turn.now.colour rows.now.present.items ≡ true }
    requires takes { MayTake turn.now.colour own }
    requires alone { AreNear row_limit turn.now.alone.now }
    requires beside { AreNear table_limit turn.now.beside.now }
    requires same { length turn.now.alone.now ≡ rows.now.width }
    requires wide { length turn.now.beside.now ≡ rows.now.width }
    requires some { 0 < length table.old }
    requires few { length table.old ≤ rows.now.width }
    requires reach { length table.old ≤ length charges.now }
    requires charges { AreSmallAll charges.now }
    ensures is { (rest : List Order) → (prices : List ℤ) → (name : ℕ → ℕ) → (charge : ℕ → ℕ) →
        (largest base : ℕ) → (colours : List ℕ) → AreRows rest prices name rows.now →
        AreRuns rest prices name rows.now.present.items runs.now →
        IsTurn rest prices name rows.now.width turn.now.colour turn.now.place turn.now.alone.now
        turn.now.beside.now →
        IsOwn rest name colours own → IsRoom largest base (length table.old) →
        AreCharged charge base (length table.old) charges.now → (v : ℤ) →
        (group : List Order) → IsSlab group base colours →
        least_on_without (two_colours largest) charge group rest (set prices turn.now.place v)
        turn.now.place
        ≡ Some result }
{
    let c = turn.colour;
    match own {
        Own::Bare => rows.least_bare(table, charges, c, turn.alone),
        Own::Free(d) => {
            if d == c {
                return least_front(charges, turn.beside, table.len());
            }
            rows.least_apart(table, charges, c, d, turn.alone, runs.run(d))
        }
        Own::One(_) => least_front(charges, turn.alone, table.len()),
        Own::Two(d, e) => {
            if d == c {
                return rows.least_pair(table, charges, e, runs.run(c), Some(turn.place));
            }
            rows.least_pair(table, charges, d, runs.run(c), Some(turn.place))
        }
        Own::Full => least_of_none(table, charges),
    }
}

/// The least slack of a new slab over all sets with something in them.
pub(crate) fn least_new(rows: &Rows, runs: &Runs, table: &mut [i64], charges: &[i64]) -> Option<i64>
    requires shaped { IsShaped rows.now }
    requires safe { AreRunsSafe rows.now.present.items runs.now }
    requires some { 0 < length table.old }
    requires few { length table.old ≤ rows.now.width }
    requires reach { length table.old ≤ length charges.now }
    requires charges { AreSmallAll charges.now }
    ensures is { (rest : List Order) → (prices : List ℤ) → (name : ℕ → ℕ) → (charge : ℕ → ℕ) →
        (largest : ℕ) → AreRows rest prices name rows.now →
        AreRuns rest prices name rows.now.present.items runs.now →
        IsRoom largest 0 (length table.old) →
        AreCharged charge 0 (length table.old) charges.now →
        result ≡ least_new (two_colours largest) charge rest prices }
{
    let mut least = i64::MAX;
    for t in 0..rows.present.len() {
        let c = rows.present[t];
        rows.put_beside(table, c, runs.run(c), None);
        least = least.min(least_above(charges, table));
    }
    let far = -(NOTHING / 2);
    if far < least { None } else { Some(least) }
}
