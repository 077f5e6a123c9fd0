// Rows filled anew from the runs of the colours.

ghost use Rattle.std.specs.Prelude.{◌≡◌, ℕ, List, true, ℤ, ◌+◌, ◌-◌, ◌*◌, ◌^◌, ◌<◌, ◌≤◌, ◌⊎◌, ◌∷◌};
ghost use Rattle.std.specs.Prelude.{[], length, pos};
ghost use Rattle.std.specs.Prelude.{slice_index, map};
ghost use Rattle.list_laws.specs.Sets.{holds};
ghost use Rattle.mill_model.specs.declared.order.Order.{Order};
ghost use Rattle.set_minima.specs.Packs.{IsTable, colour_at};
ghost use Rattle.colour_tables.specs.Entries.{entry};
ghost use Rattle.set_minima.specs.Cells.{found, AreNear};
ghost use Rattle.colour_tables.specs.Threes.{row_entry, column, insert, once, AreWithin, AreTops};
ghost use Rattle.colour_tables.specs.Items.{IsRun, AreSmall};
ghost use Rattle.colour_tables.specs.Colours.{of_colour};
ghost use Rattle.colour_tables.specs.Owned.{AreRuns, AreRunsSafe};
ghost use Rattle.colour_tables.specs.Rowed.{IsSized, IsShaped, AreRows};
ghost use Rattle.set_minima.specs.Joins.{AreOrders};
ghost use Rattle.colour_tables.specs.Entries.{row_limit};

use crate::colour_rows::{Rows, row_of};
use crate::items::Item;
use crate::slabs::Runs;
use crate::table::{clear, fill_run};
use crate::tops::raise_tops;

/// Fills the row of a colour from its run.
fn put_row(rows: &mut [i64], c: usize, width: usize, run: &[Item])
    requires inside { c * width + width ≤ length rows.old }
    requires wide { 0 < width }
    requires small { AreSmall run.now }
    ensures best { (rest : List Order) → (prices : List ℤ) → (x : ℕ) →
        IsRun rest prices x run.now →
        IsTable (of_colour rest x) (x ∷ []) 1 rest prices width
        (λ l. found (row_entry rows.new width l c)) }
    ensures other { (i : ℕ) → i < c * width ⊎ c * width + width ≤ i →
        entry rows.new i ≡ entry rows.old i }
    ensures near { AreNear row_limit rows.old → AreNear row_limit rows.new }
{
    let at = c * width;
    fill_run(&mut rows[at..at + width], run, None);
}

/// Fills the row of a colour, and moves it into the three greatest values.
fn add_row(
    rows: &mut [i64],
    c: usize,
    run: &[Item],
    best: &mut [i64],
    second: &mut [i64],
    third: &mut [i64],
)
    requires inside { c * length best.old + length best.old ≤ length rows.old }
    requires wide { 0 < length best.old }
    requires second { length second.old ≡ length best.old }
    requires third { length third.old ≡ length best.old }
    requires small { AreSmall run.now }
    ensures best { (rest : List Order) → (prices : List ℤ) → (x : ℕ) →
        IsRun rest prices x run.now →
        IsTable (of_colour rest x) (x ∷ []) 1 rest prices (length best.old)
        (λ l. found (row_entry rows.new (length best.old) l c)) }
    ensures other { (i : ℕ) → i < c * length best.old ⊎ c * length best.old + length best.old ≤ i →
        entry rows.new i ≡ entry rows.old i }
    ensures near { AreNear row_limit rows.old → AreNear row_limit rows.new }
    ensures raised { (l : ℕ) → 0 < l → l < length best.old →
        column best.new second.new third.new l ≡
        insert (row_entry rows.new (length best.old) l c)
        (column best.old second.old third.old l) }
    ensures first { entry best.new 0 ≡ entry best.old 0 }
{
    put_row(rows, c, best.len(), run);
    let row = row_of(rows, c, best.len());
    raise_tops(best, second, third, row);
}

/// Fills the rows of some colours, and the three greatest of their values by load.
pub(crate) fn fill_all(
    rows: &mut [i64],
    present: &[usize],
    runs: &Runs,
    best: &mut [i64],
    second: &mut [i64],
    third: &mut [i64],
)
    requires within { AreWithin (length best.old) (length rows.old) present.now }
    requires wide { 0 < length best.old }
    requires second { length second.old ≡ length best.old }
    requires third { length third.old ≡ length best.old }
    requires safe { AreRunsSafe present.now runs.now }
    requires once { once present.now ≡ true }
    requires near { AreNear row_limit rows.old }
    ensures rows { (rest : List Order) → (prices : List ℤ) → (name : ℕ → ℕ) →
        AreRuns rest prices name present.now runs.now → (c : ℕ) →
        holds c present.now ≡ true →
        IsTable (of_colour rest (name c)) (name c ∷ []) 1 rest prices (length best.old)
        (λ l. found (row_entry rows.new (length best.old) l c)) }
    ensures tops { AreTops (length best.old) present.now rows.new best.new second.new third.new }
    ensures first { entry best.new 0 ≡ pos 0 }
    ensures near { AreNear row_limit rows.new }
{
    clear(best);
    clear(second);
    clear(third);
    for t in 0..present.len() {
        let c = present[t];
        add_row(rows, c, runs.run(c), best, second, third);
    }
}

impl Rows {
    /// Fills the rows from the runs of the colours.
    pub(crate) fn fill(&mut self, runs: &Runs)
        requires sized { IsSized self.old }
        requires safe { AreRunsSafe self.old.present.items runs.now }
        requires once { once self.old.present.items ≡ true }
        ensures shaped { IsShaped self.new }
        ensures present { self.new.present.items ≡ self.old.present.items }
        ensures width { self.new.width ≡ self.old.width }
        ensures is { (rest : List Order) → (prices : List ℤ) → (name : ℕ → ℕ) →
            AreOrders rest → length prices ≡ length rest →
            once (map name self.old.present.items) ≡ true →
            ((i : ℕ) → i < length rest →
            holds (colour_at rest i) (map name self.old.present.items) ≡ true) →
            AreRuns rest prices name self.old.present.items runs.now →
            AreRows rest prices name self.new }
    {
        fill_all(
            &mut self.rows,
            &self.present,
            runs,
            &mut self.best,
            &mut self.second,
            &mut self.third,
        );
    }
}
