// The rows of the colours to come, and the tables that are made of them.

ghost use Rattle.std.specs.Prelude.{◌≡◌, ℕ, List, Bool, true, ℤ, ◌+◌, ◌-◌, ◌*◌, ◌^◌, ◌<◌, ◌≤◌, ◌∷◌};
ghost use Rattle.std.specs.Prelude.{[], length, map, eqb, false, set, IfSome};
ghost use Rattle.std.specs.Prelude.{slice_index_or};
ghost use Rattle.list_laws.specs.Sets.{holds, different};
ghost use Rattle.mill_model.specs.declared.order.Order.{Order};
ghost use Rattle.set_minima.specs.Packs.{IsTable, colour_at, nobody};
ghost use Rattle.set_minima.specs.Joins.{all_but};
ghost use Rattle.colour_tables.specs.Leasts.{IsLeast, IsRoom};
ghost use Rattle.set_minima.specs.Cells.{cell, AreNear, IsSmall};
ghost use Rattle.colour_tables.specs.Entries.{entry};
ghost use Rattle.colour_tables.specs.Entries.{AreSmallAll};
ghost use Rattle.colour_tables.specs.Leasts.{AreCharged};
ghost use Rattle.colour_tables.specs.Threes.{but, row_entry, once};
ghost use Rattle.colour_tables.specs.Items.{IsRun, AreSmall};
ghost use Rattle.colour_tables.specs.Colours.{of_colours, but_order, but_for};
ghost use Rattle.colour_tables.specs.Rowed.{IsShaped, AreRows, apart_from};
ghost use Rattle.mill_model.specs.declared.prices.TheConstants.{MAX_PRICE};
ghost use Rattle.mill_model.specs.Limits.{all_prices};
ghost use Rattle.colour_tables.specs.Entries.{row_limit};
ghost use Rattle.colour_tables.specs.Entries.{table_limit};

use crate::gain::least;
use crate::items::Item;
use crate::table::{add, add_run};
use crate::tops::{others, others_of_two, others_or, replace};

/// One table after another, one for each colour to come, of the sets of that colour alone; and by
/// load the three greatest of their values.
#[derive(Drop)]
pub(crate) struct Rows {
    pub(crate) width: usize,
    pub(crate) present: Vec<usize>,
    pub(crate) rows: Vec<i64>,
    pub(crate) best: Vec<i64>,
    pub(crate) second: Vec<i64>,
    pub(crate) third: Vec<i64>,
}

/// One of the rows of a flat list.
pub(crate) fn row_of(rows: &[i64], c: usize, width: usize) -> &[i64]
    requires inside { c * width + width ≤ length rows.now }
    ensures long { length result.now ≡ width }
    ensures is { (l : ℕ) → l < width → entry result.now l ≡ row_entry rows.now width l c }
    ensures near { (n : ℕ) → AreNear n rows.now → AreNear n result.now }
{
    let at = c * width;
    &rows[at..at + width]
}

impl Rows {
    /// The row of a colour.
    pub(crate) fn row(&self, c: usize) -> &[i64]
        requires shaped { IsShaped self.now }
        requires held { holds c self.now.present.items ≡ true }
        ensures long { length result.now ≡ self.now.width }
        ensures is { (l : ℕ) → l < self.now.width → entry result.now l
            ≡ row_entry self.now.rows.items self.now.width l c }
        ensures near { AreNear row_limit result.now }
    {
        row_of(&self.rows, c, self.width)
    }

    /// The table of the sets of at most one colour other than c.
    fn put_others(&self, table: &mut [i64], c: usize)
        requires shaped { IsShaped self.now }
        requires held { holds c self.now.present.items ≡ true }
        requires some { 0 < length table.old }
        requires few { length table.old ≤ self.now.width }
        ensures is { (rest : List Order) → (prices : List ℤ) → (name : ℕ → ℕ) →
            AreRows rest prices name self.now →
            IsTable (of_colours rest (map name (but c self.now.present.items))) [] 1 rest prices
            (length table.old) (cell table.new) }
        ensures near { AreNear row_limit table.new }
    {
        others(table, &self.best, &self.second, self.row(c));
    }

    /// The table of the sets of at most one colour other than c, or of c and at most one other, but
    /// for one order of c.
    pub(crate) fn put_beside(&self, table: &mut [i64], c: usize, run: &[Item], skip: Option<usize>)
        requires shaped { IsShaped self.now }
        requires held { holds c self.now.present.items ≡ true }
        requires some { 0 < length table.old }
        requires few { length table.old ≤ self.now.width }
        requires small { AreSmall run.now }
        ensures is { (rest : List Order) → (prices : List ℤ) → (name : ℕ → ℕ) →
            AreRows rest prices name self.now → IsRun rest prices (name c) run.now →
            IfSome skip (λ j. colour_at rest j ≡ name c) →
            IsTable (but_for skip) (name c ∷ []) 2 rest prices (length table.old)
            (cell table.new) }
        ensures near { AreNear table_limit table.new }
    {
        self.put_others(table, c);
        add_run(table, run, skip);
    }

    /// The table of the sets of at most one colour other than c and d, or of c alone as in a table.
    fn put_others_of_two(&self, table: &mut [i64], c: usize, d: usize, alone: &[i64])
        requires shaped { IsShaped self.now }
        requires held { holds c self.now.present.items ≡ true }
        requires other { holds d (but c self.now.present.items) ≡ true }
        requires some { 0 < length table.old }
        requires few { length table.old ≤ self.now.width }
        requires long { length table.old ≤ length alone.now }
        requires alone { AreNear row_limit alone.now }
        ensures is { (rest : List Order) → (prices : List ℤ) → (name : ℕ → ℕ) → (j : ℕ) →
            AreRows rest prices name self.now →
            IsTable (but_order rest (name c) j) (name c ∷ []) 1 rest prices (length table.old)
            (cell alone.now) →
            IsTable (apart_from rest (map name (but d (but c self.now.present.items))) (name c) j)
            [] 1 rest prices (length table.old) (cell table.new) }
        ensures near { AreNear row_limit table.new }
    {
        others_of_two(
            table,
            &self.best,
            &self.second,
            &self.third,
            self.row(c),
            self.row(d),
            alone,
        );
    }

    /// The table of the sets of d and at most one other colour, where c is as in a table.
    pub(crate) fn put_apart(
        &self,
        table: &mut [i64],
        c: usize,
        d: usize,
        alone: &[i64],
        run: &[Item],
    )
        requires shaped { IsShaped self.now }
        requires held { holds c self.now.present.items ≡ true }
        requires other { holds d (but c self.now.present.items) ≡ true }
        requires some { 0 < length table.old }
        requires few { length table.old ≤ self.now.width }
        requires long { length table.old ≤ length alone.now }
        requires alone { AreNear row_limit alone.now }
        requires small { AreSmall run.now }
        ensures is { (rest : List Order) → (prices : List ℤ) → (name : ℕ → ℕ) → (j : ℕ) →
            AreRows rest prices name self.now → IsRun rest prices (name d) run.now →
            j < length rest → colour_at rest j ≡ name c →
            IsTable (but_order rest (name c) j) (name c ∷ []) 1 rest prices (length table.old)
            (cell alone.now) →
            IsTable (all_but j) (name d ∷ []) 2 rest prices (length table.old) (cell table.new) }
        ensures near { AreNear table_limit table.new }
    {
        self.put_others_of_two(table, c, d, alone);
        add_run(table, run, None);
    }

    /// The table of the sets of at most one colour, where c is as in a table.
    pub(crate) fn put_bare(&self, table: &mut [i64], c: usize, alone: &[i64])
        requires shaped { IsShaped self.now }
        requires held { holds c self.now.present.items ≡ true }
        requires some { 0 < length table.old }
        requires few { length table.old ≤ self.now.width }
        requires long { length table.old ≤ length alone.now }
        requires alone { AreNear row_limit alone.now }
        ensures is { (rest : List Order) → (prices : List ℤ) → (name : ℕ → ℕ) → (j : ℕ) →
            AreRows rest prices name self.now → colour_at rest j ≡ name c →
            IsTable (but_order rest (name c) j) (name c ∷ []) 1 rest prices (length table.old)
            (cell alone.now) →
            IsTable (all_but j) [] 1 rest prices (length table.old) (cell table.new) }
        ensures near { AreNear row_limit table.new }
    {
        others_or(table, &self.best, &self.second, self.row(c), alone);
    }

    /// The table of the sets of c and d, but for one order of c.
    pub(crate) fn put_pair(&self, table: &mut [i64], d: usize, run: &[Item], skip: Option<usize>)
        requires shaped { IsShaped self.now }
        requires held { holds d self.now.present.items ≡ true }
        requires few { length table.old ≤ self.now.width }
        requires small { AreSmall run.now }
        ensures is { (rest : List Order) → (prices : List ℤ) → (name : ℕ → ℕ) → (c : ℕ) →
            (own : List ℕ) → AreRows rest prices name self.now →
            IsRun rest prices (name c) run.now →
            holds c (but d self.now.present.items) ≡ true →
            IfSome skip (λ j. colour_at rest j ≡ name c) → different own ≡ 2 →
            holds (name c) own ≡ true → holds (name d) own ≡ true →
            IsTable (but_for skip) own 2 rest prices (length table.old) (cell table.new) }
        ensures near { AreNear table_limit table.new }
    {
        let n = table.len();
        table.copy_from_slice(&self.row(d)[..n]);
        add_run(table, run, skip);
    }

    /// The least of the sets of c and at most one other colour, but for one order of c.
    pub(crate) fn least_beside(
        &self,
        table: &mut [i64],
        charges: &[i64],
        c: usize,
        run: &[Item],
        skip: Option<usize>,
    ) -> i64
        requires shaped { IsShaped self.now }
        requires held { holds c self.now.present.items ≡ true }
        requires some { 0 < length table.old }
        requires few { length table.old ≤ self.now.width }
        requires small { AreSmall run.now }
        requires reach { length table.old ≤ length charges.now }
        requires charges { AreSmallAll charges.now }
        ensures is { (rest : List Order) → (prices : List ℤ) → (name : ℕ → ℕ) →
            (charge : ℕ → ℕ) → (largest base : ℕ) → AreRows rest prices name self.now →
            IsRun rest prices (name c) run.now →
            IfSome skip (λ j. colour_at rest j ≡ name c) →
            IsRoom largest base (length table.old) →
            AreCharged charge base (length table.old) charges.now →
            IsLeast rest prices charge largest base (but_for skip) (name c ∷ []) result }
    {
        self.put_beside(table, c, run, skip);
        least(charges, table)
    }

    /// The least of the sets of d and at most one other colour, where c is as in a table.
    pub(crate) fn least_apart(
        &self,
        table: &mut [i64],
        charges: &[i64],
        c: usize,
        d: usize,
        alone: &[i64],
        run: &[Item],
    ) -> i64
        requires shaped { IsShaped self.now }
        requires held { holds c self.now.present.items ≡ true }
        requires other { holds d (but c self.now.present.items) ≡ true }
        requires some { 0 < length table.old }
        requires few { length table.old ≤ self.now.width }
        requires long { length table.old ≤ length alone.now }
        requires alone { AreNear row_limit alone.now }
        requires small { AreSmall run.now }
        requires reach { length table.old ≤ length charges.now }
        requires charges { AreSmallAll charges.now }
        ensures is { (rest : List Order) → (prices : List ℤ) → (name : ℕ → ℕ) →
            (charge : ℕ → ℕ) → (largest base j : ℕ) → AreRows rest prices name self.now →
            IsRun rest prices (name d) run.now → j < length rest →
            colour_at rest j ≡ name c →
            IsTable (but_order rest (name c) j) (name c ∷ []) 1 rest prices (length table.old)
            (cell alone.now) →
            IsRoom largest base (length table.old) →
            AreCharged charge base (length table.old) charges.now →
            IsLeast rest prices charge largest base (all_but j) (name d ∷ []) result }
    {
        self.put_apart(table, c, d, alone, run);
        least(charges, table)
    }

    /// The least of the sets of at most one colour, where c is as in a table, beside a colour that
    /// is not to come.
    pub(crate) fn least_bare(
        &self,
        table: &mut [i64],
        charges: &[i64],
        c: usize,
        alone: &[i64],
    ) -> i64
        requires shaped { IsShaped self.now }
        requires held { holds c self.now.present.items ≡ true }
        requires some { 0 < length table.old }
        requires few { length table.old ≤ self.now.width }
        requires long { length table.old ≤ length alone.now }
        requires alone { AreNear row_limit alone.now }
        requires reach { length table.old ≤ length charges.now }
        requires charges { AreSmallAll charges.now }
        ensures is { (rest : List Order) → (prices : List ℤ) → (name : ℕ → ℕ) →
            (charge : ℕ → ℕ) → (largest base j x : ℕ) → AreRows rest prices name self.now →
            colour_at rest j ≡ name c →
            ((i : ℕ) → i < length rest → eqb (colour_at rest i) x ≡ false) →
            IsTable (but_order rest (name c) j) (name c ∷ []) 1 rest prices (length table.old)
            (cell alone.now) →
            IsRoom largest base (length table.old) →
            AreCharged charge base (length table.old) charges.now →
            IsLeast rest prices charge largest base (all_but j) (x ∷ []) result }
    {
        self.put_bare(table, c, alone);
        least(charges, table)
    }

    /// The least of the sets of c and d, but for one order of c, where no other colour may join.
    pub(crate) fn least_pair(
        &self,
        table: &mut [i64],
        charges: &[i64],
        d: usize,
        run: &[Item],
        skip: Option<usize>,
    ) -> i64
        requires shaped { IsShaped self.now }
        requires held { holds d self.now.present.items ≡ true }
        requires few { length table.old ≤ self.now.width }
        requires small { AreSmall run.now }
        requires reach { length table.old ≤ length charges.now }
        requires charges { AreSmallAll charges.now }
        ensures is { (rest : List Order) → (prices : List ℤ) → (name : ℕ → ℕ) →
            (charge : ℕ → ℕ) → (largest base c : ℕ) → (own : List ℕ) →
            AreRows rest prices name self.now → IsRun rest prices (name c) run.now →
            holds c (but d self.now.present.items) ≡ true →
            IfSome skip (λ j. colour_at rest j ≡ name c) → different own ≡ 2 →
            holds (name c) own ≡ true → holds (name d) own ≡ true →
            IsRoom largest base (length table.old) →
            AreCharged charge base (length table.old) charges.now →
            IsLeast rest prices charge largest base (but_for skip) own result }
    {
        self.put_pair(table, d, run, skip);
        least(charges, table)
    }

    /// Puts the price of an order into the row of its colour, and mends the three greatest values.
    /// The table, which is that of the colour without the order, becomes the row.
    pub(crate) fn set_price(&mut self, alone: &mut [i64], c: usize, weight: usize, price: i64)
        requires shaped { IsShaped self.old }
        requires held { holds c self.old.present.items ≡ true }
        requires once { once self.old.present.items ≡ true }
        requires long { length alone.old ≡ self.old.width }
        requires alone { AreNear all_prices alone.old }
        requires weight { 0 < weight }
        requires price { IsSmall MAX_PRICE price }
        ensures shaped { IsShaped self.new }
        ensures present { self.new.present.items ≡ self.old.present.items }
        ensures width { self.new.width ≡ self.old.width }
        ensures is { (rest : List Order) → (prices : List ℤ) → (name : ℕ → ℕ) → (j : ℕ) →
            AreRows rest prices name self.old → j < length rest → colour_at rest j ≡ name c →
            weight ≡ (slice_index_or rest j nobody).weight →
            IsTable (but_order rest (name c) j) (name c ∷ []) 1 rest prices self.old.width
            (cell alone.old) → AreRows rest (set prices j price) name self.new }
    {
        add(alone, weight, price);
        replace(
            &mut self.rows,
            c,
            alone,
            &self.present,
            &mut self.best,
            &mut self.second,
            &mut self.third,
        );
    }
}
