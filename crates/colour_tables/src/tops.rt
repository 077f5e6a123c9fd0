// The three greatest values of the colours' rows by load, and the greatest but for one or two rows.

ghost use Rattle.std.specs.Prelude.{◌≡◌, ℕ, ℤ, ◌<◌, ◌≤◌, ◌+◌, ◌*◌, length, pos, set, ◌≢◌, true};
ghost use Rattle.std.specs.Prelude.{◌⊎◌};
ghost use Rattle.std.specs.Int.{int_max, int_min};
ghost use Rattle.list_laws.specs.Sets.{holds};
ghost use Rattle.colour_tables.specs.Entries.{entry};
ghost use Rattle.set_minima.specs.Cells.{AreNear, nothing};
ghost use Rattle.colour_tables.specs.Threes.{IsButOne, IsButTwo, IsLeft, insert, column};
ghost use Rattle.colour_tables.specs.declared.tops.Three.{Three};
ghost use Rattle.colour_tables.specs.Threes.{three};
ghost use Rattle.colour_tables.specs.Threes.{row_entry, once, AreWithin, AreTops, IsSorted};

use crate::table::NOTHING;

/// Three numbers, the greatest first.
#[derive(Clone, Copy, Debug, Drop)]
pub(crate) struct Three {
    pub(crate) best: i64,
    pub(crate) second: i64,
    pub(crate) third: i64,
}

/// A load of a row.
#[derive(Clone, Copy, Debug, Drop)]
pub(crate) struct RowPlace {
    pub(crate) row: usize,
    pub(crate) load: usize,
}

impl Three {
    /// With one more number, and without the least.
    fn inserted(self, x: i64) -> Three
        ensures { result ≡ insert x self }
    {
        let out = self.best.min(x);
        Three {
            best: self.best.max(x),
            second: self.second.max(out),
            third: self.third.max(self.second.min(out)),
        }
    }
}

/// Moves a row into the three greatest values at each load but 0.
pub(crate) fn raise_tops(best: &mut [i64], second: &mut [i64], third: &mut [i64], row: &[i64])
    requires second { length second.old ≡ length best.old }
    requires third { length third.old ≡ length best.old }
    requires row { length row.now ≡ length best.old }
    ensures raised { (l : ℕ) → 0 < l → l < length best.old →
        column best.new second.new third.new l ≡
        insert (entry row.now l) (column best.old second.old third.old l) }
    ensures first { entry best.new 0 ≡ entry best.old 0 }
{
    for l in 1..best.len() {
        let old = Three {
            best: best[l],
            second: second[l],
            third: third[l],
        };
        let tops = old.inserted(row[l]);
        best[l] = tops.best;
        second[l] = tops.second;
        third[l] = tops.third;
    }
}

/// The greatest but for one of the values.
fn but_one(x: i64, best: i64, second: i64) -> i64
    ensures { IsButOne x best second result }
{
    if x == best { second } else { best }
}

/// The greatest but for two of the values.
fn but_two(x: i64, y: i64, best: i64, second: i64, third: i64) -> i64
    ensures { IsButTwo x y best second third result }
{
    let high = x.max(y);
    let low = x.min(y);
    if high < best {
        best
    } else if low < second {
        second
    } else {
        third
    }
}

/// The greatest values but for those of one row; nothing for no load.
pub(crate) fn others(to: &mut [i64], best: &[i64], second: &[i64], row: &[i64])
    requires best { length to.old ≤ length best.now }
    requires second { length to.old ≤ length second.now }
    requires row { length to.old ≤ length row.now }
    requires some { 0 < length to.old }
    ensures other { (l : ℕ) → 0 < l → l < length to.old →
        IsButOne (entry row.now l) (entry best.now l) (entry second.now l) (entry to.new l) }
    ensures first { entry to.new 0 ≡ pos 0 }
{
    for l in 0..to.len() {
        to[l] = but_one(row[l], best[l], second[l]);
    }
    to[0] = 0;
}

/// The greatest values but for those of two rows, and those of a table; nothing for no load.
pub(crate) fn others_of_two(
    to: &mut [i64],
    best: &[i64],
    second: &[i64],
    third: &[i64],
    x: &[i64],
    y: &[i64],
    z: &[i64],
)
    requires best { length to.old ≤ length best.now }
    requires second { length to.old ≤ length second.now }
    requires third { length to.old ≤ length third.now }
    requires x { length to.old ≤ length x.now }
    requires y { length to.old ≤ length y.now }
    requires z { length to.old ≤ length z.now }
    requires some { 0 < length to.old }
    ensures other { (l : ℕ) → 0 < l → l < length to.old → (w : ℤ)
        × IsButTwo (entry x.now l) (entry y.now l) (entry best.now l) (entry second.now l)
        (entry third.now l) w × (entry to.new l ≡ int_max w (entry z.now l)) }
    ensures first { entry to.new 0 ≡ pos 0 }
{
    for l in 0..to.len() {
        to[l] = but_two(x[l], y[l], best[l], second[l], third[l]).max(z[l]);
    }
    to[0] = 0;
}

/// The greatest values but for those of one row, and those of a table; nothing for no load.
pub(crate) fn others_or(to: &mut [i64], best: &[i64], second: &[i64], x: &[i64], z: &[i64])
    requires best { length to.old ≤ length best.now }
    requires second { length to.old ≤ length second.now }
    requires x { length to.old ≤ length x.now }
    requires z { length to.old ≤ length z.now }
    requires some { 0 < length to.old }
    ensures other { (l : ℕ) → 0 < l → l < length to.old → (w : ℤ)
        × IsButOne (entry x.now l) (entry best.now l) (entry second.now l) w
        × (entry to.new l ≡ int_max w (entry z.now l)) }
    ensures first { entry to.new 0 ≡ pos 0 }
{
    for l in 0..to.len() {
        to[l] = but_one(x[l], best[l], second[l]).max(z[l]);
    }
    to[0] = 0;
}

/// Looks through all rows for the three greatest values at a load.
fn look(rows: &[i64], width: usize, present: &[usize], load: usize) -> Three
    requires rows { AreWithin width (length rows.now) present.now }
    requires load { load < width }
    ensures { result ≡ three (row_entry rows.now width load) present.now }
{
    let mut tops = Three {
        best: NOTHING,
        second: NOTHING,
        third: NOTHING,
    };
    for i in 0..present.len() {
        tops = tops.inserted(rows[present[i] * width + load]);
    }
    tops
}

/// The two greatest that are left without an old value that is no third of them.
fn left(old: i64, tops: Three) -> (i64, i64)
    ensures { IsLeft old tops.best tops.second tops.third result.0 result.1 }
{
    if old == tops.best {
        (tops.second, tops.third)
    } else if old == tops.second {
        (tops.best, tops.third)
    } else {
        (tops.best, tops.second)
    }
}

/// The three greatest at a load, once an old value has made way for a new one in the rows.
fn mended(
    rows: &[i64],
    width: usize,
    present: &[usize],
    load: usize,
    old: i64,
    value: i64,
    tops: Three,
) -> Three
    requires rows { AreWithin width (length rows.now) present.now }
    requires load { load < width }
    ensures is { (r : Three) → IsSorted r → tops ≡ insert old r →
        three (row_entry rows.now width load) present.now ≡ insert value r →
        result ≡ insert value r }
{
    if tops.third <= value {
        let (x, y) = left(old, tops);
        let out = x.min(value);
        Three {
            best: x.max(value),
            second: y.max(out),
            third: y.min(out),
        }
    } else if old < tops.third {
        tops
    } else {
        look(rows, width, present, load)
    }
}

/// Puts a value into a row at a load, and mends the three greatest there.
fn replace_at(
    rows: &mut [i64],
    at: RowPlace,
    new: &[i64],
    present: &[usize],
    best: &mut [i64],
    second: &mut [i64],
    third: &mut [i64],
)
    requires rows { AreWithin (length new.now) (length rows.old) present.now }
    requires here { at.row * length new.now + length new.now ≤ length rows.old }
    requires held { holds at.row present.now ≡ true }
    requires once { once present.now ≡ true }
    requires load { at.load < length new.now }
    requires best { length new.now ≤ length best.old }
    requires second { length new.now ≤ length second.old }
    requires third { length new.now ≤ length third.old }
    requires tops { column best.old second.old third.old at.load
        ≡ three (row_entry rows.old (length new.now) at.load) present.now }
    ensures rows { rows.new ≡ set rows.old (at.row * length new.now + at.load)
        (entry new.now at.load) }
    ensures tops { column best.new second.new third.new at.load
        ≡ three (row_entry rows.new (length new.now) at.load) present.now }
    ensures others { (k : ℕ) → k ≢ at.load → column best.new second.new third.new k
        ≡ column best.old second.old third.old k }
{
    let load = at.load;
    let here = at.row * new.len() + load;
    let old = rows[here];
    let value = new[load];
    if old != value {
        rows[here] = value;
        let before = Three {
            best: best[load],
            second: second[load],
            third: third[load],
        };
        let tops = mended(rows, new.len(), present, load, old, value, before);
        best[load] = tops.best;
        second[load] = tops.second;
        third[load] = tops.third;
    }
}

/// Puts a new row in the place of one, and mends the three greatest values.
pub(crate) fn replace(
    rows: &mut [i64],
    c: usize,
    new: &[i64],
    present: &[usize],
    best: &mut [i64],
    second: &mut [i64],
    third: &mut [i64],
)
    requires rows { AreWithin (length new.now) (length rows.old) present.now }
    requires here { c * length new.now + length new.now ≤ length rows.old }
    requires held { holds c present.now ≡ true }
    requires once { once present.now ≡ true }
    requires some { 0 < length new.now }
    requires best { length new.now ≤ length best.old }
    requires second { length new.now ≤ length second.old }
    requires third { length new.now ≤ length third.old }
    requires tops { AreTops (length new.now) present.now rows.old best.old second.old third.old }
    ensures row { (l : ℕ) → l < length new.now →
        entry rows.new (c * length new.now + l) ≡ entry new.now l }
    ensures other { (i : ℕ) → i < c * length new.now ⊎ c * length new.now + length new.now ≤ i →
        entry rows.new i ≡ entry rows.old i }
    ensures tops { AreTops (length new.now) present.now rows.new best.new second.new third.new }
    ensures first { entry best.new 0 ≡ entry best.old 0 }
{
    rows[c * new.len()] = new[0];
    for load in 1..new.len() {
        let at = RowPlace { row: c, load };
        replace_at(rows, at, new, present, best, second, third);
    }
}
