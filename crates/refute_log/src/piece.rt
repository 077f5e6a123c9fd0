//! The records of one worker, and the run that workers leave.
ghost use Rattle.std.specs.Prelude.{◌≡◌, ◌-◌, ◌≤◌, ◌++◌, ◌∷◌, [], true, length, OnErr, OnOk};
ghost use Rattle.refute_log.specs.Fits.{fits};

use mill_model::{Entry, OutOfMemory, Path, Plan};
use std::alloc::Global;
use std::marker::Model;

/// Records of closed paths in the order of closing, for a number of orders.
#[derive(Debug, Drop)]
pub struct Piece {
    orders: u16,
    entries: Vec<Entry>,
}

impl Model for Piece {
    ghost use Rattle.std.specs.Prelude.{◌≡◌, ◌-◌, vec_capacity, vec_len, All, true};
    ghost use Rattle.refute_log.specs.Fits.{fits};
    ghost use Rattle.refute_log.specs.Pieces.{Pieced};

    ghost Value = { Pieced };

    ghost view = { λ p. record {
      orders = p.orders;
      entries = p.entries.items;
      spare = vec_capacity p.entries - vec_len p.entries;
    } };

    ghost invariant = { λ p. All (λ entry. fits p.orders entry ≡ true) p.entries.items };
}

impl Piece {
    /// No record. It takes no memory.
    pub fn new(alloc: Global, orders: u16) -> Piece
        ensures entries { result.entries ≡ [] }
        ensures orders { result.orders ≡ orders }
    {
        Piece {
            orders,
            entries: Vec::new(alloc),
        }
    }

    /// Makes room for one more record.
    pub fn reserve(&mut self) -> Result<(), OutOfMemory>
        ensures spare { OnOk result (1 ≤ self.new.spare) }
        ensures entries { self.new.entries ≡ self.old.entries }
        ensures orders { self.new.orders ≡ self.old.orders }
        ensures unchanged { OnErr result (self.new ≡ self.old) }
    {
        self.entries.reserve(1)?;
        Ok(())
    }

    /// Appends a record, and takes no memory.
    pub fn put(&mut self, entry: Entry)
        requires spare { 1 ≤ self.old.spare }
        requires fits { fits self.old.orders entry ≡ true }
        ensures entries { self.new.entries ≡ self.old.entries ++ entry ∷ [] }
        ensures orders { self.new.orders ≡ self.old.orders }
        ensures spare { self.new.spare ≡ self.old.spare - 1 }
    {
        self.entries.push_reserved(entry);
    }

    /// The records, in the order of closing.
    pub fn entries(&self) -> &[Entry]
        ensures { result.now ≡ self.now.entries }
    {
        &self.entries
    }

    /// The records themselves, in the order of closing. It takes no memory.
    pub fn into_entries(self) -> Vec<Entry>
        ensures { result.items ≡ self.entries }
    {
        self.entries
    }
}

/// What a run leaves: the records by worker, the paths that it didn't close, the best plan with its
/// loss, and how many tickets were drawn, spent ones included.
#[derive(Debug, Drop)]
pub struct Run {
    pub pieces: Vec<Piece>,
    pub unclosed: Vec<Path>,
    pub plan: Plan,
    pub loss: u64,
    pub drawn: u64,
}
