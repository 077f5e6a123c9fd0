// The store: each live key once, with the place of its best entry, and the entries in the order of
// noting, each with the number of its key.

ghost use Rattle.std.specs.Prelude.{◌≡◌, ◌≢◌, ◌<◌, ◌≤◌, ◌++◌, ◌∷◌, [], length, option_copied};
ghost use Rattle.std.specs.Prelude.{IfSome};
ghost use Rattle.nogood_store.specs.Entries.{Stored, found, path_of};
ghost use Rattle.nogood_store.specs.Places.{entry_at};
ghost use Rattle.nogood_store.specs.declared.store.Entry.{Entry};
ghost use Rattle.nogood_store.specs.declared.store.Noted.TheVariants.{Full, Kept, OutOfMemory};

use indexmap::IndexMap;
use mill_model::Path;
use split_tree::LiveKey;
use std::alloc::Global;
use std::marker::Model;

/// A path that was split, with its live key and its dead loss.
#[derive(Debug, Drop)]
pub struct Entry {
    pub key: LiveKey,
    pub dead: u64,
    pub path: Path,
}

/// What became of a path that was to be noted.
#[derive(Clone, Copy, Debug, Drop, PartialEq, Eq)]
pub enum Noted {
    Kept,
    /// The store has no room for one more.
    Full,
    OutOfMemory,
}

// An entry whose live key stands among the store's.
#[derive(Debug, Drop)]
struct Numbered {
    key: usize,
    dead: u64,
    path: Path,
}

/// Noted paths in the order of noting, as many as there is room for.
#[derive(Debug, Drop)]
pub struct Store {
    entries: Vec<Numbered>,
    // Of each key the place of the entry with the least dead loss.
    places: IndexMap<LiveKey, usize>,
    room: u32,
}

impl Model for Store {
    ghost use Rattle.indexmap.specs.IndexMap.{get, keys};
    ghost use Rattle.nogood_store.specs.Entries.{Stored};
    ghost use Rattle.nogood_store.specs.Places.{AreNumbered, HasBest, entries_of};
    ghost use Rattle.split_tree.specs.Keys.{same_key};

    ghost Value = { Stored };

    ghost view = { λ s. record {
      entries = entries_of (keys s.places) s.entries.items;
      room = s.room;
    } };

    ghost invariant = { λ s. AreNumbered (keys s.places) s.entries.items ×
        HasBest (get same_key s.places) (entries_of (keys s.places) s.entries.items) };
}

impl Store {
    /// An empty store with room for so many entries. It takes no memory.
    pub fn new(alloc: Global, room: u32) -> Store
        ensures { result ≡ record { entries = []; room = room } }
    {
        Store {
            entries: Vec::new(alloc),
            places: IndexMap::new(alloc),
            room,
        }
    }

    /// Among the entries with this key and a dead loss at most `dead`, the path of the one with the
    /// least dead loss, of equal ones the first.
    pub fn find(&self, key: &LiveKey, dead: u64) -> Option<&Path>
        ensures { option_copied result ≡ path_of (found self.now.entries key.now dead) }
    {
        let place = self.place(key, dead)?;
        Some(&self.entries[place].path)
    }

    /// Notes a path with its live key and its dead loss. Where it isn't kept, nothing changes.
    pub fn note(&mut self, key: LiveKey, dead: u64, path: Path) -> Noted
        ensures kept { result ≡ Kept → self.new ≡ record {
          entries = self.old.entries
              ++ record { key = key; dead = dead; path = path } ∷ [];
          room = self.old.room;
        } }
        ensures full { result ≡ Full → self.old.room ≤ length self.old.entries }
        ensures room { result ≢ Full → length self.old.entries < self.old.room }
        ensures unchanged { result ≢ Kept → self.new ≡ self.old }
    {
        let last = self.entries.len();
        if last >= self.room as usize {
            return Noted::Full;
        }
        if self.entries.reserve(1).is_err() {
            return Noted::OutOfMemory;
        }
        let best = self.place(&key, dead).unwrap_or(last);
        let Ok((key, _)) = self.places.insert_full(key, best) else {
            return Noted::OutOfMemory;
        };
        self.entries.push_reserved(Numbered { key, dead, path });
        Noted::Kept
    }

    // The place of the entry that is found for this key and this dead loss.
    fn place(&self, key: &LiveKey, dead: u64) -> Option<usize>
        ensures found { entry_at self.now.entries result ≡ found self.now.entries key.now dead }
        ensures within { IfSome result (λ place. place < length self.now.entries) }
    {
        let place = *self.places.get(key)?;
        if self.entries[place].dead <= dead {
            Some(place)
        } else {
            None
        }
    }
}
