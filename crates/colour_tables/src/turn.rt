// An order in its turn.

ghost use Rattle.std.specs.Prelude.{◌≡◌, ◌+◌, length, IfOk};

use mill_model::OutOfMemory;
use std::alloc::Global;

/// An order in its turn: by load, the greatest value of the sets of its colour without it, and of
/// its colour and at most one other without it.
#[derive(Drop)]
pub(crate) struct Turn {
    pub(crate) place: usize,
    pub(crate) colour: usize,
    pub(crate) alone: Vec<i64>,
    pub(crate) beside: Vec<i64>,
}

/// The order in its turn, with its tables as they are read.
#[derive(Clone, Copy, Debug, Drop)]
pub(crate) struct TurnTables<'t> {
    pub(crate) place: usize,
    pub(crate) colour: usize,
    pub(crate) alone: &'t [i64],
    pub(crate) beside: &'t [i64],
}

impl Turn {
    /// The tables, to read them.
    pub(crate) fn tables(&self) -> TurnTables<'_>
        ensures place { result.place ≡ self.now.place }
        ensures colour { result.colour ≡ self.now.colour }
        ensures alone { result.alone.now ≡ self.now.alone.items }
        ensures beside { result.beside.now ≡ self.now.beside.items }
    {
        TurnTables {
            place: self.place,
            colour: self.colour,
            alone: &self.alone,
            beside: &self.beside,
        }
    }

    /// Room for the tables of one order after another, for a mill with this largest size.
    pub(crate) fn new(alloc: Global, largest: u32) -> Result<Turn, OutOfMemory>
        ensures alone { IfOk result (λ turn. length turn.alone.items ≡ largest + 1) }
        ensures beside { IfOk result (λ turn. length turn.beside.items ≡ largest + 1) }
    {
        let width = largest as usize + 1;
        Ok(Turn {
            place: 0,
            colour: 0,
            alone: vec![in alloc; 0; width]?,
            beside: vec![in alloc; 0; width]?,
        })
    }
}
