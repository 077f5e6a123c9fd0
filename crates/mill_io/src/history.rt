ghost use Rattle.std.specs.Prelude.{◌≡◌, ℕ, List, [], ◌++◌};
ghost use Rattle.std.specs.Borrow.{ftrue};

use std::marker::{Model, PhantomData};

// The bytes that passed through a stream so far. Clauses read it; it takes no memory, and its calls
// do nothing when they run. They are this crate's own, so no other code can note a byte.
#[derive(Drop)]
pub(crate) struct History {
    marker: PhantomData<u8>,
    pub ghost bytes: { List ℕ },
}

impl Model for History {
    ghost also_owns = { λ _. ftrue };
}

impl History {
    // Nothing has passed.
    pub(crate) fn new() -> History
        ensures { result.bytes ≡ [] }
    {
        History {
            marker: PhantomData,
        }
    }

    // A piece has passed, behind all that passed before.
    pub(crate) fn note(&mut self, _piece: &[u8])
        ensures { self.new.bytes ≡ self.old.bytes ++ _piece.now }
    {}
}
