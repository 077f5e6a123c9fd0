//! A node of the tree of plans, by the path that leads to it.
ghost use Rattle.std.specs.Prelude.{◌≡◌, [], ◌∷◌, ◌++◌, IfOk};

use crate::OutOfMemory;
use std::alloc::Global;
use std::marker::Model;

/// Group numbers for the first orders in rank, counted from 0: a node of the tree of plans.
#[derive(Debug, Drop)]
pub struct Path {
    list: Vec<u16>,
}

impl Model for Path {
    ghost use Rattle.std.specs.Prelude.{List, ℕ};

    ghost Value = { List ℕ };

    ghost view = { λ p. p.list.items };
}

impl Path {
    /// The empty path. It takes no memory.
    pub fn root(alloc: Global) -> Path
        ensures { result ≡ [] }
    {
        Path {
            list: Vec::new(alloc),
        }
    }

    /// The path of these group numbers.
    pub fn from_list(list: Vec<u16>) -> Path
        ensures { result ≡ list.items }
    {
        Path { list }
    }

    /// The group numbers.
    pub fn numbers(&self) -> &[u16]
        ensures { result.now ≡ self.now }
    {
        &self.list
    }

    /// The path that goes on with one more group number.
    pub fn child(&self, group: u16) -> Result<Path, OutOfMemory>
        ensures { IfOk result (λ path. path ≡ self.now ++ group ∷ []) }
    {
        let mut list = Vec::with_capacity(*self.list.allocator(), self.list.len() + 1)?;
        list.extend_from_slice(&self.list)?;
        list.push(group)?;
        Ok(Path { list })
    }

    /// The same path once more.
    pub fn copy(&self) -> Result<Path, OutOfMemory>
        ensures { IfOk result (λ path. path ≡ self.now) }
    {
        Ok(Path {
            list: self.list.to_vec(*self.list.allocator())?,
        })
    }
}
