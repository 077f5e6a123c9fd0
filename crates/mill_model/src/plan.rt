//! A plan, by the slab of each order, and its canonical form.
ghost use Rattle.std.specs.Prelude.{◌≡◌, ◌<◌, ◌++◌, ◌∷◌, [], ℕ, List, All, IfOk, length};
ghost use Rattle.mill_model.specs.Numbering.{IsNumbering};
ghost use Rattle.list_laws.specs.Sets.{different};
ghost use Rattle.mill_model.specs.Tree.{before_first_of, canonical};

use crate::OutOfMemory;
use std::alloc::Global;
use std::marker::Model;

/// A slab number for each order, in the file's order. Slabs are counted from 0.
#[derive(Debug, Drop)]
pub struct Plan {
    list: Vec<u16>,
}

impl Model for Plan {
    ghost use Rattle.std.specs.Prelude.{List, ℕ};

    ghost Value = { List ℕ };

    ghost view = { λ p. p.list.items };
}

impl Plan {
    /// The plan of these slab numbers.
    pub fn from_list(list: Vec<u16>) -> Plan
        ensures { result ≡ list.items }
    {
        Plan { list }
    }

    /// The slab of each order.
    pub fn slabs(&self) -> &[u16]
        ensures { result.now ≡ self.now }
    {
        &self.list
    }

    /// The same plan once more.
    pub fn copy(&self, alloc: Global) -> Result<Plan, OutOfMemory>
        ensures { IfOk result (λ plan. plan ≡ self.now) }
    {
        Ok(Plan {
            list: self.list.to_vec(alloc)?,
        })
    }

    /// The same slabs, numbered by first appearance.
    pub fn tidy(&self, alloc: Global) -> Result<Plan, OutOfMemory>
        requires { All (λ s. s < length self.now) self.now }
        ensures { IfOk result (λ plan. plan ≡ canonical self.now) }
    {
        let mut numbering = Numbering {
            numbers: vec![in alloc; None; self.list.len()]?,
            next: 0,
        };
        let mut list = Vec::with_capacity(alloc, self.list.len())?;
        for &slab in &self.list {
            list.push(numbering.number_of(slab))?;
        }
        Ok(Plan { list })
    }
}

/// A plan, and what it loses.
#[derive(Debug, Drop)]
pub struct Start {
    pub plan: Plan,
    pub loss: u64,
}

// The numbers that slabs took in the order of their first appearance.
#[derive(Drop)]
struct Numbering {
    numbers: Vec<Option<u16>>,
    next: u16,
}

impl Numbering {
    // The number of a slab: the one that it has, or the next new one, which it then has.
    fn number_of(&mut self, slab: u16) -> u16
        requires { slab < length self.old.numbers.items }
        ensures size { length self.new.numbers.items ≡ length self.old.numbers.items }
        ensures numbering { (seen : List ℕ) →
            IsNumbering seen self.old.numbers.items self.old.next →
            IsNumbering (seen ++ slab ∷ []) self.new.numbers.items self.new.next }
        ensures number { (seen : List ℕ) →
            IsNumbering seen self.old.numbers.items self.old.next →
            result ≡ different (before_first_of slab (seen ++ slab ∷ [])) }
    {
        if let Some(number) = self.numbers[slab as usize] {
            return number;
        }
        let number = self.next;
        self.numbers[slab as usize] = Some(number);
        self.next = number.saturating_add(1);
        number
    }
}
