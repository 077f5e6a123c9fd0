//! A splitter: the tables that the split of two slabs works in, taken once for a mill.
ghost use Rattle.std.specs.Prelude.{◌≡◌, ◌+◌, ◌<◌, ◌≤◌, true, length, slice_index};
ghost use Rattle.std.specs.Prelude.{IfOk, IfSome, IfNone};
ghost use Rattle.mill_model.specs.Charges.{Reaches, charge_of};
ghost use Rattle.mill_model.specs.declared.order.TheConstants.{MAX_ORDERS};
ghost use Rattle.mill_model.specs.Pairs.{not_bettered};
ghost use Rattle.pair_split.specs.Splits.{grouped, IsCheapestSplit};

use crate::layout::Layout;
use crate::split::better_split_in;
use mill_model::{Charges, Order, OutOfMemory};
use std::alloc::Global;
use std::marker::Model;

/// Splits orders on two slabs of a mill. It holds the tables for it, so that a split takes no
/// memory.
#[derive(Debug, Drop)]
pub struct Splitter {
    layout: Layout,
    table: Vec<u64>,
    spare: Vec<u64>,
    loads: Vec<u64>,
}

impl Model for Splitter {
    ghost use Rattle.std.specs.Prelude.{◌≡◌, vec_len};
    ghost use Rattle.mill_model.specs.Slab.{Mill};
    ghost use Rattle.pair_split.specs.Tables.{mill_in, table_size};

    ghost Value = { Mill };

    ghost view = { λ s. mill_in s.layout };

    ghost invariant = { λ s. (vec_len s.table ≡ table_size s.layout)
        × (vec_len s.spare ≡ table_size s.layout) × (vec_len s.loads ≡ s.layout.words) };
}

impl Splitter {
    /// A splitter for the mill whose largest size is `largest` and whose slabs may carry `p`
    /// colours.
    pub fn new(alloc: Global, largest: u32, p: u8) -> Result<Splitter, OutOfMemory>
        requires sizes { largest ≤ 20000 }
        requires few { p ≤ 8 }
        ensures { IfOk result (λ s. s ≡ record { largest = largest; most_colours = p }) }
    {
        let words = largest as usize / 64 + 1;
        let size = 36 * (p as usize + 1) * words;
        Ok(Splitter {
            layout: Layout { largest, p, words },
            table: vec![in alloc; 0u64; size]?,
            spare: vec![in alloc; 0u64; size]?,
            loads: vec![in alloc; 0u64; words]?,
        })
    }

    /// The loss of the cheapest split of orders on at most two slabs, if it is below the bound.
    /// The marks then say which orders lie on the first slab; else they say nothing. The orders of
    /// each colour stand together. No memory is taken.
    pub fn better_split(
        &mut self,
        charges: &Charges,
        orders: &[Order],
        bound: u64,
        marks: &mut [bool],
    ) -> Option<u64>
        requires reach { Reaches charges.now self.old }
        requires few { length orders.now ≤ MAX_ORDERS }
        requires together { grouped orders.now ≡ true }
        requires marks { length marks.old ≡ length orders.now }
        ensures mill { self.new ≡ self.old }
        ensures none { IfNone result
            (not_bettered self.old
            (charge_of charges.now) bound orders.now ≡ true) }
        ensures split { IfSome result (λ loss.
            IsCheapestSplit self.old (charge_of charges.now) orders.now marks.new loss) }
        ensures less { IfSome result (λ loss. loss < bound) }
    {
        let layout = self.layout;
        better_split_in(
            &mut self.table,
            &mut self.spare,
            &mut self.loads,
            charges,
            orders,
            bound,
            marks,
            layout,
        )
    }
}
