ghost use Rattle.std.specs.Prelude.{◌≡◌, ◌<◌, ◌≤◌, All, length, slice_index};
ghost use Rattle.mill_model.specs.Charges.{charge_of};
ghost use Rattle.mill_model.specs.declared.charges.TheConstants.{MAX_CHARGE};

use std::marker::Model;

/// The greatest charge of a slab.
pub const MAX_CHARGE: u64 = 100_000_000;

/// What a slab of each load is charged, for the loads from 0 to the largest size.
///
/// Any table with nothing for load 0 serves; the problem's own charge is the steel left over.
#[derive(Debug, Drop)]
pub struct Charges {
    table: Vec<u64>,
    ghost free: { slice_index table.items 0 ≡ 0 },
    ghost limit: { All (λ charge. charge ≤ MAX_CHARGE) table.items },
}

impl Model for Charges {
    ghost use Rattle.mill_model.specs.Charges.{ChargeTable};

    ghost Value = { ChargeTable };

    ghost view = { λ c. record { list = c.table.items; free = c.free; limit = c.limit } };
}

impl Charges {
    /// The charges of the loads from 0 on.
    pub fn from_list(table: Vec<u64>) -> Charges
        requires free { slice_index table.items 0 ≡ 0 }
        requires limit { All (λ charge. charge ≤ MAX_CHARGE) table.items }
        ensures { result.list ≡ table.items }
    {
        Charges { table }
    }

    /// The charge of a slab of this load.
    pub fn charge(&self, load: u32) -> u64
        requires { load < length self.now.list }
        ensures is { result ≡ charge_of self.now load }
        ensures limit { result ≤ MAX_CHARGE }
    {
        self.table[load as usize]
    }
}
