//! The cheapest split over tables that are handed in.
ghost use Rattle.std.specs.Prelude.{◌≡◌, ◌+◌, ◌<◌, ◌≤◌, true, length, slice_index};
ghost use Rattle.std.specs.Prelude.{IfSome, IfNone};
ghost use Rattle.mill_model.specs.Charges.{Reaches, charge_of};
ghost use Rattle.mill_model.specs.declared.order.TheConstants.{MAX_ORDERS};
ghost use Rattle.mill_model.specs.Pairs.{not_bettered};
ghost use Rattle.pair_split.specs.Splits.{grouped, IsCheapestSplit};
ghost use Rattle.pair_split.specs.Tables.{mill_in, table_size};

use crate::back::mark_split;
use crate::layout::Layout;
use crate::loads::{cheapest_load, gather_loads, state_with};
use crate::table::fill_table;
use mill_model::{Charges, Order};

/// The loss of the cheapest split, if it is below the bound; the marks then have the first slab.
pub fn better_split_in(
    table: &mut [u64],
    spare: &mut [u64],
    loads: &mut [u64],
    charges: &Charges,
    orders: &[Order],
    bound: u64,
    marks: &mut [bool],
    layout: Layout,
) -> Option<u64>
    requires size { length table.old ≡ table_size layout }
    requires spare { length spare.old ≡ table_size layout }
    requires loads { length loads.old ≡ layout.words }
    requires reach { Reaches charges.now (mill_in layout) }
    requires few { length orders.now ≤ MAX_ORDERS }
    requires together { grouped orders.now ≡ true }
    requires marks { length marks.old ≡ length orders.now }
    ensures none { IfNone result
        (not_bettered (mill_in layout)
        (charge_of charges.now) bound orders.now ≡ true) }
    ensures split { IfSome result (λ loss. IsCheapestSplit (mill_in layout)
        (charge_of charges.now) orders.now marks.new loss) }
    ensures less { IfSome result (λ loss. loss < bound) }
{
    fill_table(table, spare, orders, 0, layout);
    gather_loads(table, loads, layout);
    let Some((load, loss)) = cheapest_load(loads, charges, orders, layout) else {
        return None;
    };
    if bound <= loss {
        return None;
    }
    let target = state_with(table, load, layout);
    mark_split(table, spare, orders, marks, target, layout);
    Some(loss)
}
