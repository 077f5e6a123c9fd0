ghost use Rattle.std.specs.Prelude.{◌≡◌, ◌<◌, ◌↔◌, IfOk, IfSome, IsNone};
ghost use Rattle.mill_model.specs.Instance.{largest, size_for};
ghost use Rattle.loss_table.specs.Charges.{AreCharges};
ghost use Rattle.loss_table.specs.LeastSize.{IsLeastSize};

use mill_model::{Charges, Instance, OutOfMemory};
use std::alloc::Global;

/// What each load up to the largest size is charged: the least size that holds it, minus the
/// load. No load is charged nothing.
pub fn loss_charges(alloc: Global, instance: &Instance) -> Result<Charges, OutOfMemory>
    ensures { IfOk result (AreCharges instance.now) }
{
    let mut table = Vec::with_capacity(alloc, instance.largest() as usize + 1)?;
    table.push(0)?;
    for &size in instance.sizes() {
        for load in table.len() as u32..size + 1 {
            table.push(u64::from(size - load))?;
        }
    }
    Ok(Charges::from_list(table))
}

/// The least size that is at least the load, if the largest is.
pub fn size_for(instance: &Instance, load: u32) -> Option<u32>
    ensures is { result ≡ size_for instance.now.sizes load }
    ensures some { IfSome result (IsLeastSize instance.now.sizes load) }
    ensures none { IsNone result ↔ (largest instance.now.sizes < load) }
{
    let sizes = instance.sizes();
    sizes
        .get(sizes.partition_point(|size| *size < load))
        .copied()
}
