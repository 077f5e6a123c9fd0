ghost use Rattle.std.specs.Prelude.{◌≡◌, ◌≤◌, length, OnErr, OnOk};
ghost use Rattle.slab_rules.specs.OpenSlab.{IsWithinBounds, joined};
ghost use Rattle.split_tree.specs.Groups.{slab_at, with_order};

use mill_model::{Order, OutOfMemory};
use slab_rules::OpenSlab;

/// The slab of a number takes an order. The number behind the last one is that of a new slab, which
/// begins as the empty one. Only a new slab takes memory.
pub fn join_group(
    groups: &mut Vec<OpenSlab>,
    empty: &OpenSlab,
    group: u16,
    order: Order,
) -> Result<(), OutOfMemory>
    requires number { group ≤ length groups.old.items }
    requires fits { IsWithinBounds (joined (slab_at empty.now groups.old.items group) order) }
    ensures joined { OnOk result
        (groups.new.items ≡ with_order empty.now groups.old.items group order) }
    ensures unchanged { OnErr result (groups.new.items ≡ groups.old.items) }
    ensures wants_memory { OnErr result (length groups.old.items ≡ group) }
{
    if let Some(slab) = groups.get_mut(group as usize) {
        slab.join(order);
        return Ok(());
    }
    let mut slab = empty.copy();
    slab.join(order);
    groups.push(slab)?;
    Ok(())
}
