//! The least loss of the legal plans of up to five orders, from all their plans.

use mill_model::Instance;

/// What a load loses: the least size that holds it, less the load.
pub fn load_loss(sizes: &[u32], load: u32) -> Option<u64> {
    if load == 0 {
        return Some(0);
    }
    for &size in sizes {
        if load <= size {
            return Some(u64::from(size - load));
        }
    }
    None
}

// What the plan loses whose slabs are the digits of a number to base 5, if it is legal and numbers
// its slabs by first appearance.
fn plan_loss(instance: &Instance, plan: u32) -> Option<u64> {
    let mut loads = [0u32; 5];
    let mut colours = [0u32; 5];
    let mut digits = plan;
    let mut used = 0usize;
    for order in instance.orders() {
        let slab = (digits % 5) as usize;
        if slab > used {
            return None;
        }
        used = used.max(slab + 1);
        loads[slab] = loads[slab].saturating_add(order.weight);
        colours[slab] |= 1 << u32::from(order.colour % 32);
        digits /= 5;
    }
    let mut loss = 0u64;
    for slab in 0..5usize {
        if colours[slab].count_ones() > u32::from(instance.p()) {
            return None;
        }
        loss = loss.saturating_add(load_loss(instance.sizes(), loads[slab])?);
    }
    Some(loss)
}

/// The least loss of all legal plans of up to five orders, if one is legal.
pub fn least_loss(instance: &Instance) -> Option<u64> {
    let mut least: Option<u64> = None;
    for plan in 0..3125u32 {
        if let Some(loss) = plan_loss(instance, plan) {
            least = Some(least.unwrap_or(loss).min(loss));
        }
    }
    least
}
