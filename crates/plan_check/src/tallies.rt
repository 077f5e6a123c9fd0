//! What each slab of a plan carries: its load, and how many colours.
ghost use Rattle.std.specs.Prelude.{◌≡◌, ◌<◌, ◌≤◌, ℕ, true, All, IfOk, length, slice_index};
ghost use Rattle.mill_model.specs.Instance.{IsOrder};
ghost use Rattle.mill_model.specs.Plan.{numbers_each, slab};
ghost use Rattle.mill_model.specs.Slab.{load, colours};
ghost use Rattle.plan_check.specs.Tallies.{HasColoursOnce};

use mill_model::{MAX_ORDERS, Order, OutOfMemory};
use std::alloc::Global;

// The load of each slab, by its number.
pub fn slab_loads(alloc: Global, orders: &[Order], slabs: &[u16]) -> Result<Vec<u64>, OutOfMemory>
    requires few { length orders.now ≤ MAX_ORDERS }
    requires within { All IsOrder orders.now }
    requires each { numbers_each slabs.now orders.now ≡ true }
    ensures count { IfOk result (λ loads. length loads.items ≡ length orders.now) }
    ensures each { IfOk result (λ loads. (s : ℕ) → s < length orders.now →
        slice_index loads.items s ≡ load (slab s slabs.now orders.now)) }
{
    let mut loads = vec![in alloc; 0u64; orders.len()]?;
    for (place, order) in orders.iter().enumerate() {
        loads[slabs[place] as usize] += u64::from(order.weight);
    }
    Ok(loads)
}

// How many colours each slab has, by its number.
pub fn colour_counts(
    alloc: Global,
    orders: &[Order],
    slabs: &[u16],
) -> Result<Vec<u16>, OutOfMemory>
    requires few { length orders.now ≤ MAX_ORDERS }
    requires each { numbers_each slabs.now orders.now ≡ true }
    ensures count { IfOk result (λ counts. length counts.items ≡ length orders.now) }
    ensures each { IfOk result (λ counts. (s : ℕ) → s < length orders.now →
        slice_index counts.items s ≡ colours (slab s slabs.now orders.now)) }
{
    let mut counts = vec![in alloc; 0u16; orders.len()]?;
    for &(slab, _) in &slab_colours(alloc, orders, slabs)? {
        counts[slab as usize] += 1;
    }
    Ok(counts)
}

// Each slab with each of its colours, once.
fn slab_colours(
    alloc: Global,
    orders: &[Order],
    slabs: &[u16],
) -> Result<Vec<(u16, u16)>, OutOfMemory>
    requires { numbers_each slabs.now orders.now ≡ true }
    ensures count { IfOk result (λ pairs. length pairs.items ≤ length orders.now) }
    ensures below { IfOk result (λ pairs. All (λ pair. pair.0 < length orders.now) pairs.items) }
    ensures once { IfOk result (λ pairs. (s : ℕ) →
        HasColoursOnce (slab s slabs.now orders.now) s pairs.items) }
{
    let mut pairs = Vec::with_capacity(alloc, orders.len())?;
    for (place, order) in orders.iter().enumerate() {
        pairs.push((slabs[place], order.colour))?;
    }
    pairs.sort_unstable();
    pairs.dedup();
    Ok(pairs)
}
