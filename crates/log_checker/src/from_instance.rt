// The rules that an instance and its charges give, made once for all records.

ghost use Rattle.std.specs.Prelude.{◌≡◌, ◌<◌, ◌≤◌, ◌+◌, ℕ, All, length, slice_index, IfOk};
ghost use Rattle.std.specs.Prelude.{slice_index_or};
ghost use Rattle.mill_model.specs.Charges.{charge_of, Reaches};
ghost use Rattle.mill_model.specs.Instance.{IsOrder, mill_of};
ghost use Rattle.mill_model.specs.Log.{task_of};
ghost use Rattle.mill_model.specs.Rank.{ranked_orders};
ghost use Rattle.mill_model.specs.declared.order.Order.{Order};
ghost use Rattle.log_checker.specs.ByRules.{task_by};
ghost use Rattle.log_checker.specs.Setting.{AreEnds};

use crate::rules::Rules;
use mill_model::{Charges, Instance, Order, OutOfMemory};
use std::alloc::Global;

/// The orders by weight falling, then colour rising.
fn ranked(alloc: Global, orders: &[Order]) -> Result<Vec<Order>, OutOfMemory>
    requires { All IsOrder orders.now }
    ensures is { IfOk result (λ ranked. ranked.items ≡ ranked_orders orders.now) }
    ensures kept { IfOk result (λ ranked. All IsOrder ranked.items) }
    ensures falls { IfOk result (λ ranked. (i j : ℕ) → (d : Order) → i ≤ j →
        j < length ranked.items → (slice_index_or ranked.items j d).weight
        ≤ (slice_index_or ranked.items i d).weight) }
    ensures count { IfOk result (λ ranked. length ranked.items ≡ length orders.now) }
{
    let mut ranked = orders.to_vec(alloc)?;
    ranked.sort_by_key(|order| order.colour)?;
    ranked.sort_by_key(|order| u32::MAX - order.weight)?;
    Ok(ranked)
}

/// The charges as a slice.
fn charge_table(alloc: Global, charges: &Charges, largest: u32) -> Result<Vec<u64>, OutOfMemory>
    requires reach { length charges.now.list ≡ largest + 1 }
    requires small { largest ≤ 20000 }
    ensures { IfOk result (λ table. table.items ≡ charges.now.list) }
{
    let mut table = Vec::with_capacity(alloc, largest as usize + 1)?;
    for load in 0..largest + 1 {
        table.push(charges.charge(load))?;
    }
    Ok(table)
}

/// One more than the last rank of each colour.
fn last_ranks(alloc: Global, ranked: &[Order]) -> Result<Vec<usize>, OutOfMemory>
    requires { All IsOrder ranked.now }
    ensures { IfOk result (λ last. AreEnds ranked.now last.items) }
{
    let mut last = vec![in alloc; 0; 4097]?;
    fill_last(&mut last, ranked);
    Ok(last)
}

/// The same, in a list of zeros.
fn fill_last(last: &mut [usize], ranked: &[Order])
    requires long { length last.old ≡ 4097 }
    requires empty { (colour : ℕ) → slice_index last.old colour ≡ 0 }
    requires orders { All IsOrder ranked.now }
    ensures { AreEnds ranked.now last.new }
{
    for rank in 0..ranked.len() {
        last[ranked[rank].colour as usize] = rank + 1;
    }
}

/// What the logs of an instance are judged by.
pub(crate) fn rules_of(
    alloc: Global,
    instance: &Instance,
    charges: &Charges,
) -> Result<Rules, OutOfMemory>
    requires reach { Reaches charges.now (mill_of instance.now) }
    ensures is { IfOk result (λ rules.
        task_by rules ≡ task_of instance.now (charge_of charges.now)) }
    ensures count { IfOk result (λ rules.
        length rules.ranked.items ≡ length instance.now.orders) }
{
    let ranked = ranked(alloc, instance.orders())?;
    let largest = instance.largest();
    let charges = charge_table(alloc, charges, largest)?;
    let last = last_ranks(alloc, &ranked)?;
    Ok(Rules {
        ranked,
        charges,
        largest,
        most_colours: instance.p(),
        last,
    })
}
