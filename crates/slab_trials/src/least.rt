//! A search through all plans, to compare with.

ghost use Rattle.std.specs.Prelude.{◌≡◌, ◌<◌, ◌≤◌, All, length, IfOk};

use loss_table::loss_charges;
use mill_model::{Instance, OutOfMemory, Plan};
use plan_check::{Verdict, judge};
use std::alloc::Global;

// What the best legal plan loses, or the greatest number where there is none. How slabs are
// numbered changes nothing, so order k goes on each of the slabs 0 to k only: there are n! plans.
pub fn least_loss(alloc: Global, instance: &Instance) -> Result<u64, OutOfMemory> {
    let charges = loss_charges(alloc, instance)?;
    let orders = instance.orders().len();
    let mut plans = 1u64;
    for k in 0..orders {
        plans = plans.saturating_mul(k as u64 + 1);
    }
    let mut least = u64::MAX;
    for code in 0..plans {
        let plan = plan_of(alloc, orders, code)?;
        if let Verdict::Legal { loss } = judge(alloc, instance, &charges, &plan)? {
            least = least.min(loss);
        }
    }
    Ok(least)
}

// The plan of so many orders with this number among all of them.
fn plan_of(alloc: Global, orders: usize, code: u64) -> Result<Plan, OutOfMemory>
    requires few { orders ≤ 1024 }
    ensures count { IfOk result (λ plan. length plan ≡ orders) }
    ensures below { IfOk result (λ plan. All (λ slab. slab < orders) plan) }
{
    let mut slabs = Vec::new(alloc);
    let mut rest = code;
    for k in 0..orders {
        slabs.push((rest % (k as u64 + 1)) as u16)?;
        rest /= k as u64 + 1;
    }
    Ok(Plan::from_list(slabs))
}
