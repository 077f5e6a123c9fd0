//! Each call once, on orders that are in rank in another way than in the file.

ghost use Rattle.std.specs.Prelude.{◌≤◌, length};
ghost use Rattle.mill_model.specs.declared.order.TheConstants.{MAX_ORDERS};

use super::*;
use crate::laws::sorted_twin;
use mill_model::{Instance, Order, OutOfMemory, Path, Plan};
use std::alloc::Global;
use std::test::Fail;

// An instance of these sizes, whose orders have these weights and colours, within the limits.
fn instance_of(alloc: Global, size: u32, orders: &[(u32, u16)]) -> Result<Instance, OutOfMemory>
    requires some { 1 ≤ size }
    requires size { size ≤ 20000 }
    requires few { length orders.now ≤ MAX_ORDERS }
{
    let mut list = Vec::with_capacity(alloc, orders.len())?;
    for &(weight, colour) in orders {
        list.push(Order {
            weight: weight.clamp(1, 1_000_000),
            colour: colour.clamp(1, 4096),
        })?;
    }
    Ok(Instance::new(vec![in alloc; size]?, 0, list, 2))
}

#[test]
fn orders_are_ranked(rt: HostRuntime) -> Result<(), Fail> {
    let alloc = rt.alloc();
    let orders = [(1, 3), (2, 2), (1, 1), (2, 2), (3, 9), (1, 3)];
    let instance = instance_of(alloc, 7, &orders)?;
    let ranked = Ranked::new(alloc, &instance)?;
    assert_eq!(rt; (ranked.len(), ranked.largest(), ranked.p()), (6, 7, 2));
    let mut homes = Vec::new(alloc);
    let mut weights = Vec::new(alloc);
    for k in 0..ranked.len() {
        homes.push(ranked.home(k))?;
        weights.push(ranked.order(k).weight)?;
    }
    assert_eq!(rt; homes.as_slice(), [4, 1, 3, 2, 0, 5].as_slice());
    assert_eq!(rt; weights.as_slice(), [3, 2, 2, 1, 1, 1].as_slice());
    let mut starts = Vec::new(alloc);
    for k in 0..ranked.len() {
        starts.push(ranked.starts_class(k))?;
    }
    assert_eq!(rt;
        starts.as_slice(),
        [true, true, false, true, true, false].as_slice()
    );
    assert!(rt; ranked.starts_class(ranked.len()));
    Ok(())
}

#[test]
fn a_path_is_a_plan_of_the_file(rt: HostRuntime) -> Result<(), Fail> {
    let alloc = rt.alloc();
    let ranked = Ranked::new(alloc, &instance_of(alloc, 4, &[(1, 1), (1, 2), (2, 3)])?)?;
    assert_eq!(rt; ranked.len(), 3);
    let plan = ranked.plan_of(alloc, &Path::from_list(vec![in alloc; 0, 1, 0]?))?;
    assert_eq!(rt; plan.slabs(), [1, 0, 0].as_slice());
    Ok(())
}

#[test]
fn equal_orders_take_rising_numbers(rt: HostRuntime) -> Result<(), Fail> {
    let alloc = rt.alloc();
    let ranked = Ranked::new(alloc, &instance_of(alloc, 4, &[(2, 1), (2, 1), (2, 1)])?)?;
    assert_eq!(rt; ranked.len(), 3);
    let twin = sorted_twin(alloc, &ranked, &Plan::from_list(vec![in alloc; 0, 1, 0]?))?;
    let is_sorted = twin.slabs() == [0, 0, 1].as_slice() || twin.slabs() == [0, 1, 1].as_slice();
    assert!(rt; is_sorted);
    Ok(())
}
