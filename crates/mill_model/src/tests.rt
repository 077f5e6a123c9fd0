//! Calls that take memory, with ample memory.

use super::*;
use std::test::Fail;

#[test]
fn plans_and_paths_are_copied_and_grown(rt: HostRuntime) -> Result<(), Fail> {
    let alloc = rt.alloc();
    let plan = Plan::from_list(vec![in alloc; 3, 1, 3, 0, 1]?);
    assert_eq!(rt; plan.copy(alloc)?.slabs(), [3, 1, 3, 0, 1].as_slice());
    assert_eq!(rt; plan.tidy(alloc)?.slabs(), [0, 1, 0, 2, 1].as_slice());
    let path = Path::root(alloc).child(0)?.child(1)?;
    assert_eq!(rt; path.numbers(), [0, 1].as_slice());
    assert_eq!(rt; path.copy()?.numbers(), [0, 1].as_slice());
    Ok(())
}

#[test]
fn sizes_are_sorted_and_stand_once(rt: HostRuntime) -> Result<(), Fail> {
    let alloc = rt.alloc();
    let sizes = vec![in alloc; 9, 4, 9, 2]?;
    let orders = vec![in alloc;
        Order {
            weight: 1,
            colour: 7
        },
    ]?;
    let instance = Instance::new(sizes, 3, orders, 2);
    assert_eq!(rt; instance.sizes(), [2, 4, 9].as_slice());
    assert_eq!(rt; instance.largest(), 9);
    Ok(())
}
