//! Which end of a deque gives which path.
use crate::paths::{three_orders, two_paths};
use std::test::Fail;
use steal_deques::{deque, gather};

#[test]
fn the_first_is_stolen_and_the_last_popped(rt: HostRuntime) -> Result<(), Fail> {
    let alloc = rt.alloc();
    let ranked = three_orders(alloc)?;
    let paths = two_paths(alloc, &ranked)?;
    assert_eq!(rt; paths.len(), 2);
    let (first, second) = (paths[0].copy()?, paths[1].copy()?);
    let mut own = deque(alloc, &ranked, 1)?;
    let mut thief = own.lend()?;
    let Ok(()) = own.push(first) else {
        panic!(rt; "there is room");
    };
    let Ok(()) = own.push(second) else {
        panic!(rt; "there is room");
    };
    let stolen = thief.steal();
    assert!(rt; stolen.is_some_and(|path| path.numbers() == [0, 0].as_slice()));
    let popped = own.pop();
    assert!(rt; popped.is_some_and(|path| path.numbers() == [0, 1].as_slice()));
    assert!(rt; own.pop().is_none());
    own.take_back(thief);
    assert!(rt; gather(alloc, own)?.left.is_empty());
    Ok(())
}
