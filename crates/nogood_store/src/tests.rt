//! A store with room for one path, and one in which a key has several entries.

ghost use Rattle.std.specs.Prelude.{◌≡◌, ◌≤◌, length};
ghost use Rattle.mill_model.specs.declared.order.TheConstants.{MAX_ORDERS};

use super::*;
use mill_model::{Instance, Order, OutOfMemory, Path};
use order_symmetry::Ranked;
use split_tree::{LiveKey, NodeState};
use std::alloc::Global;
use std::test::Fail;

// The live key of the empty path of so many orders of weight 1, on slabs of size 4.
fn key_of_root(alloc: Global, orders: usize) -> Result<LiveKey, OutOfMemory>
    requires { orders ≤ MAX_ORDERS }
{
    let order = Order {
        weight: 1,
        colour: 1,
    };
    let list = vec![in alloc; order; orders]?;
    let ranked = Ranked::new(alloc, &Instance::new(vec![in alloc; 4]?, 0, list, 2))?;
    let key = NodeState::of(alloc, &ranked, &Path::root(alloc))?.live_key(alloc)?;
    Ok(key)
}

// The numbers of the path that is found.
fn numbers<'a>(found: Option<&'a Path>) -> Option<&'a [u16]> {
    match found {
        Some(path) => Some(path.numbers()),
        None => None,
    }
}

#[test]
fn a_store_has_room_for_one(rt: HostRuntime) -> Result<(), Fail> {
    let alloc = rt.alloc();
    let key = key_of_root(alloc, 2)?;
    let mut store = Store::new(alloc, 1);
    assert!(rt; store.find(&key, 9).is_none());
    let path = Path::root(alloc).child(0)?;
    assert!(rt; store.note(key.copy()?, 5, path) == Noted::Kept);
    assert!(rt; store.note(key.copy()?, 3, Path::root(alloc)) == Noted::Full);
    assert!(rt; numbers(store.find(&key, 5)) == Some([0].as_slice()));
    assert!(rt; numbers(store.find(&key, 6)) == Some([0].as_slice()));
    assert!(rt; numbers(store.find(&key, 4)).is_none());
    Ok(())
}

#[test]
fn the_least_dead_loss_is_found_and_of_equal_ones_the_first(rt: HostRuntime) -> Result<(), Fail> {
    let alloc = rt.alloc();
    let key = key_of_root(alloc, 2)?;
    let mut store = Store::new(alloc, 10);
    assert!(rt; store.note(key.copy()?, 5, Path::root(alloc).child(5)?) == Noted::Kept);
    assert!(rt; store.note(key.copy()?, 7, Path::root(alloc).child(7)?) == Noted::Kept);
    assert!(rt; numbers(store.find(&key, 8)) == Some([5].as_slice()));
    assert!(rt; store.note(key.copy()?, 2, Path::root(alloc).child(2)?) == Noted::Kept);
    assert!(rt; store.note(key.copy()?, 2, Path::root(alloc).child(3)?) == Noted::Kept);
    assert!(rt; numbers(store.find(&key, 8)) == Some([2].as_slice()));
    assert!(rt; numbers(store.find(&key, 2)) == Some([2].as_slice()));
    assert!(rt; numbers(store.find(&key, 1)).is_none());
    Ok(())
}
