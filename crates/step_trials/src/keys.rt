//! Live keys and dead losses of every path of small trees, beside a plain reading of what they are:
//! a group is live where some later order may join it alone, and a key has of each live group its
//! load, its number of colours, and those of its colours that come again.
ghost use Rattle.std.specs.Prelude.{◌≡◌, ◌≤◌, true, All, IfOk, length};
ghost use Rattle.mill_model.specs.Tree.{in_tree};
ghost use Rattle.order_symmetry.specs.Ranked.{orders_of};

use crate::mill::{THREE_ORDERS, charges_to_four, ranked_of};
use crate::readings::Reading;
use mill_model::{Charges, OutOfMemory, Path};
use order_symmetry::Ranked;
use split_tree::{LiveKey, NodeState};
use std::alloc::Global;
use std::test::Fail;

/// The children of a path, none where it has all orders.
fn children_of(alloc: Global, ranked: &Ranked, path: &Path) -> Result<Vec<Path>, OutOfMemory>
    requires { in_tree ranked.now.mill (orders_of ranked.now) path.now ≡ true }
    ensures { IfOk result (λ paths.
        All (λ path. in_tree ranked.now.mill (orders_of ranked.now) path ≡ true) paths.items) }
{
    let node = NodeState::of(alloc, ranked, path)?;
    if node.depth() < ranked.len() {
        return node.children(alloc);
    }
    Ok(Vec::new(alloc))
}

/// The paths of a tree, at most a thousand and their children, parents before children.
fn paths_of(alloc: Global, ranked: &Ranked) -> Result<Vec<Path>, OutOfMemory>
    ensures { IfOk result (λ paths.
        All (λ path. in_tree ranked.now.mill (orders_of ranked.now) path ≡ true) paths.items) }
{
    let mut paths = vec![in alloc; Path::root(alloc)]?;
    for next in 0..1000usize {
        if next >= paths.len() {
            return Ok(paths);
        }
        let mut children = children_of(alloc, ranked, &paths[next])?;
        paths.append(&mut children)?;
    }
    Ok(paths)
}

/// A path's key and dead loss, as the tree and as a plain reading have them.
#[derive(Drop)]
struct Both {
    key: LiveKey,
    dead_loss: u64,
    plain: Reading,
}

/// What the trial finds: answers that differ from the plain reading, and pairs of paths whose keys
/// are equal.
#[derive(Clone, Copy, Debug, Drop)]
struct Found {
    unlike: u32,
    equal: u32,
}

/// Both readings of every path of a tree on slabs of size 4.
fn both_of(alloc: Global, ranked: &Ranked, charges: &Charges) -> Result<Vec<Both>, OutOfMemory>
    requires { length charges.now.list ≡ 5 }
{
    let mut orders = Vec::new(alloc);
    for rank in 0..ranked.len() {
        orders.push(ranked.order(rank))?;
    }
    let paths = paths_of(alloc, ranked)?;
    let mut all = Vec::new(alloc);
    for place in 0..paths.len() {
        if ranked.largest() != 4 {
            return Ok(all);
        }
        let node = NodeState::of(alloc, ranked, &paths[place])?;
        all.push(Both {
            key: node.live_key(alloc)?,
            dead_loss: node.dead_loss(charges),
            plain: Reading::of(alloc, &orders, paths[place].numbers(), ranked.p())?,
        })?;
    }
    Ok(all)
}

/// Compares each path of a tree with each path, of itself too.
fn compare(alloc: Global, orders: &[(u32, u16)], p: u8) -> Result<Found, OutOfMemory>
    requires few { length orders.now ≤ 6 }
    requires low { 1 ≤ p }
    requires high { p ≤ 8 }
{
    let ranked = ranked_of(alloc, 4, orders, p)?;
    let charges = charges_to_four(alloc)?;
    let all = both_of(alloc, &ranked, &charges)?;
    let mut found = Found {
        unlike: 0,
        equal: 0,
    };
    for one in &all {
        if one.dead_loss != one.plain.dead_loss {
            found.unlike = found.unlike.saturating_add(1);
        }
        for other in &all {
            let equal = one.key == other.key;
            if equal {
                found.equal = found.equal.saturating_add(1);
            }
            if equal != one.plain.has_key_of(&other.plain) {
                found.unlike = found.unlike.saturating_add(1);
            }
        }
    }
    Ok(found)
}

// One of six orders.
fn order_of(kind: u32) -> (u32, u16) {
    (1 + kind % 2, 1 + (kind / 2 % 3) as u16)
}

#[test]
fn keys_are_equal_where_a_plain_reading_is(rt: HostRuntime) -> Result<(), Fail> {
    let alloc = rt.alloc();
    for code in 0..1296u32 {
        let kinds = [code / 216, code / 36 % 6, code / 6 % 6, code % 6];
        if kinds[0] > kinds[1] || kinds[1] > kinds[2] || kinds[2] > kinds[3] {
            continue;
        }
        let orders = kinds.map(order_of);
        for p in 1..4u8 {
            let found = compare(alloc, &orders, p)?;
            assert_eq!(rt; found.unlike, 0, "orders {code} colours {p}");
        }
    }
    Ok(())
}

/// By hand: the root, its child, two children of that one with keys of their own, and four paths of
/// all orders, whose keys are equal since nothing is to come.
#[test]
fn equal_keys_of_three_orders(rt: HostRuntime) -> Result<(), Fail> {
    let found = compare(rt.alloc(), &THREE_ORDERS, 2)?;
    assert_eq!(rt; (found.unlike, found.equal), (0, 1 + 1 + 2 + 16));
    Ok(())
}

/// Six orders: what comes again is more than what a slab carries.
#[test]
fn keys_of_a_larger_tree(rt: HostRuntime) -> Result<(), Fail> {
    let alloc = rt.alloc();
    let orders = [(2, 1), (2, 2), (1, 1), (1, 2), (1, 3), (1, 3)];
    let found = compare(alloc, &orders, 2)?;
    assert_eq!(rt; found.unlike, 0);
    Ok(())
}
