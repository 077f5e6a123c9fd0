//! How a path is closed. All that may want memory is done here, and nothing is changed.
ghost use Rattle.std.specs.Prelude.{◌≡◌, ◌<◌, ◌≤◌, IfOk, length, All, int_lt, pos, ◌*ℤ◌, ◌-ℤ◌};
ghost use Rattle.mill_model.specs.Charges.{Reaches, charge_of};
ghost use Rattle.order_symmetry.specs.Ranked.{orders_of};
ghost use Rattle.column_price.specs.Nodes.{EachIsLight};
ghost use Rattle.search_step.specs.Serving.{IsPathOf};
ghost use Rattle.search_step.specs.Decided.{Decides, DecidesLeaf, DecidesInner, DecidesOpen};
ghost use Rattle.split_tree.specs.Node.{IsNode, groups_loss};

use crate::parts::{Paths, Verdict};
use column_price::NodePrices;
use mill_model::{Charges, OutOfMemory, Path, Start};
use nogood_store::{Entry, Store};
use order_symmetry::Ranked;
use split_tree::NodeState;
use std::alloc::Global;

/// How the path is closed where this loss is known.
pub(crate) fn decide(
    alloc: Global,
    ranked: &Ranked,
    charges: &Charges,
    known: u64,
    store: &Store,
    path: &Path,
) -> Result<Verdict, OutOfMemory>
    requires path { IsPathOf ranked.now path.now }
    requires reach { Reaches charges.now ranked.now.mill }
    requires light { All (λ order. order.weight ≤ ranked.now.mill.largest) (orders_of ranked.now) }
    ensures { IfOk result (Decides ranked.now charges.now known store.now path.now) }
{
    let node = NodeState::of(alloc, ranked, path)?;
    if node.depth() == ranked.len() {
        decide_leaf(alloc, &node, charges, known)
    } else {
        decide_inner(alloc, &node, charges, known, store, path)
    }
}

// A path that gives each order a group.
fn decide_leaf(
    alloc: Global,
    node: &NodeState,
    charges: &Charges,
    known: u64,
) -> Result<Verdict, OutOfMemory>
    requires leaf { length node.now.path ≡ length node.now.ranked.placed }
    requires reach { Reaches charges.now node.now.ranked.mill }
    ensures { IfOk result (DecidesLeaf node.now.ranked charges.now known node.now.path) }
{
    let loss = leaf_loss(node, charges);
    if loss < known {
        let plan = node.plan_of_leaf(alloc)?;
        Ok(Verdict::Better(Start { plan, loss }))
    } else {
        Ok(Verdict::Plain)
    }
}

// What the plan of a path loses, where each order that is still to come loses nothing.
fn leaf_loss(node: &NodeState, charges: &Charges) -> u64
    requires reach { Reaches charges.now node.now.ranked.mill }
    ensures is { result ≡ groups_loss (charge_of charges.now) node.now }
    ensures kept { IsNode node.now }
{
    // The call brings into the proof that this is the node of a path.
    let _depth = node.depth();
    node.groups_loss(charges)
}

// A path with orders still to come: by prices, else by another path, else by its children.
fn decide_inner(
    alloc: Global,
    node: &NodeState,
    charges: &Charges,
    known: u64,
    store: &Store,
    path: &Path,
) -> Result<Verdict, OutOfMemory>
    requires path { path.now ≡ node.now.path }
    requires inner { length node.now.path < length node.now.ranked.placed }
    requires reach { Reaches charges.now node.now.ranked.mill }
    requires light { EachIsLight node.now }
    ensures { IfOk result (DecidesInner node.now.ranked charges.now known store.now node.now.path) }
{
    let mut priced = NodePrices::ascend(alloc, node, charges)?;
    if exceeds(known, priced.worth()) {
        return Ok(Verdict::ByPrices(priced.into_prices()));
    }
    priced.improve();
    if exceeds(known, priced.worth()) {
        return Ok(Verdict::ByPrices(priced.into_prices()));
    }
    decide_open(alloc, node, charges, store, path)
}

// A path that prices don't close.
fn decide_open(
    alloc: Global,
    node: &NodeState,
    charges: &Charges,
    store: &Store,
    path: &Path,
) -> Result<Verdict, OutOfMemory>
    requires path { path.now ≡ node.now.path }
    requires inner { length node.now.path < length node.now.ranked.placed }
    requires reach { Reaches charges.now node.now.ranked.mill }
    ensures { IfOk result (DecidesOpen node.now.ranked charges.now store.now node.now.path) }
{
    let mut note = None;
    if node.ranked().starts_class(node.depth()) {
        let key = node.live_key(alloc)?;
        let dead = node.dead_loss(charges);
        if let Some(other) = store.find(&key, dead) {
            return Ok(Verdict::ByOther(other.copy()?));
        }
        note = Some(Entry {
            key,
            dead,
            path: path.copy()?,
        });
    }
    let list = node.children(alloc)?;
    Ok(Verdict::Open(Paths { list }, note))
}

// Whether a worth is more than 60 times a loss less 1.
fn exceeds(known: u64, worth: i64) -> bool
    ensures { result ≡ int_lt (pos 60 *ℤ (pos known -ℤ pos 1)) worth }
{
    60 * (known as i128 - 1) < worth as i128
}
