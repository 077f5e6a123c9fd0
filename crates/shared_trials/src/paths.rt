//! Two paths of a small tree, and how often each of them went somewhere.
ghost use Rattle.std.specs.Prelude.{◌≡◌, true, All, IfOk};
ghost use Rattle.mill_model.specs.Tree.{in_tree};
ghost use Rattle.order_symmetry.specs.Ranked.{orders_of};

use mill_model::{Instance, Order, OutOfMemory, Path};
use order_symmetry::Ranked;
use split_tree::NodeState;
use std::alloc::Global;

/// How often each of the paths 0 and 1 went somewhere, and any other path.
#[derive(Clone, Copy, Debug, Drop, PartialEq, Eq)]
pub struct Tally {
    pub zero: u64,
    pub one: u64,
    pub other: u64,
}

impl Tally {
    pub fn new() -> Tally {
        Tally {
            zero: 0,
            one: 0,
            other: 0,
        }
    }

    pub fn note(&mut self, path: &Path) {
        let count = if path.numbers() == [0, 0].as_slice() {
            &mut self.zero
        } else if path.numbers() == [0, 1].as_slice() {
            &mut self.one
        } else {
            &mut self.other
        };
        *count = count.saturating_add(1);
    }

    pub fn add(&mut self, more: Tally) {
        self.zero = self.zero.saturating_add(more.zero);
        self.one = self.one.saturating_add(more.one);
        self.other = self.other.saturating_add(more.other);
    }
}

/// Orders (2, 3), (1, 1) and (1, 2) in rank, sizes up to 4, and two colours for a slab.
pub fn three_orders(alloc: Global) -> Result<Ranked, OutOfMemory> {
    let orders = vec![in alloc;
        Order {
            weight: 1,
            colour: 1
        },
        Order {
            weight: 1,
            colour: 2
        },
        Order {
            weight: 2,
            colour: 3
        },
    ]?;
    Ranked::new(alloc, &Instance::new(vec![in alloc; 4]?, 3, orders, 2))
}

/// The children of the first child of the empty path. They are the paths 0 0 and 0 1, where there
/// are orders.
pub fn two_paths(alloc: Global, ranked: &Ranked) -> Result<Vec<Path>, OutOfMemory>
    ensures { IfOk result (λ paths. All (λ path. in_tree ranked.now.mill (orders_of ranked.now) path
        ≡ true) paths.items) }
{
    let root = NodeState::of(alloc, ranked, &Path::root(alloc))?;
    if root.depth() >= ranked.len() {
        return Ok(Vec::new(alloc));
    }
    let children = root.children(alloc)?;
    let Some(child) = children.first() else {
        return Ok(Vec::new(alloc));
    };
    let node = NodeState::of(alloc, ranked, child)?;
    if node.depth() >= ranked.len() {
        return Ok(Vec::new(alloc));
    }
    node.children(alloc)
}
