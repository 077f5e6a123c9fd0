//! What replays go by, and the plan that they start from.
ghost use Rattle.std.specs.Prelude.{◌≡◌, ◌≤◌, true, All, IfOk, IfSome, IsTrue};
ghost use Rattle.mill_model.specs.Charges.{Reaches};
ghost use Rattle.mill_model.specs.Instance.{mill_of};
ghost use Rattle.order_symmetry.specs.Ranked.{IsRankOf, orders_of};
ghost use Rattle.search_step.specs.Honest.{IsKept};
ghost use Rattle.search_step.specs.Serving.{IsPathOf};
ghost use Rattle.replay_trials.specs.SomeRun.{IsSomeRun};

use log_checker::{LogVerdict, check_log};
use loss_table::loss_charges;
use mill_model::{Charges, Instance, OutOfMemory, Path, Start};
use order_symmetry::Ranked;
use piece_merge::merge;
use refute_log::Run;
use split_tree::NodeState;
use std::alloc::Global;

/// An instance whose orders all fit a slab, in rank, with the steel left over as charge.
#[derive(Drop)]
pub struct Setting {
    pub instance: Instance,
    pub ranked: Ranked,
    pub charges: Charges,
    ghost ranks: { IsRankOf instance ranked },
    ghost light: { All (λ order. order.weight ≤ ranked.mill.largest) (orders_of ranked) },
    ghost reach: { Reaches charges (mill_of instance) },
}

impl Setting {
    /// That of an instance, if all its orders fit a slab.
    pub fn of(alloc: Global, instance: Instance) -> Result<Option<Setting>, OutOfMemory> {
        let ranked = Ranked::new(alloc, &instance)?;
        let charges = loss_charges(alloc, &instance)?;
        if !all_fit(&ranked) {
            return Ok(None);
        }
        Ok(Some(Setting {
            instance,
            ranked,
            charges,
        }))
    }

    /// The plan of the leaf that lies under the last child of each path above it: each order has a
    /// slab of its own.
    pub fn each_alone(&self, alloc: Global) -> Result<Option<Start>, OutOfMemory>
        ensures { IfOk result (λ found. IfSome found (IsKept self.now.ranked self.now.charges)) }
    {
        let mut path = Path::root(alloc);
        for _ in 0..self.ranked.len() {
            let node = NodeState::of(alloc, &self.ranked, &path)?;
            if node.depth() < self.ranked.len() {
                if let Some(child) = node.children(alloc)?.pop() {
                    path = child;
                }
            }
        }
        self.start_at(alloc, &path)
    }

    /// The plan of a leaf with its loss, if the path is one.
    pub fn start_at(&self, alloc: Global, path: &Path) -> Result<Option<Start>, OutOfMemory>
        requires { IsPathOf self.now.ranked path.now }
        ensures { IfOk result (λ found. IfSome found (IsKept self.now.ranked self.now.charges)) }
    {
        let node = NodeState::of(alloc, &self.ranked, path)?;
        if node.depth() != self.ranked.len() {
            return Ok(None);
        }
        let plan = node.plan_of_leaf(alloc)?;
        let loss = node.groups_loss(&self.charges);
        Ok(Some(Start { plan, loss }))
    }

    /// Whether the log of a run's pieces refutes its loss; nothing where a path is left.
    pub fn refutes(&self, alloc: Global, run: Run) -> Result<Option<bool>, OutOfMemory>
        requires { IsSomeRun self.now.ranked self.now.charges run }
    {
        if !run.unclosed.is_empty() {
            return Ok(None);
        }
        let log = merge(alloc, self.ranked.len(), run.pieces)?;
        let verdict = check_log(alloc, &self.instance, &self.charges, run.loss, &log)?;
        Ok(Some(matches!(verdict, LogVerdict::Refutes)))
    }
}

// Whether no order is heavier than the largest size.
fn all_fit(ranked: &Ranked) -> bool
    ensures { IsTrue result →
        All (λ order. order.weight ≤ ranked.now.mill.largest) (orders_of ranked.now) }
{
    for rank in 0..ranked.len() {
        if ranked.order(rank).weight > ranked.largest() {
            return false;
        }
    }
    true
}

/// The path of these numbers, from child to child, as far as there are such children.
pub fn path_of(alloc: Global, ranked: &Ranked, numbers: &[u16]) -> Result<Path, OutOfMemory>
    ensures { IfOk result (IsPathOf ranked.now) }
{
    let mut path = Path::root(alloc);
    for &number in numbers {
        let node = NodeState::of(alloc, ranked, &path)?;
        if node.depth() < ranked.len() {
            let children = node.children(alloc)?;
            for child in &children {
                if child.numbers().last() == Some(&number) {
                    path = child.copy()?;
                }
            }
        }
    }
    Ok(path)
}
