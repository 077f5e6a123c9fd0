// A node of the tree of paths: its groups, its children, and the plan of a leaf.

ghost use Rattle.std.specs.Prelude.{◌≡◌, ◌<◌, ◌≤◌, ◌+◌, ◌++◌, ◌∷◌, [], List, true, All};
ghost use Rattle.std.specs.Prelude.{length, slice_index, IfOk};
ghost use Rattle.mill_model.specs.Charges.{Reaches, charge_of};
ghost use Rattle.mill_model.specs.Plan.{IsLegalPlan};
ghost use Rattle.mill_model.specs.Rank.{rank};
ghost use Rattle.mill_model.specs.Slab.{legal};
ghost use Rattle.mill_model.specs.Tree.{children, in_tree};
ghost use Rattle.order_symmetry.specs.Ranked.{IsPlanOf, orders_of};
ghost use Rattle.split_tree.specs.Node.{AreGroups, IsNode, group_of, groups_loss, least_number};

use crate::groups::join_group;
use mill_model::{Charges, Order, OutOfMemory, Path, Plan};
use order_symmetry::Ranked;
use slab_rules::OpenSlab;
use std::alloc::Global;
use std::marker::Model;

/// A node of the tree of paths: a path, with the groups that it puts the first ranked orders into.
#[derive(Debug, Drop)]
pub struct NodeState<'a> {
    ranked: &'a Ranked,
    path: Path,
    groups: Vec<OpenSlab>,
}

impl<'a> Model for NodeState<'a> {
    ghost use Rattle.split_tree.specs.Node.{Node, IsNode, AreGroups};

    ghost Value = { Node };

    ghost view = { λ n. record { ranked = n.ranked.now; path = n.path } };

    ghost invariant = { λ n. IsNode (record { ranked = n.ranked.now; path = n.path })
        × AreGroups (record { ranked = n.ranked.now; path = n.path }) n.groups.items };
}

impl<'a> NodeState<'a> {
    /// The node of a path of the tree.
    pub fn of(alloc: Global, ranked: &'a Ranked, path: &Path) -> Result<NodeState<'a>, OutOfMemory>
        requires { in_tree ranked.now.mill (orders_of ranked.now) path.now ≡ true }
        ensures { IfOk result (λ node. node ≡ record { ranked = ranked.now; path = path.now }) }
    {
        let numbers = path.numbers();
        let empty = OpenSlab::empty(alloc, ranked.largest(), ranked.p());
        let mut groups = Vec::with_capacity(alloc, numbers.len())?;
        for (rank, &group) in numbers.iter().enumerate() {
            join_group(&mut groups, &empty, group, ranked.order(rank as u16))?;
        }
        Ok(NodeState {
            ranked,
            path: path.copy()?,
            groups,
        })
    }

    /// How many orders the path has put into groups.
    pub fn depth(&self) -> u16
        ensures is { result ≡ length self.now.path }
        ensures within { result ≤ length self.now.ranked.placed }
        ensures kept { IsNode self.now }
    {
        self.path.numbers().len() as u16
    }

    /// The groups of the path, by rising number.
    pub fn groups(&self) -> &[OpenSlab]
        ensures is { AreGroups self.now result.now }
        ensures kept { IsNode self.now }
    {
        &self.groups
    }

    /// The ranked orders.
    pub fn ranked(&self) -> &Ranked
        ensures is { result.now ≡ self.now.ranked }
        ensures kept { IsNode self.now }
    {
        self.ranked
    }

    /// The children of the path, by rising last number.
    pub fn children(&self, alloc: Global) -> Result<Vec<Path>, OutOfMemory>
        requires { length self.now.path < length self.now.ranked.placed }
        ensures is { IfOk result (λ paths. paths.items
            ≡ children self.now.ranked.mill (orders_of self.now.ranked) self.now.path) }
        ensures tree { IfOk result (λ paths.
            All (λ path. in_tree self.now.ranked.mill (orders_of self.now.ranked) path ≡ true)
            paths.items) }
    {
        let order = self.ranked.order(self.depth());
        let least = self.least_number() as usize;
        // The groups of the path, and the next new one.
        let groups = self.groups.len() + 1;
        let mut paths = Vec::with_capacity(alloc, groups)?;
        for group in 0..groups {
            if group >= least && self.takes(alloc, group, order) {
                paths.push(self.path.child(group as u16)?)?;
            }
        }
        Ok(paths)
    }

    /// The plan, in the file's order, of a path that puts every order into a group.
    pub fn plan_of_leaf(&self, alloc: Global) -> Result<Plan, OutOfMemory>
        requires { length self.now.path ≡ length self.now.ranked.placed }
        ensures is { IfOk result (λ plan. (orders : List Order) →
            self.now.ranked.placed ≡ rank orders → IsPlanOf orders self.now.path plan) }
        ensures legal { IfOk result (λ plan. (orders : List Order) →
            self.now.ranked.placed ≡ rank orders → IsLegalPlan self.now.ranked.mill orders plan) }
    {
        self.ranked.plan_of(alloc, &self.path)
    }

    /// What all groups together are charged.
    pub fn groups_loss(&self, charges: &Charges) -> u64
        requires { Reaches charges.now self.now.ranked.mill }
        ensures { result ≡ groups_loss (charge_of charges.now) self.now }
    {
        let mut loss = 0;
        for group in &self.groups {
            loss += charges.charge(group.load());
        }
        loss
    }

    // The least number that the path may go on with: within a class, its last number.
    fn least_number(&self) -> u16
        ensures { result ≡ least_number self.now }
    {
        if self.ranked.starts_class(self.depth()) {
            0
        } else {
            self.path.numbers().last().copied().unwrap_or(0)
        }
    }
    // Whether the group of a number, or a new one, stays legal with one more order.
    fn takes(&self, alloc: Global, group: usize, order: Order) -> bool
        ensures { result ≡ legal self.now.ranked.mill (group_of self.now group ++ order ∷ []) }
    {
        match self.groups.get(group) {
            Some(slab) => slab.fits(order),
            None => OpenSlab::empty(alloc, self.ranked.largest(), self.ranked.p()).fits(order),
        }
    }
}
