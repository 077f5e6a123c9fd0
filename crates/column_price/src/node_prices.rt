// Valid prices at a node, with what its groups lose at least under them.

ghost use Rattle.std.specs.Prelude.{◌≡◌, ◌+◌, ◌≤ℤ◌, length, IfOk};
ghost use Rattle.mill_model.specs.Charges.{Reaches, charge_of};
ghost use Rattle.column_price.specs.Nodes.{AreSlacks, EachIsLight, are_valid, ascent_at, swept_at};
ghost use Rattle.column_price.specs.Nodes.{with_prices, worth_at};

use crate::ascent::raise;
use crate::numbers::sum_of;
use crate::slacks::LeastSlacks;
use crate::sweep::sweep;
use mill_model::{Charges, OutOfMemory, Prices};
use split_tree::NodeState;
use std::alloc::Global;
use std::marker::Model;

/// Valid prices for the orders that a node hasn't placed, in sixtieths of a loss unit, and the
/// least slacks of its groups under them. They are made once for a node; what a sweep and the worth
/// need is at hand then, and neither takes memory.
#[derive(Drop)]
pub struct NodePrices<'a, 'b> {
    slacks: LeastSlacks<'a, 'b>,
    groups: Vec<i64>,
}

impl<'a, 'b> Model for NodePrices<'a, 'b> {
    ghost use Rattle.column_price.specs.Nodes.{Pricing, AreValidSlacks};

    ghost Value = { Pricing };

    ghost view = { λ p. p.slacks };

    ghost invariant = { λ p. AreValidSlacks p.slacks p.groups.items };
}

/// What prices are worth, from the least slacks of the groups under them.
pub(crate) fn worth_of(slacks: &LeastSlacks, groups: &[i64]) -> i64
    requires { AreSlacks slacks.now.node (charge_of slacks.now.charges) slacks.now.prices
        groups.now }
    ensures { result
        ≡ worth_at slacks.now.node (charge_of slacks.now.charges) slacks.now.prices }
{
    let prices = slacks.prices();
    sum_of(groups) + sum_of(prices)
}

impl<'a, 'b> NodePrices<'a, 'b> {
    /// The ascent's prices.
    pub fn ascend(
        alloc: Global,
        node: &'a NodeState<'b>,
        charges: &'a Charges,
    ) -> Result<NodePrices<'a, 'b>, OutOfMemory>
        requires reach { Reaches charges.now node.now.ranked.mill }
        requires light { EachIsLight node.now }
        ensures { IfOk result (λ priced. priced ≡ record {
          node = node.now;
          charges = charges.now;
          prices = ascent_at node.now (charge_of charges.now);
        }) }
    {
        let mut slacks = LeastSlacks::without_prices(alloc, node, charges)?;
        let groups = slacks.on_groups(alloc)?;
        raise(&mut slacks, &groups);
        Ok(NodePrices { slacks, groups })
    }

    /// These prices, which are valid.
    pub fn of(
        alloc: Global,
        node: &'a NodeState<'b>,
        charges: &'a Charges,
        prices: &Prices,
    ) -> Result<NodePrices<'a, 'b>, OutOfMemory>
        requires reach { Reaches charges.now node.now.ranked.mill }
        requires one_each { length node.now.path + length prices.now
            ≡ length node.now.ranked.placed }
        requires valid { are_valid node.now (charge_of charges.now) prices.now }
        ensures { IfOk result (λ priced. priced
            ≡ record { node = node.now; charges = charges.now; prices = prices.now }) }
    {
        let mut slacks = LeastSlacks::of(alloc, node, charges, prices)?;
        let groups = slacks.on_groups(alloc)?;
        Ok(NodePrices { slacks, groups })
    }

    /// One sweep.
    pub fn improve(&mut self)
        requires light { EachIsLight self.old.node }
        ensures is { self.new ≡ with_prices self.old
            (swept_at self.old.node (charge_of self.old.charges) self.old.prices) }
        ensures no_less { worth_at self.old.node (charge_of self.old.charges) self.old.prices
            ≤ℤ worth_at self.old.node (charge_of self.old.charges) self.new.prices }
    {
        sweep(&mut self.slacks, &mut self.groups);
    }

    /// What the prices are worth.
    pub fn worth(&self) -> i64
        ensures is { result ≡ worth_at self.now.node (charge_of self.now.charges)
            self.now.prices }
        ensures valid { are_valid self.now.node (charge_of self.now.charges) self.now.prices }
    {
        worth_of(&self.slacks, &self.groups)
    }

    /// The prices alone.
    pub fn into_prices(self) -> Prices
        ensures is { result ≡ self.entry.prices }
        ensures valid { are_valid self.entry.node (charge_of self.entry.charges)
            self.entry.prices }
    {
        self.slacks.into_prices()
    }
}
