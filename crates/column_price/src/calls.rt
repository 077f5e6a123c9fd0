// Prices of a node, asked for once.

ghost use Rattle.std.specs.Prelude.{◌≡◌, ◌+◌, ◌≤ℤ◌, false, length, IfNone, IfOk, IfSome};
ghost use Rattle.mill_model.specs.Charges.{Reaches, charge_of};
ghost use Rattle.mill_model.specs.Prices.{valid};
ghost use Rattle.column_price.specs.Nodes.{EachIsLight, are_valid, ascent_at, rest_of, swept_at};
ghost use Rattle.column_price.specs.Nodes.{worth_at};

use crate::node_prices::{NodePrices, worth_of};
use crate::numbers::is_below_zero;
use crate::slacks::LeastSlacks;
use mill_model::{Charges, OutOfMemory, Prices};
use split_tree::NodeState;
use std::alloc::Global;

/// The ascent's prices, in sixtieths of a loss unit.
pub fn ascend(alloc: Global, node: &NodeState, charges: &Charges) -> Result<Prices, OutOfMemory>
    requires reach { Reaches charges.now node.now.ranked.mill }
    requires light { EachIsLight node.now }
    ensures { IfOk result (λ prices. prices ≡ ascent_at node.now (charge_of charges.now)) }
{
    Ok(NodePrices::ascend(alloc, node, charges)?.into_prices())
}

/// Valid prices after one sweep, in sixtieths of a loss unit.
pub fn improve(
    alloc: Global,
    node: &NodeState,
    charges: &Charges,
    prices: &Prices,
) -> Result<Prices, OutOfMemory>
    requires reach { Reaches charges.now node.now.ranked.mill }
    requires light { EachIsLight node.now }
    requires one_each { length node.now.path + length prices.now ≡ length node.now.ranked.placed }
    requires valid { are_valid node.now (charge_of charges.now) prices.now }
    ensures is { IfOk result (λ swept.
        swept ≡ swept_at node.now (charge_of charges.now) prices.now) }
    ensures valid { IfOk result (λ swept.
        are_valid node.now (charge_of charges.now) swept) }
    ensures no_less { IfOk result (λ swept.
        worth_at node.now (charge_of charges.now) prices.now
        ≤ℤ worth_at node.now (charge_of charges.now) swept) }
{
    let mut priced = NodePrices::of(alloc, node, charges, prices)?;
    priced.improve();
    Ok(priced.into_prices())
}

/// What prices are worth, in sixtieths of a loss unit. None where they aren't valid.
pub fn worth(
    alloc: Global,
    node: &NodeState,
    charges: &Charges,
    prices: &Prices,
) -> Result<Option<i64>, OutOfMemory>
    requires reach { Reaches charges.now node.now.ranked.mill }
    requires one_each { length node.now.path + length prices.now ≡ length node.now.ranked.placed }
    ensures some { IfOk result (λ found. IfSome found (λ worth.
        are_valid node.now (charge_of charges.now) prices.now
        × (worth ≡ worth_at node.now (charge_of charges.now) prices.now))) }
    ensures none { IfOk result (λ found. IfNone found (
        valid node.now.ranked.mill (charge_of charges.now) (rest_of node.now) prices.now
        ≡ false)) }
{
    let mut slacks = LeastSlacks::of(alloc, node, charges, prices)?;
    if is_below_zero(slacks.on_new()) {
        return Ok(None);
    }
    let groups = slacks.on_groups(alloc)?;
    Ok(Some(worth_of(&slacks, &groups)))
}
