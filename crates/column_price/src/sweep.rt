// The sweep: each price is set anew, in rank, to the most that keeps the prices valid and that no
// group loses by. The groups' least slacks are kept through it: under the new price of an order,
// that of a group is the least over the sets without the order.

ghost use Rattle.std.specs.Prelude.{◌≡◌, ◌<◌, length, pos, set};
ghost use Rattle.mill_model.specs.Bounds.{least_on_with, least_on_without, or_zero, swept_price};
ghost use Rattle.mill_model.specs.Charges.{charge_of};
ghost use Rattle.mill_model.specs.Limits.{IsPrice};
ghost use Rattle.mill_model.specs.Prices.{least_slack};
ghost use Rattle.mill_model.specs.Tree.{next_new};
ghost use Rattle.order_symmetry.specs.Ranked.{orders_of};
ghost use Rattle.set_minima.specs.Cells.{IsSmall, slack_limit};
ghost use Rattle.split_tree.specs.Node.{group_of};
ghost use Rattle.column_price.specs.Nodes.{AreSlacks, EachIsLight, are_valid, rest_of, swept_at};
ghost use Rattle.column_price.specs.Nodes.{IsPricing, with_prices};
ghost use Rattle.column_price.specs.Numbers.{less};

use crate::numbers::{is_above, less_by, lesser_of, zero_or};
use crate::slacks::LeastSlacks;

/// What a group loses at least without an order, and how much more with it. That is None where the
/// order can't join the group.
#[derive(Clone, Copy)]
struct JoiningCost {
    without: i64,
    cost: Option<i64>,
}

/// A group beside the order at `i`, whose price is now zero. The group's least slack was `slack`
/// under the old price. Where no set with the order was that low, `slack` is that of a set without
/// it, and is not looked for again.
fn cost_of_joining(
    slacks: &mut LeastSlacks,
    g: usize,
    i: usize,
    slack: i64,
    old: i64,
) -> JoiningCost
    requires group { g < next_new slacks.old.node.path }
    requires here { i < length slacks.old.prices }
    requires zero { slacks.old.prices ≡ set slacks.old.prices i (pos 0) }
    requires old { IsPrice old }
    requires small { IsSmall slack_limit slack }
    requires slack { slack ≡ least_slack slacks.old.node.ranked.mill
        (charge_of slacks.old.charges) (group_of slacks.old.node g) (rest_of slacks.old.node)
        (set slacks.old.prices i old) }
    ensures without { result.without ≡ or_zero (least_on_without slacks.old.node.ranked.mill
        (charge_of slacks.old.charges) (group_of slacks.old.node g) (rest_of slacks.old.node)
        slacks.old.prices i) }
    ensures cost { result.cost ≡ less result.without
        (least_on_with slacks.old.node.ranked.mill (charge_of slacks.old.charges)
        (group_of slacks.old.node g) (rest_of slacks.old.node) slacks.old.prices i) }
    ensures small { IsSmall slack_limit result.without }
    ensures kept { slacks.new ≡ slacks.old }
{
    let held = slacks.on_group_with(g, i);
    let without = if is_above(held, old, slack) {
        slack
    } else {
        zero_or(slacks.on_group_without(g, i))
    };
    JoiningCost {
        without,
        cost: less_by(held, without),
    }
}

/// Sets the price of the order at `i` anew, and the groups' least slacks with it.
fn set_anew(slacks: &mut LeastSlacks, groups: &mut [i64], i: usize)
    requires here { i < length slacks.old.prices }
    requires groups { AreSlacks slacks.old.node (charge_of slacks.old.charges) slacks.old.prices
        groups.old }
    requires price { IsPrice (swept_price slacks.old.node.ranked.mill
        (charge_of slacks.old.charges) (orders_of slacks.old.node.ranked) slacks.old.node.path
        (set slacks.old.prices i (pos 0)) i) }
    ensures is { slacks.new ≡ with_prices slacks.old (set slacks.old.prices i
        (swept_price slacks.old.node.ranked.mill (charge_of slacks.old.charges)
        (orders_of slacks.old.node.ranked) slacks.old.node.path
        (set slacks.old.prices i (pos 0)) i)) }
    ensures groups { AreSlacks slacks.old.node (charge_of slacks.old.charges) slacks.new.prices
        groups.new }
{
    let old = slacks.prices()[i];
    slacks.set_price(i, 0);
    let mut best = slacks.on_new_with(i);
    for g in 0..groups.len() {
        let joined = cost_of_joining(slacks, g, i, groups[g], old);
        groups[g] = joined.without;
        best = lesser_of(best, joined.cost);
    }
    slacks.set_price(i, zero_or(best));
}

/// Sets the prices anew, one after another.
pub(crate) fn sweep(slacks: &mut LeastSlacks, groups: &mut [i64])
    requires light { EachIsLight slacks.old.node }
    requires valid { are_valid slacks.old.node (charge_of slacks.old.charges) slacks.old.prices }
    requires groups { AreSlacks slacks.old.node (charge_of slacks.old.charges) slacks.old.prices
        groups.old }
    ensures is { slacks.new ≡ with_prices slacks.old
        (swept_at slacks.old.node (charge_of slacks.old.charges) slacks.old.prices) }
    ensures groups { AreSlacks slacks.old.node (charge_of slacks.old.charges) slacks.new.prices
        groups.new }
    ensures pricing { IsPricing slacks.old }
{
    for i in 0..slacks.prices().len() {
        set_anew(slacks, groups, i);
    }
}
