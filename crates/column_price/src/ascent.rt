// The greedy ascent: each price is raised once, in rank, as far as no slack falls below that of its
// group.

ghost use Rattle.std.specs.Prelude.{◌≡◌, ◌<◌, ◌≤◌, length};
ghost use Rattle.mill_model.specs.Bounds.{ascent, ascent_slacks, least_of, no_prices, or_zero};
ghost use Rattle.mill_model.specs.Charges.{charge_of};
ghost use Rattle.order_symmetry.specs.Ranked.{orders_of};
ghost use Rattle.column_price.specs.Nodes.{AreSlacks, EachIsLight, ascent_at, rest_of};
ghost use Rattle.column_price.specs.Nodes.{with_prices};

use crate::numbers::{is_zero, less_by, lesser_of, zero_or};
use crate::slacks::LeastSlacks;

/// The ascent's price of the order at `i`, where those before it have theirs. No slack is below
/// 0, so that the look for the least one ends at 0.
fn ascent_price(slacks: &mut LeastSlacks, firsts: &[i64], i: usize) -> i64
    requires here { i < length slacks.old.prices }
    requires ascent { slacks.old.prices ≡ ascent slacks.old.node.ranked.mill
        (charge_of slacks.old.charges) (orders_of slacks.old.node.ranked) slacks.old.node.path i }
    requires firsts { AreSlacks slacks.old.node (charge_of slacks.old.charges)
        (no_prices (rest_of slacks.old.node)) firsts.now }
    ensures is { result ≡ or_zero (least_of (ascent_slacks slacks.old.node.ranked.mill
        (charge_of slacks.old.charges) (orders_of slacks.old.node.ranked) slacks.old.node.path
        slacks.old.prices i)) }
    ensures kept { slacks.new ≡ slacks.old }
{
    let mut best = slacks.on_new_with(i);
    for g in 0..firsts.len() {
        if is_zero(best) {
            return 0;
        }
        best = lesser_of(best, less_by(slacks.on_group_with(g, i), firsts[g]));
    }
    zero_or(best)
}

/// Raises the prices one after another, from zero. The groups' least slacks stay as they are.
pub(crate) fn raise(slacks: &mut LeastSlacks, firsts: &[i64])
    requires light { EachIsLight slacks.old.node }
    requires zeros { slacks.old.prices ≡ no_prices (rest_of slacks.old.node) }
    requires firsts { AreSlacks slacks.old.node (charge_of slacks.old.charges) slacks.old.prices
        firsts.now }
    ensures is { slacks.new ≡ with_prices slacks.old
        (ascent_at slacks.old.node (charge_of slacks.old.charges)) }
    ensures firsts { AreSlacks slacks.old.node (charge_of slacks.old.charges) slacks.new.prices
        firsts.now }
{
    for i in 0..slacks.prices().len() {
        let price = ascent_price(slacks, firsts, i);
        slacks.set_price(i, price);
    }
}
