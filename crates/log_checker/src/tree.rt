// Whether a path may go on with a group, and whether it is in the tree.

ghost use Rattle.std.specs.Prelude.{◌≡◌, ◌<◌, ◌≤◌, ◌+◌, ◌&&◌, ◌||◌, IfOk, length, true};
ghost use Rattle.std.specs.Prelude.{replicate, slice_index, slice_index_or, take};
ghost use Rattle.mill_model.specs.Plan.{slab};
ghost use Rattle.mill_model.specs.Rank.{starts_class_in, same_order};
ghost use Rattle.mill_model.specs.Tree.{next_new, last_number, may_go_on, in_tree};
ghost use Rattle.log_checker.specs.ByRules.{mill_by};
ghost use Rattle.log_checker.specs.Groups.{joined, may_be, nothing_seen, IsSeen, AreGroups};

use crate::groups::{Group, join_at};
use crate::rules::Rules;
use mill_model::{Order, OutOfMemory};

fn same_order(a: Order, b: Order) -> bool
    ensures { result ≡ same_order a b }
{
    a.weight == b.weight && a.colour == b.colour
}

/// Whether a depth starts a class.
pub(crate) fn starts_class(rules: &Rules, k: usize) -> bool
    ensures { result ≡ starts_class_in k rules.now.ranked.items }
{
    if k == 0 || rules.ranked.len() <= k {
        return true;
    }
    !same_order(rules.order(k - 1), rules.order(k))
}

/// The last number of a path, or 0.
fn last_number(path: &[u16]) -> u16
    ensures { result ≡ last_number path.now }
{
    if path.is_empty() {
        return 0;
    }
    path[path.len() - 1]
}

/// Whether a group, or the next new one, stays legal with one more order.
fn may_join(rules: &Rules, groups: &[Group], g: usize, order: Order) -> bool
    ensures { result ≡
        may_be (mill_by rules.now) (joined (slice_index_or groups.now g nothing_seen) order) }
{
    if g < groups.len() {
        groups[g].may_join(rules, order)
    } else {
        order.weight <= rules.largest && 1 <= rules.most_colours
    }
}

/// Whether a path may go on with a group of its own or the next new one.
pub(crate) fn may_go_on(rules: &Rules, groups: &[Group], path: &[u16], g: u16) -> bool
    requires seen { IsSeen (slice_index_or groups.now g nothing_seen)
        (slab g path.now rules.now.ranked.items) }
    requires within { length path.now < length rules.now.ranked.items }
    requires near { g ≤ next_new path.now }
    ensures { result ≡ may_go_on (mill_by rules.now) rules.now.ranked.items path.now g }
{
    may_join(rules, groups, g as usize, rules.order(path.len()))
        && (starts_class(rules, path.len()) || last_number(path) <= g)
}

/// Whether the first `k` numbers of a path, of which `count` is the next new one, may go on with
/// the next.
fn goes_on_at(rules: &Rules, groups: &[Group], path: &[u16], k: usize, count: usize) -> bool
    requires here { k < length path.now }
    requires within { length path.now ≤ length rules.now.ranked.items }
    requires seen { IsSeen (slice_index_or groups.now (slice_index path.now k) nothing_seen)
        (slab (slice_index path.now k) (take k path.now) rules.now.ranked.items) }
    requires count { count ≡ next_new (take k path.now) }
    ensures { result ≡ may_go_on (mill_by rules.now) rules.now.ranked.items (take k path.now)
        (slice_index path.now k) }
{
    let g = path[k];
    if count < g as usize {
        return false;
    }
    may_go_on(rules, groups, &path[..k], g)
}

/// Puts each order of a path into its group, as long as the path stays in the tree.
pub(crate) fn goes_through(
    groups: &mut [Group],
    rules: &Rules,
    path: &[u16],
) -> Result<bool, OutOfMemory>
    requires within { length path.now ≤ length rules.now.ranked.items }
    requires empty { groups.old ≡ replicate (next_new path.now) nothing_seen }
    ensures is { IfOk result (λ yes.
        yes ≡ in_tree (mill_by rules.now) rules.now.ranked.items path.now) }
    ensures groups { IfOk result (λ yes. yes ≡ true →
        AreGroups groups.new path.now rules.now.ranked.items) }
{
    let mut count = 0usize;
    for k in 0..path.len() {
        let on = goes_on_at(rules, groups, path, k, count);
        if !on {
            return Ok(false);
        }
        let order = rules.order(k);
        join_at(groups, path[k] as usize, order)?;
        count = count.max(path[k] as usize + 1);
    }
    Ok(true)
}
