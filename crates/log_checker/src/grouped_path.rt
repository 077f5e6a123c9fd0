// A path with its groups, which are computed once for each path that a record names.

ghost use Rattle.std.specs.Prelude.{◌≡◌, ◌<◌, ◌≤◌, ◌+◌, true, false, IfOk, IfSome, IfNone, OnOk};
ghost use Rattle.std.specs.Prelude.{length, replicate, slice_index_or};
ghost use Rattle.mill_model.specs.Plan.{loss};
ghost use Rattle.mill_model.specs.Tree.{in_tree, next_new};
ghost use Rattle.refute_log.specs.Fits.{path_fits};
ghost use Rattle.log_checker.specs.Groups.{nothing_seen, AreGroups};
ghost use Rattle.log_checker.specs.ByRules.{mill_by, charge_by};
ghost use Rattle.mill_model.specs.declared.charges.TheConstants.{MAX_CHARGE};

use crate::groups::{Group, empty_groups, group_count, join_at};
use crate::rules::Rules;
use crate::tree::goes_through;
use mill_model::OutOfMemory;
use std::alloc::Global;

/// A path with its groups by number, and what it is judged by.
#[derive(Drop)]
pub(crate) struct GroupedPath<'a> {
    pub(crate) rules: &'a Rules,
    pub(crate) path: &'a [u16],
    pub(crate) groups: Vec<Group>,
    ghost within: { length path.now ≤ length rules.now.ranked.items },
    ghost few: { next_new path.now ≤ length rules.now.ranked.items },
    ghost grouped: { AreGroups groups.items path.now rules.now.ranked.items },
}

/// Puts each order of a path into its group.
fn fill_groups(groups: &mut [Group], rules: &Rules, path: &[u16]) -> Result<(), OutOfMemory>
    requires within { length path.now ≤ length rules.now.ranked.items }
    requires empty { groups.old ≡ replicate (next_new path.now) nothing_seen }
    ensures { OnOk result (AreGroups groups.new path.now rules.now.ranked.items) }
{
    for i in 0..path.len() {
        let order = rules.order(i);
        join_at(groups, path[i] as usize, order)?;
    }
    Ok(())
}

impl<'a> GroupedPath<'a> {
    /// Groups a path.
    pub(crate) fn of(
        alloc: Global,
        rules: &'a Rules,
        path: &'a [u16],
    ) -> Result<GroupedPath<'a>, OutOfMemory>
        requires { path_fits (length rules.now.ranked.items) path.now ≡ true }
        ensures rules { IfOk result (λ its. its.rules.now ≡ rules.now) }
        ensures path { IfOk result (λ its. its.path.now ≡ path.now) }
    {
        let mut groups = empty_groups(alloc, group_count(path))?;
        fill_groups(&mut groups, rules, path)?;
        Ok(GroupedPath {
            rules,
            path,
            groups,
        })
    }

    /// Groups a path, if it is in the tree.
    pub(crate) fn in_tree(
        alloc: Global,
        rules: &'a Rules,
        path: &'a [u16],
    ) -> Result<Option<GroupedPath<'a>>, OutOfMemory>
        requires { path_fits (length rules.now.ranked.items) path.now ≡ true }
        ensures some { IfOk result (λ found. IfSome found (λ its.
            (its.rules.now ≡ rules.now) × (its.path.now ≡ path.now)
            × (in_tree (mill_by rules.now) rules.now.ranked.items path.now ≡ true))) }
        ensures none { IfOk result (λ found. IfNone found
            (in_tree (mill_by rules.now) rules.now.ranked.items path.now ≡ false)) }
    {
        let mut groups = empty_groups(alloc, group_count(path))?;
        let inside = goes_through(&mut groups, rules, path)?;
        if !inside {
            return Ok(None);
        }
        Ok(Some(GroupedPath {
            rules,
            path,
            groups,
        }))
    }

    /// What the load of a group is charged.
    pub(crate) fn charge_of(&self, g: usize) -> u64
        requires here { g < length self.now.groups.items }
        ensures is { result ≡ charge_by self.now.rules.now
            (slice_index_or self.now.groups.items g nothing_seen).load }
        ensures small { result ≤ MAX_CHARGE }
    {
        self.rules.charge(self.groups[g].load())
    }

    /// What all groups are charged.
    pub(crate) fn charge(&self) -> u64
        ensures { result ≡
            loss (charge_by self.now.rules.now) self.now.path.now self.now.rules.now.ranked.items }
    {
        let mut sum = 0u64;
        for g in 0..self.groups.len() {
            sum += self.charge_of(g);
        }
        sum
    }
}
