// The live groups of a path by their keys, and whether two paths have the same.

ghost use Rattle.std.specs.Prelude.{◌≡◌, ◌<◌, ◌≤◌, ◌+◌, IfOk, drop, length, true, false, slice_set};
ghost use Rattle.std.specs.Prelude.{IfSome, IfNone};
ghost use Rattle.std.specs.List.Sorted.{IsPermutation, IsSortedByKey};
ghost use Rattle.list_laws.specs.Sets.{different};
ghost use Rattle.mill_model.specs.LiveKey.{same_live_key};
ghost use Rattle.log_checker.specs.ByRules.{mill_by};
ghost use Rattle.log_checker.specs.Live.{lives};
ghost use Rattle.log_checker.specs.Keys.{key_order, key_in, IsKey, AreLive, AreComing, comes_in};
ghost use Rattle.log_checker.specs.Keys.{AreSorted, same_key, same_keys};
ghost use Rattle.log_checker.specs.PathGroups.{later, group_of};

use crate::grouped_path::GroupedPath;
use crate::groups::Group;
use crate::live::is_live;
use crate::rules::Rules;
use least_slacks::{Key, NO_COLOUR};
use mill_model::OutOfMemory;
use std::alloc::Global;

/// A live group with its number among the groups of its path.
#[derive(Clone, Copy, Debug, Drop)]
pub(crate) struct LiveGroup {
    pub(crate) key: Key,
    pub(crate) group: usize,
}

/// Puts a colour that comes again behind those that are there.
fn note_coming(coming: &mut [u16], count: usize, colour: u16, comes: bool) -> usize
    requires { count < length coming.old }
    ensures there { comes ≡ true →
        (coming.new ≡ slice_set coming.old count colour) × (result ≡ count + 1) }
    ensures not_there { comes ≡ false → (coming.new ≡ coming.old) × (result ≡ count) }
{
    if !comes {
        return count;
    }
    coming[count] = colour;
    count + 1
}

/// The colours of a group that come again, rising.
fn coming_colours(rules: &Rules, group: &Group, k: usize) -> [u16; 8]
    requires few { length group.now.colours ≤ 8 }
    requires once { length group.now.colours ≡ different group.now.colours }
    ensures { AreComing (comes_in (drop k rules.now.ranked.items) group.now) result }
{
    let colours = group.colours();
    let mut coming = [NO_COLOUR; 8];
    let mut count = 0;
    for i in 0..colours.len() {
        let comes = rules.comes(k, colours[i]);
        count = note_coming(&mut coming, count, colours[i], comes);
    }
    coming.sort_unstable();
    coming
}

/// A group as the later orders see it, where it is live.
fn live_group(path: &GroupedPath, g: usize) -> Option<LiveGroup>
    requires here { g < length path.now.groups.items }
    ensures some { IfSome result (λ live. (live.group ≡ g)
        × IsKey (later path.now) (group_of path.now g) live.key
        × (lives (mill_by path.now.rules.now) (later path.now) (group_of path.now g) ≡ true)) }
    ensures none { IfNone result
        (lives (mill_by path.now.rules.now) (later path.now) (group_of path.now g) ≡ false) }
{
    let group = &path.groups[g];
    let k = path.path.len();
    if !is_live(path.rules, group, k) {
        return None;
    }
    let coming = coming_colours(path.rules, group, k);
    let key = Key {
        coming,
        colours: group.colours().len(),
        load: group.load(),
    };
    Some(LiveGroup { key, group: g })
}

/// The live groups of a path, each with its key.
fn live_groups(alloc: Global, path: &GroupedPath) -> Result<Vec<LiveGroup>, OutOfMemory>
    ensures { IfOk result (λ live. AreLive (mill_by path.now.rules.now) (later path.now)
        path.now.groups.items live.items) }
{
    let mut live = Vec::new(alloc);
    for g in 0..path.groups.len() {
        match live_group(path, g) {
            Some(group) => live.push(group)?,
            None => {}
        }
    }
    Ok(live)
}

/// Sorts live groups by their keys.
fn sort(live: &mut Vec<LiveGroup>)
    ensures permutation { IsPermutation live.old.items live.new.items }
    ensures sorted { IsSortedByKey key_in key_order live.new.items }
{
    live.sort_unstable_by_key(|live| live.key);
}

/// The live groups of a path in the order of their keys.
pub(crate) fn sorted_live(alloc: Global, path: &GroupedPath) -> Result<Vec<LiveGroup>, OutOfMemory>
    ensures { IfOk result (λ live. AreSorted (mill_by path.now.rules.now) (later path.now)
        path.now.groups.items live.items) }
{
    let mut live = live_groups(alloc, path)?;
    sort(&mut live);
    Ok(live)
}

/// Whether two keys are the same.
fn same_key(a: Key, b: Key) -> bool
    ensures { result ≡ same_key a b }
{
    a == b
}

/// Whether two lists have the same keys, place by place.
fn same_keys(a: &[LiveGroup], b: &[LiveGroup]) -> bool
    ensures { result ≡ same_keys a.now b.now }
{
    if a.len() != b.len() {
        return false;
    }
    for i in 0..a.len() {
        if !same_key(a[i].key, b[i].key) {
            return false;
        }
    }
    true
}

/// Whether two paths of one length have the same live key.
pub(crate) fn same_live_key(
    alloc: Global,
    path: &GroupedPath,
    other: &GroupedPath,
) -> Result<bool, OutOfMemory>
    requires rules { other.now.rules.now ≡ path.now.rules.now }
    requires same { length other.now.path.now ≡ length path.now.path.now }
    ensures { IfOk result (λ yes. yes ≡ same_live_key (mill_by path.now.rules.now)
        path.now.rules.now.ranked.items path.now.path.now other.now.path.now) }
{
    let a = sorted_live(alloc, path)?;
    let b = sorted_live(alloc, other)?;
    Ok(same_keys(&a, &b))
}
