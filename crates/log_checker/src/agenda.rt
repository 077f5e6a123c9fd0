// The paths that are still to come: their names, how they compare with others, and how the children
// of a split path join them.

ghost use Rattle.std.specs.Prelude.{◌≡◌, ◌<◌, ◌+◌, ◌++◌, ◌∷◌, [], ◌≤◌, cond, length, true};
ghost use Rattle.std.specs.Prelude.{IfOk, OnOk};
ghost use Rattle.mill_model.specs.Tree.{next_new, may_go_on};
ghost use Rattle.refute_log.specs.Rising.{path_order};
ghost use Rattle.log_checker.specs.Agenda.{is_within, is_split, opened, opened_from, wanted_path};
ghost use Rattle.log_checker.specs.ByRules.{mill_by};
ghost use Rattle.log_checker.specs.declared.agenda.Wanted.TheVariants.{Child};

use crate::grouped_path::GroupedPath;
use crate::tree::may_go_on;
use mill_model::{Closing, Entry, OutOfMemory, Path};
use refute_log::compare;
use std::alloc::Global;
use std::cmp::Ordering;

/// A path that is still to come.
#[derive(Clone, Copy)]
pub(crate) enum Wanted {
    /// The empty path.
    Root,
    /// The path of the record at the place `parent`, with one group number more.
    Child { parent: usize, group: u16 },
}

/// The path that is named.
pub(crate) fn path_of(alloc: Global, log: &[Entry], wanted: Wanted) -> Result<Path, OutOfMemory>
    requires { is_within (length log.now) wanted ≡ true }
    ensures { IfOk result (λ path. path ≡ wanted_path log.now wanted) }
{
    match wanted {
        Wanted::Root => Ok(Path::root(alloc)),
        Wanted::Child { parent, group } => log[parent].path.child(group),
    }
}

/// Compares the child of a path with another path.
fn compare_child(parent: &[u16], group: u16, path: &[u16]) -> Ordering
    ensures { result ≡ path_order (parent.now ++ group ∷ []) path.now }
{
    let (front, rest) = path.split_at(parent.len().min(path.len()));
    compare(parent, front).then(compare(&[group], rest))
}

/// Compares the path that is named with another path.
pub(crate) fn compare_wanted(log: &[Entry], wanted: Wanted, path: &[u16]) -> Ordering
    requires { is_within (length log.now) wanted ≡ true }
    ensures { result ≡ path_order (wanted_path log.now wanted) path.now }
{
    match wanted {
        Wanted::Root => compare(&[], path),
        Wanted::Child { parent, group } => compare_child(log[parent].path.numbers(), group, path),
    }
}

/// Lets a child of a record's path wait, if it is in the tree.
fn open_child(
    waiting: &mut Vec<Wanted>,
    path: &GroupedPath,
    parent: usize,
    group: u16,
) -> Result<(), OutOfMemory>
    requires within { length path.now.path.now < length path.now.rules.now.ranked.items }
    requires near { group ≤ next_new path.now.path.now }
    ensures { OnOk result (waiting.new.items ≡ waiting.old.items
        ++ cond (may_go_on (mill_by path.now.rules.now) path.now.rules.now.ranked.items
        path.now.path.now group) (Child parent group ∷ []) []) }
{
    if may_go_on(path.rules, &path.groups, path.path, group) {
        waiting.push(Wanted::Child { parent, group })?;
    }
    Ok(())
}

/// Lets the children of a record's path wait, the first of them last.
fn open_children(
    waiting: &mut Vec<Wanted>,
    path: &GroupedPath,
    parent: usize,
) -> Result<(), OutOfMemory>
    requires within { length path.now.path.now < length path.now.rules.now.ranked.items }
    ensures { OnOk result (waiting.new.items ≡ waiting.old.items
        ++ opened (may_go_on (mill_by path.now.rules.now) path.now.rules.now.ranked.items
        path.now.path.now) parent (next_new path.now.path.now + 1)
        (next_new path.now.path.now + 1)) }
{
    let top = path.groups.len() + 1;
    for j in 0..top {
        let group = (top - (j + 1)) as u16;
        open_child(waiting, path, parent, group)?;
    }
    Ok(())
}

/// Lets the children wait that the record at a place leaves open.
pub(crate) fn open(
    waiting: &mut Vec<Wanted>,
    path: &GroupedPath,
    closing: &Closing,
    place: usize,
) -> Result<(), OutOfMemory>
    requires split { is_split closing.now ≡ true →
        length path.now.path.now < length path.now.rules.now.ranked.items }
    ensures { OnOk result (waiting.new.items ≡ waiting.old.items
        ++ opened_from (mill_by path.now.rules.now) path.now.rules.now.ranked.items
        path.now.path.now place closing.now) }
{
    if let Closing::Split = closing {
        open_children(waiting, path, place)?;
    }
    Ok(())
}
