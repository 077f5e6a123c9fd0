// Records of dominated paths: the named path has a record that isn't dominated, is in the tree, and
// has the same live key and no greater dead loss.

ghost use Rattle.std.specs.Prelude.{◌≡◌, ◌<◌, ◌-◌, ◌&&◌, IfOk, true, leb, length};
ghost use Rattle.mill_model.specs.LiveKey.{same_live_key, dead_loss};
ghost use Rattle.mill_model.specs.Log.{recorded, is_settled, is_dominated};
ghost use Rattle.mill_model.specs.declared.closing.Closing.TheVariants.{Dominated};
ghost use Rattle.refute_log.specs.Rising.{rises};
ghost use Rattle.refute_log.specs.Fits.{path_fits};
ghost use Rattle.log_checker.specs.ByRules.{mill_by, task_by, charge_by};
ghost use Rattle.log_checker.specs.Verdict.{holds_up};

use crate::grouped_path::GroupedPath;
use crate::keys::same_live_key;
use crate::tree::starts_class;
use mill_model::{Closing, Entry, OutOfMemory};
use refute_log::compare;
use std::alloc::Global;
use std::cmp::Ordering;

fn is_dominated(closing: &Closing) -> bool
    ensures { result ≡ is_dominated closing.now }
{
    match closing {
        Closing::Dominated(_) => true,
        _ => false,
    }
}

/// Whether a path has a record that isn't dominated.
fn is_settled(log: &[Entry], path: &[u16]) -> bool
    requires { rises (recorded log.now) ≡ true }
    ensures { result ≡ is_settled log.now path.now }
{
    let mut low = 0usize;
    let mut high = log.len();
    while low < high {
        let middle = low + (high - low) / 2;
        let entry = &log[middle];
        match compare(entry.path.numbers(), path) {
            Ordering::Less => low = middle + 1,
            Ordering::Greater => high = middle,
            Ordering::Equal => return !is_dominated(&entry.closing),
        }
    }
    false
}

/// Whether a path has the live key of another of its length, and no less dead loss.
fn is_carried(alloc: Global, path: &GroupedPath, other: &GroupedPath) -> Result<bool, OutOfMemory>
    requires rules { other.now.rules.now ≡ path.now.rules.now }
    requires same { length other.now.path.now ≡ length path.now.path.now }
    ensures { IfOk result (λ yes. yes ≡
        (same_live_key (mill_by path.now.rules.now) path.now.rules.now.ranked.items
        path.now.path.now other.now.path.now
        && leb (dead_loss (mill_by path.now.rules.now) (charge_by path.now.rules.now)
        path.now.rules.now.ranked.items other.now.path.now)
        (dead_loss (mill_by path.now.rules.now) (charge_by path.now.rules.now)
        path.now.rules.now.ranked.items path.now.path.now))) }
{
    if !same_live_key(alloc, path, other)? {
        return Ok(false);
    }
    let dead = path.dead_charge();
    let other_dead = other.dead_charge();
    Ok(other_dead <= dead)
}

/// Whether a dominated record is sound, and what it names is settled.
pub(crate) fn dominated_holds_up(
    alloc: Global,
    log: &[Entry],
    path: &GroupedPath,
    other: &[u16],
    loss: u64,
) -> Result<bool, OutOfMemory>
    requires fits { path_fits (length path.now.rules.now.ranked.items) other.now ≡ true }
    requires same { length other.now ≡ length path.now.path.now }
    requires rising { rises (recorded log.now) ≡ true }
    ensures { IfOk result (λ yes. yes ≡ holds_up (task_by path.now.rules.now) loss log.now
        (record { path = path.now.path.now; closing = Dominated other.now })) }
{
    if !is_settled(log, other) {
        return Ok(false);
    }
    if !starts_class(path.rules, path.path.len()) {
        return Ok(false);
    }
    let found = GroupedPath::in_tree(alloc, path.rules, other)?;
    match found {
        Some(named) => is_carried(alloc, path, &named),
        None => Ok(false),
    }
}
