// Records by prices: the least slack of each group of a path, the sum of them and of the prices.

ghost use Rattle.std.specs.Prelude.{◌≡◌, ◌<◌, ◌≤◌, ◌+◌, ◌*◌, ℕ, IfOk, All, length, map};
ghost use Rattle.std.specs.Prelude.{slice_index_or, slice_set, ◌-ℤ◌, ◌*ℤ◌, pos, int_lt};
ghost use Rattle.list_laws.specs.Sets.{int_sum};
ghost use Rattle.mill_model.specs.Limits.{IsPrice};
ghost use Rattle.mill_model.specs.Log.{sound};
ghost use Rattle.mill_model.specs.Tree.{next_new};
ghost use Rattle.mill_model.specs.declared.closing.Closing.TheVariants.{Priced};
ghost use Rattle.mill_model.specs.declared.order.TheConstants.{MAX_ORDERS};
ghost use Rattle.set_minima.specs.Cells.{IsSmall, slack_limit};
ghost use Rattle.least_slacks.specs.Keys.{HasRoom};
ghost use Rattle.log_checker.specs.ByRules.{mill_by, task_by, charge_by};
ghost use Rattle.log_checker.specs.Keys.{AreSorted, key_in};
ghost use Rattle.log_checker.specs.PathGroups.{group_of, later};
ghost use Rattle.log_checker.specs.Slacks.{AreLiveSlacks, AreSlacks, slack_of};

use crate::grouped_path::GroupedPath;
use crate::keys::{LiveGroup, sorted_live};
use least_slacks::{Key, SlackTables, least_slacks};
use mill_model::OutOfMemory;
use std::alloc::Global;

/// The keys of some live groups.
fn keys_of(alloc: Global, live: &[LiveGroup]) -> Result<Vec<Key>, OutOfMemory>
    ensures { IfOk result (λ keys. keys.items ≡ map key_in live.now) }
{
    let keys = live.iter().map(|live| live.key).collect(alloc)?;
    Ok(keys)
}

/// Notes the slack of a group.
fn set_slack(slacks: &mut Vec<i64>, g: usize, slack: i64)
    requires { g < length slacks.old.items }
    ensures { slacks.new.items ≡ slice_set slacks.old.items g slack }
{
    slacks[g] = slack;
}

/// What each group is charged, 60 times.
fn charges_of(alloc: Global, path: &GroupedPath) -> Result<Vec<i64>, OutOfMemory>
    ensures long { IfOk result (λ slacks. length slacks.items ≡ length path.now.groups.items) }
    ensures small { IfOk result (λ slacks. All (IsSmall slack_limit) slacks.items) }
    ensures each { IfOk result (λ slacks. (g : ℕ) → g < length path.now.groups.items →
        slice_index_or slacks.items g (pos 0)
        ≡ pos (60 * charge_by path.now.rules.now (group_of path.now g).load)) }
{
    let mut slacks = Vec::new(alloc);
    for g in 0..path.groups.len() {
        slacks.push((60 * path.charge_of(g)) as i64)?;
    }
    Ok(slacks)
}

/// The least slack of each group of a path, where those of the live ones are given.
fn slacks_of(
    alloc: Global,
    path: &GroupedPath,
    prices: &[i64],
    live: &[LiveGroup],
    least: &[i64],
) -> Result<Vec<i64>, OutOfMemory>
    requires same { length path.now.path.now + length prices.now
        ≡ length path.now.rules.now.ranked.items }
    requires live { AreSorted (mill_by path.now.rules.now) (later path.now) path.now.groups.items
        live.now }
    requires long { length least.now ≡ length live.now }
    requires least { AreLiveSlacks (slack_of path.now prices.now) live.now least.now }
    ensures { IfOk result (λ slacks. AreSlacks (next_new path.now.path.now)
        (slack_of path.now prices.now) slacks.items) }
{
    let mut slacks = charges_of(alloc, path)?;
    for i in 0..live.len() {
        set_slack(&mut slacks, live[i].group, least[i]);
    }
    Ok(slacks)
}

/// The sum of some numbers.
fn sum_of(numbers: &[i64]) -> i64
    requires few { length numbers.now ≤ MAX_ORDERS }
    requires small { All (IsSmall slack_limit) numbers.now }
    ensures is { result ≡ int_sum numbers.now }
    ensures small { IsSmall 30720000000000000 result }
{
    let mut sum = 0;
    for number in numbers {
        sum += *number;
    }
    sum
}

/// Whether a worth is greater than 60 times any lesser loss.
fn exceeds(worth: i64, loss: u64) -> bool
    ensures { result ≡ int_lt (pos 60 *ℤ (pos loss -ℤ pos 1)) worth }
{
    60 * (loss as i128 - 1) < worth as i128
}

/// Whether prices of the later orders of a path are valid, and worth more than any lesser loss.
pub(crate) fn priced_is_sound(
    alloc: Global,
    tables: &mut SlackTables,
    path: &GroupedPath,
    prices: &[i64],
    loss: u64,
) -> Result<bool, OutOfMemory>
    requires same { length path.now.path.now + length prices.now
        ≡ length path.now.rules.now.ranked.items }
    requires priced { All IsPrice prices.now }
    requires room { HasRoom path.now.rules.now.largest path.now.rules.now.most_colours tables.old }
    ensures is { IfOk result (λ yes. yes ≡ sound (task_by path.now.rules.now) loss
        path.now.path.now (Priced prices.now)) }
    ensures room { HasRoom path.now.rules.now.largest path.now.rules.now.most_colours tables.new }
{
    let rest = path.rules.later(path.path.len());
    let live = sorted_live(alloc, path)?;
    let keys = keys_of(alloc, &live)?;
    let limits = path.rules.limits();
    let found = least_slacks(alloc, tables, &limits, rest, prices, &keys)?;
    let Some(least) = found else {
        return Ok(false);
    };
    let slacks = slacks_of(alloc, path, prices, &live, &least)?;
    Ok(exceeds(sum_of(&slacks) + sum_of(prices), loss))
}
