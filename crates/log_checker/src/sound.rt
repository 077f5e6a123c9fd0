// Whether one record holds up: it is sound, and names no path that isn't settled.

ghost use Rattle.std.specs.Prelude.{◌≡◌, ◌<◌, ◌&&◌, IfOk, true, length};
ghost use Rattle.mill_model.specs.Log.{sound, recorded};
ghost use Rattle.mill_model.specs.declared.closing.Closing.TheVariants.{Leaf};
ghost use Rattle.refute_log.specs.Rising.{rises};
ghost use Rattle.refute_log.specs.Fits.{closing_fits};
ghost use Rattle.least_slacks.specs.Keys.{HasRoom};
ghost use Rattle.log_checker.specs.ByRules.{task_by};
ghost use Rattle.log_checker.specs.Verdict.{holds_up};

use crate::dominated::dominated_holds_up;
use crate::grouped_path::GroupedPath;
use crate::priced::priced_is_sound;
use least_slacks::SlackTables;
use mill_model::{Closing, Entry, OutOfMemory};
use std::alloc::Global;

/// Whether a path gives each order a group, and its plan loses at least the bound.
fn leaf_is_sound(path: &GroupedPath, loss: u64) -> bool
    ensures { result ≡ sound (task_by path.now.rules.now) loss path.now.path.now Leaf }
{
    path.path.len() == path.rules.ranked.len() && loss <= path.charge()
}

/// Whether the record of a path holds up in its log.
pub(crate) fn holds_up(
    alloc: Global,
    tables: &mut SlackTables,
    log: &[Entry],
    path: &GroupedPath,
    closing: &Closing,
    loss: u64,
) -> Result<bool, OutOfMemory>
    requires fits { closing_fits (length path.now.rules.now.ranked.items)
        (length path.now.path.now) closing.now ≡ true }
    requires rising { rises (recorded log.now) ≡ true }
    requires room { HasRoom path.now.rules.now.largest path.now.rules.now.most_colours tables.old }
    ensures is { IfOk result (λ yes. yes ≡ holds_up (task_by path.now.rules.now) loss log.now
        (record { path = path.now.path.now; closing = closing.now })) }
    ensures room { HasRoom path.now.rules.now.largest path.now.rules.now.most_colours tables.new }
{
    match closing {
        Closing::Split => Ok(path.path.len() < path.rules.ranked.len()),
        Closing::Leaf => Ok(leaf_is_sound(path, loss)),
        Closing::Priced(prices) => priced_is_sound(alloc, tables, path, prices.list(), loss),
        Closing::Dominated(other) => dominated_holds_up(alloc, log, path, other.numbers(), loss),
    }
}
