// One pass over a log, with the paths that are still to come.

ghost use Rattle.std.specs.Prelude.{◌≡◌, ◌<◌, ◌+◌, ◌↔◌, ℕ, drop, length, IfOk};
ghost use Rattle.std.specs.Prelude.{IfSome, IfNone, true, false, List, cond};
ghost use Rattle.std.specs.List.{list_all};
ghost use Rattle.list_laws.specs.Sets.{same_list};
ghost use Rattle.mill_model.specs.Log.{recorded, Refutes as LogRefutes};
ghost use Rattle.refute_log.specs.Rising.{comes_before, rises};
ghost use Rattle.refute_log.specs.Fits.{fits};
ghost use Rattle.mill_model.specs.Instance.{mill_of};
ghost use Rattle.mill_model.specs.Plan.{NoneLosesLess};
ghost use Rattle.mill_model.specs.Charges.{charge_of, Reaches};
ghost use Rattle.mill_model.specs.Log.{task_of};
ghost use Rattle.log_checker.specs.ByRules.{task_by};
ghost use Rattle.log_checker.specs.Verdict.{is_missing, is_stray, is_unsound, is_wrong, IsFirst};
ghost use Rattle.log_checker.specs.Verdict.{IsVerdict, verdict_from};
ghost use Rattle.log_checker.specs.Agenda.{wanted_path, to_come, is_within};
ghost use Rattle.log_checker.specs.declared.verdict.LogVerdict.TheVariants.{Missing, Stray};
ghost use Rattle.log_checker.specs.declared.verdict.LogVerdict.TheVariants.{Refutes, Unsound};
ghost use Rattle.least_slacks.specs.Keys.{HasRoom};

use crate::LogVerdict;
use crate::agenda::{Wanted, compare_wanted, open, path_of};
use crate::from_instance::rules_of;
use crate::grouped_path::GroupedPath;
use crate::rules::Rules;
use crate::sound::holds_up;
use least_slacks::SlackTables;
use mill_model::{Charges, Entry, Instance, OutOfMemory};
use refute_log::Log;
use std::alloc::Global;
use std::cmp::Ordering;

/// That a path has no record.
fn missing(alloc: Global, log: &[Entry], wanted: Wanted) -> Result<LogVerdict, OutOfMemory>
    requires { is_within (length log.now) wanted ≡ true }
    ensures { IfOk result (λ v. v ≡ Missing (wanted_path log.now wanted)) }
{
    let path = path_of(alloc, log, wanted)?;
    Ok(LogVerdict::Missing { path })
}

/// What is wrong where a record stands at another path than the next one that is wanted.
fn misplaced(
    alloc: Global,
    log: &[Entry],
    wanted: Wanted,
    entry: &Entry,
) -> Result<Option<LogVerdict>, OutOfMemory>
    requires { is_within (length log.now) wanted ≡ true }
    ensures apart { IfOk result (λ found. IfSome found (λ v.
        (same_list (wanted_path log.now wanted) entry.now.path ≡ false)
        × (v ≡ cond (comes_before (wanted_path log.now wanted) entry.now.path)
        (Missing (wanted_path log.now wanted)) (Stray entry.now.path)))) }
    ensures same { IfOk result (λ found.
        IfNone found (same_list (wanted_path log.now wanted) entry.now.path ≡ true)) }
{
    match compare_wanted(log, wanted, entry.path.numbers()) {
        Ordering::Less => {
            let verdict = missing(alloc, log, wanted)?;
            Ok(Some(verdict))
        }
        Ordering::Greater => Ok(Some(LogVerdict::Stray {
            path: entry.path.copy()?,
        })),
        Ordering::Equal => Ok(None),
    }
}

/// Judges one record, where the last waiting path is the next one that is wanted.
fn judge_record(
    alloc: Global,
    waiting: &mut Vec<Wanted>,
    tables: &mut SlackTables,
    rules: &Rules,
    log: &[Entry],
    i: usize,
    loss: u64,
) -> Result<Option<LogVerdict>, OutOfMemory>
    requires fits { list_all (fits (length rules.now.ranked.items)) log.now ≡ true }
    requires rising { rises (recorded log.now) ≡ true }
    requires here { i < length log.now }
    requires within { list_all (is_within (length log.now)) waiting.old.items ≡ true }
    requires room { HasRoom rules.now.largest rules.now.most_colours tables.old }
    ensures found { IfOk result (λ found. IfSome found (λ v. v ≡
        verdict_from (task_by rules.now) loss log.now (to_come log.now waiting.old.items)
        (drop i log.now))) }
    ensures goes { IfOk result (λ found. IfNone found (
        verdict_from (task_by rules.now) loss log.now (to_come log.now waiting.new.items)
        (drop (i + 1) log.now)
        ≡ verdict_from (task_by rules.now) loss log.now (to_come log.now waiting.old.items)
        (drop i log.now))) }
    ensures within { IfOk result (λ found.
        IfNone found (list_all (is_within (length log.now)) waiting.new.items ≡ true)) }
    ensures room { HasRoom rules.now.largest rules.now.most_colours tables.new }
{
    let entry = &log[i];
    let Some(wanted) = waiting.pop() else {
        let path = entry.path.copy()?;
        return Ok(Some(LogVerdict::Stray { path }));
    };
    match misplaced(alloc, log, wanted, entry)? {
        Some(verdict) => return Ok(Some(verdict)),
        None => {}
    }
    let grouped = GroupedPath::of(alloc, rules, entry.path.numbers())?;
    let good = holds_up(alloc, tables, log, &grouped, &entry.closing, loss)?;
    if !good {
        let path = entry.path.copy()?;
        return Ok(Some(LogVerdict::Unsound { path }));
    }
    open(waiting, &grouped, &entry.closing, i)?;
    Ok(None)
}

/// What is first wrong with a log.
fn check_by(
    alloc: Global,
    rules: &Rules,
    log: &[Entry],
    loss: u64,
) -> Result<LogVerdict, OutOfMemory>
    requires fits { list_all (fits (length rules.now.ranked.items)) log.now ≡ true }
    requires rising { rises (recorded log.now) ≡ true }
    ensures verdict { IfOk result (λ v. IsVerdict (task_by rules.now) loss log.now v) }
{
    let most = rules.most_colours as usize;
    let mut tables = SlackTables::new(alloc, rules.largest as usize, most)?;
    let mut waiting = Vec::new(alloc);
    waiting.push(Wanted::Root)?;
    for i in 0..log.len() {
        let found = judge_record(alloc, &mut waiting, &mut tables, rules, log, i, loss)?;
        match found {
            Some(verdict) => return Ok(verdict),
            None => {}
        }
    }
    match waiting.pop() {
        Some(wanted) => missing(alloc, log, wanted),
        None => Ok(LogVerdict::Refutes),
    }
}

/// Judges a log by the definitions alone: whether it refutes the loss, and if not the first wrong
/// path in rising order.
pub fn check_log(
    alloc: Global,
    instance: &Instance,
    charges: &Charges,
    loss: u64,
    log: &Log,
) -> Result<LogVerdict, OutOfMemory>
    requires orders { log.now.orders ≡ length instance.now.orders }
    requires reach { Reaches charges.now (mill_of instance.now) }
    ensures refutes { IfOk result (λ v. (v ≡ Refutes) ↔
        (LogRefutes (task_of instance.now (charge_of charges.now)) loss log.now.entries)) }
    ensures missing { (path : List ℕ) → IfOk result (λ v. (v ≡ Missing path) ↔
        (IsFirst (is_missing (task_of instance.now (charge_of charges.now)) log.now.entries)
        (is_wrong (task_of instance.now (charge_of charges.now)) loss log.now.entries) path)) }
    ensures stray { (path : List ℕ) → IfOk result (λ v. (v ≡ Stray path) ↔
        (IsFirst (is_stray (task_of instance.now (charge_of charges.now)) log.now.entries)
        (is_wrong (task_of instance.now (charge_of charges.now)) loss log.now.entries) path)) }
    ensures unsound { (path : List ℕ) → IfOk result (λ v. (v ≡ Unsound path) ↔
        (IsFirst (is_unsound (task_of instance.now (charge_of charges.now)) loss log.now.entries)
        (is_wrong (task_of instance.now (charge_of charges.now)) loss log.now.entries) path)) }
    ensures bound { IfOk result (λ v. v ≡ Refutes →
        NoneLosesLess (mill_of instance.now) (charge_of charges.now) instance.now.orders
        loss) }
{
    let rules = rules_of(alloc, instance, charges)?;
    let verdict = check_by(alloc, &rules, log.entries(), loss)?;
    Ok(verdict)
}
