//! The text of a log, read line by line, with the first line that is wrong.
ghost use Rattle.std.specs.Prelude.{◌≡◌, ◌≢◌, ◌<◌, ◌≤◌, ◌+◌, ◌^◌, ◌∷◌, ◌++◌, [], length, true};
ghost use Rattle.std.specs.Prelude.{IfSome, IfNone, Ok, Err, ℕ};
ghost use Rattle.line_text.specs.Lines.{text_lines};
ghost use Rattle.line_text.specs.Words.{BeginsWith};
ghost use Rattle.mill_model.specs.Log.{recorded};
ghost use Rattle.mill_model.specs.declared.limits.TheConstants.{MAX_NODES};
ghost use Rattle.refute_log.specs.Rising.{rises};
ghost use Rattle.refute_log.specs.Logged.{Logged};
ghost use Rattle.refute_log.specs.Text.{first_line, IsLogText};
ghost use Rattle.refute_log.specs.Judged.{IsBadLine, IsNotRising, CountIsOther, Says, ComesWhere};
ghost use Rattle.refute_log.specs.declared.error.LogTextError.TheVariants.{BadLine, NotRising};
ghost use Rattle.refute_log.specs.declared.error.LogTextError.TheVariants.{CountDiffers};

use crate::error::LogTextError;
use crate::log::Log;
use crate::paths::compare;
use crate::record::record_on;
use line_text::{Lines, Words, is_end};
use mill_model::{Entry, MAX_NODES};
use std::alloc::Global;
use std::cmp::Ordering;

/// The log for this number of orders that a text stands for. Lines are counted from 1.
pub fn parse_log(alloc: Global, orders: u16, bytes: &[u8]) -> Result<Log, LogTextError>
    ensures log { (log : Logged) → ComesWhere result (Ok log)
        ((log.orders ≡ orders) × IsLogText log (text_lines bytes.now)) }
    ensures bad_line { (line : ℕ) → ComesWhere result (Err (BadLine line))
        (IsBadLine orders 1 (text_lines bytes.now) line) }
    ensures not_rising { (line : ℕ) → ComesWhere result (Err (NotRising line))
        (IsNotRising orders 1 (text_lines bytes.now) line) }
    ensures count_differs { (stated found : ℕ) → ComesWhere result (Err (CountDiffers stated found))
        (CountIsOther orders (text_lines bytes.now) stated found) }
{
    read_log(alloc, orders, Lines::new(bytes), 1)
}

/// The log that the lines that are left of a longer text stand for, to its end. The first of them
/// has the number `first`, from which lines are counted.
pub fn read_log(alloc: Global, orders: u16, lines: Lines, first: u64) -> Result<Log, LogTextError>
    requires { first + length lines < 2 ^ 64 }
    ensures log { (log : Logged) → ComesWhere result (Ok log)
        ((log.orders ≡ orders) × IsLogText log lines.entry) }
    ensures bad_line { (line : ℕ) → ComesWhere result (Err (BadLine line))
        (IsBadLine orders first lines.entry line) }
    ensures not_rising { (line : ℕ) → ComesWhere result (Err (NotRising line))
        (IsNotRising orders first lines.entry line) }
    ensures count_differs { (stated found : ℕ) → ComesWhere result (Err (CountDiffers stated found))
        (CountIsOther orders lines.entry stated found) }
{
    judged(alloc, orders, lines, first)
}

// What the lines of a log stand for, or what is wrong with them.
fn judged(alloc: Global, orders: u16, mut lines: Lines, first: u64) -> Result<Log, LogTextError>
    requires { first + length lines < 2 ^ 64 }
    ensures { Says orders first lines.entry result }
{
    let Some(stated) = next_count(&mut lines) else {
        return Err(LogTextError::BadLine { line: first });
    };
    let mut entries: Vec<Entry> = Vec::new(alloc);
    while let Some(line) = lines.next_line() {
        let found = entries.len() as u64;
        if is_end(line) {
            return match lines.first_filled() {
                Some(behind) => Err(LogTextError::BadLine {
                    line: first + found + 2 + behind,
                }),
                None if stated != found => Err(LogTextError::CountDiffers { stated, found }),
                None => Ok(Log::from_rising(orders, entries)),
            };
        }
        let line_number = first + found + 1;
        let read = record_on(alloc, orders, line)?;
        let Some(entry) = read else {
            return Err(LogTextError::BadLine { line: line_number });
        };
        if !rises_with(&entries, entry.path.numbers()) {
            return Err(LogTextError::NotRising { line: line_number });
        }
        entries.push(entry)?;
    }
    Err(LogTextError::BadLine {
        line: first + entries.len() as u64 + 1,
    })
}

// The number of records that the next line states, if it is the first line of a log.
fn next_count(lines: &mut Lines) -> Option<u64>
    ensures some { IfSome result (λ count. lines.old ≡ first_line count ∷ lines.new) }
    ensures limit { IfSome result (λ count. count ≤ MAX_NODES) }
    ensures none { IfNone result ((count : ℕ) → count ≤ MAX_NODES
        → ¬ (BeginsWith lines.old (first_line count ∷ []))) }
{
    let Some(line) = lines.next_line() else {
        return None;
    };
    count_on(line)
}

// The number of records that a line states, if it is the first line of a log.
fn count_on(line: &[u8]) -> Option<u64>
    ensures some { IfSome result (λ count. line.now ≡ first_line count) }
    ensures limit { IfSome result (λ count. count ≤ MAX_NODES) }
    ensures none { IfNone result ((count : ℕ) → count ≤ MAX_NODES
        → line.now ≢ first_line count) }
{
    let mut words = Words::new(line);
    if words.next_word() != Some(b"log".as_slice()) {
        return None;
    }
    if words.next_word() != Some(b"1".as_slice()) {
        return None;
    }
    let Some(count) = words.next_number(MAX_NODES) else {
        return None;
    };
    if words.is_empty() { Some(count) } else { None }
}

// Whether records with rising paths rise with one more path.
fn rises_with(entries: &[Entry], path: &[u16]) -> bool
    requires { rises (recorded entries.now) ≡ true }
    ensures { result ≡ rises (recorded entries.now ++ path.now ∷ []) }
{
    match entries.last() {
        Some(last) => compare(last.path.numbers(), path) == Ordering::Less,
        None => true,
    }
}
