//! Words, read as a job: a command with its options and their numbers, or the first wrong word.
ghost use Rattle.std.specs.Prelude.{
  ◌≡◌,
  ℕ,
  ◌+◌,
  ◌<◌,
  ◌≤◌,
  Ok,
  Err,
  Some,
  length,
  take,
  slice_get,
  IfOk,
  OnOk,
  IfErr,
  IfSome,
  IfNone,
};
ghost use Rattle.std.specs.Str.Parse.{digits_value};
ghost use Rattle.job_words.specs.Options.{rule_of};
ghost use Rattle.job_words.specs.Words.{
  AskFor,
  IsInRange,
  IsNumberFor,
  IsWrongAt,
  spelling,
  texts,
};
ghost use Rattle.job_words.specs.Reading.{HasRead};

use crate::command::{Command, command_of};
use crate::job::{Job, Usage};
use crate::numbers::Numbers;
use crate::option::{COLOURS, MOVES, NODES, ORDERS, Rule, SEED, WORKERS, rule_for};
use mill_model::Limits;

// The number that a word gives to an option.
fn number_of(word: &str, rule: Rule) -> Option<u64>
    requires { rule ≡ rule_of rule.setting }
    ensures some { IfSome result (λ number. IsNumberFor rule.setting word.now) }
    ensures number { IfSome result (λ number. number ≡ digits_value 10 word.now) }
    ensures none { IfNone result (IsNumberFor rule.setting word.now → ⊥) }
{
    if word.as_bytes().first() == Some(&b'+') {
        return None;
    }
    let Ok(number) = word.parse::<u64>() else {
        return None;
    };
    if number < rule.least || number > rule.greatest {
        return None;
    }
    Some(number)
}

// Reads the option whose name stands at a place.
fn read_option(
    words: &[String],
    place: usize,
    command: Command,
    numbers: &mut Numbers,
) -> Result<(), Usage>
    requires within { place < length words.now }
    requires read { HasRead command (take place (texts words.now)) numbers.old }
    ensures read { OnOk result (HasRead command (take (place + 2) (texts words.now)) numbers.new) }
    ensures within { OnOk result (place + 2 ≤ length words.now) }
    ensures usage { IfErr result (λ usage. IsWrongAt (texts words.now) usage.word) }
{
    let Some(rule) = rule_for(&words[place], command) else {
        return Err(Usage { word: place });
    };
    if numbers.of(rule.setting).is_some() {
        return Err(Usage { word: place });
    }
    let Some(word) = words.get(place + 1) else {
        return Err(Usage { word: place + 1 });
    };
    let Some(number) = number_of(word, rule) else {
        return Err(Usage { word: place + 1 });
    };
    numbers.give(rule.setting, number);
    Ok(())
}

// Reads the options behind a command.
fn read_options(words: &[String], command: Command) -> Result<Numbers, Usage>
    requires { slice_get (texts words.now) 0 ≡ Some (spelling command) }
    ensures read { IfOk result (HasRead command (texts words.now)) }
    ensures usage { IfErr result (λ usage. IsWrongAt (texts words.now) usage.word) }
{
    let mut numbers = Numbers::none();
    let mut place = 1;
    while place < words.len() {
        read_option(words, place, command, &mut numbers)?;
        place += 2;
    }
    Ok(numbers)
}

// The job of a command with the numbers that its options give.
fn job_of(words: &[String], command: Command, numbers: Numbers) -> Job
    requires { HasRead command (texts words.now) numbers }
    ensures { AskFor (texts words.now) result }
{
    let limits = Limits {
        nodes: numbers.by(NODES),
        moves: numbers.by(MOVES),
        workers: numbers.by(WORKERS) as u16,
    };
    Job {
        command,
        limits,
        p: numbers.by(COLOURS) as u8,
        seed: numbers.by(SEED) as u32,
        orders: numbers.by(ORDERS) as u16,
    }
}

/// Reads the words after the program's name: a command, and options behind it.
pub fn read_words(words: &[String]) -> Result<Job, Usage>
    ensures job { IfOk result (AskFor (texts words.now)) }
    ensures in_range { IfOk result IsInRange }
    ensures asked { (job : Job) → AskFor (texts words.now) job → result ≡ Ok job }
    ensures usage { IfErr result (λ usage. IsWrongAt (texts words.now) usage.word) }
    ensures wrong { (place : ℕ) → IsWrongAt (texts words.now) place
        → result ≡ Err (record { word = place }) }
{
    let Some(word) = words.first() else {
        return Err(Usage { word: 0 });
    };
    let Some(command) = command_of(word) else {
        return Err(Usage { word: 0 });
    };
    let numbers = read_options(words, command)?;
    Ok(job_of(words, command, numbers))
}
