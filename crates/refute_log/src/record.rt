//! The line of one record, read.
ghost use Rattle.std.specs.Prelude.{◌≡◌, ◌≢◌, ◌<◌, ◌≤◌, ◌++◌, true, IfOk, IfSome, IfNone, List, ℕ};
ghost use Rattle.line_text.specs.Words.{line_words, BeginsWith};
ghost use Rattle.mill_model.specs.declared.closing.Entry.{Entry};
ghost use Rattle.mill_model.specs.declared.closing.Closing.{Closing};
ghost use Rattle.refute_log.specs.Fits.{fits, closing_fits};
ghost use Rattle.refute_log.specs.Text.{letter_of, closing_words, record_words};

use line_text::Words;
use mill_model::{Closing, Entry, MAX_PRICE, OutOfMemory, Path, Prices};
use std::alloc::Global;

/// The record that a line stands for, if it stands for one.
pub fn record_on(alloc: Global, orders: u16, line: &[u8]) -> Result<Option<Entry>, OutOfMemory>
    ensures some { IfOk result (λ read. IfSome read (λ entry.
        line_words line.now ≡ record_words entry)) }
    ensures fit { IfOk result (λ read. IfSome read (λ entry. fits orders entry ≡ true)) }
    ensures none { IfOk result (λ read. IfNone read ((entry : Entry) → fits orders entry ≡ true
        → line_words line.now ≢ record_words entry)) }
{
    let mut words = Words::new(line);
    let Some(letter) = words.next_word() else {
        return Ok(None);
    };
    let Some(depth) = words.next_number(orders as u64) else {
        return Ok(None);
    };
    let depth = depth as u16;
    let read = words.next_ordinals(alloc, depth as usize, orders)?;
    let Some(path) = read else {
        return Ok(None);
    };
    let read = next_closing(alloc, orders, depth, letter, &mut words)?;
    let Some(closing) = read else {
        return Ok(None);
    };
    if !words.is_empty() {
        return Ok(None);
    }
    let path = Path::from_list(path);
    Ok(Some(Entry { path, closing }))
}

/// What closes a path of this length, by the letter of its line and the words behind the path.
fn next_closing(
    alloc: Global,
    orders: u16,
    depth: u16,
    letter: &[u8],
    words: &mut Words,
) -> Result<Option<Closing>, OutOfMemory>
    requires { depth ≤ orders }
    ensures some { IfOk result (λ read. IfSome read (λ closing.
        words.old ≡ closing_words closing ++ words.new)) }
    ensures letter { IfOk result (λ read. IfSome read (λ closing. letter.now ≡ letter_of closing)) }
    ensures fit { IfOk result (λ read. IfSome read (λ closing.
        closing_fits orders depth closing ≡ true)) }
    ensures none { IfOk result (λ read. IfNone read ((closing : Closing)
        → closing_fits orders depth closing ≡ true → letter.now ≡ letter_of closing
        → ¬ (BeginsWith words.old (closing_words closing)))) }
{
    match letter {
        [b'S'] => Ok(Some(Closing::Split)),
        [b'L'] => Ok(Some(Closing::Leaf)),
        [b'P'] => {
            let count = (orders - depth) as usize;
            let read = words.next_signed_numbers(alloc, count, MAX_PRICE)?;
            match read {
                Some(prices) => Ok(Some(Closing::Priced(Prices::from_list(prices)))),
                None => Ok(None),
            }
        }
        [b'D'] => {
            let read = words.next_ordinals(alloc, depth as usize, orders)?;
            match read {
                Some(other) => Ok(Some(Closing::Dominated(Path::from_list(other)))),
                None => Ok(None),
            }
        }
        _ => Ok(None),
    }
}
