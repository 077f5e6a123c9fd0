//! The words of a line, one after another: any word, a canonical number, or a list of numbers.
ghost use Rattle.std.specs.Prelude.{◌≡◌, ◌<◌, ◌≤◌, ◌+◌, ◌-◌, ◌^◌, ◌∷◌, ◌++◌, [], length, take};
ghost use Rattle.std.specs.Prelude.{drop, All, IsTrue, ◌↔◌, IfOk, IfSome, IfNone, OnErr, List, ℕ};
ghost use Rattle.std.specs.Prelude.{ℤ, min};
ghost use Rattle.std.specs.Fmt.{decimal, signed_decimal};
ghost use Rattle.line_text.specs.Words.{line_words, BeginsWith};
ghost use Rattle.line_text.specs.Numbers.{ordinal, ordinals, signed_numbers, IsWithin};
ghost use Rattle.line_text.specs.Numbers.{is_canonical};

use crate::digits::leading_digits;
use memchr::memchr;
use std::alloc::{AllocError, Global};
use std::marker::Model;

/// The words of a line that are still to be read.
///
/// One space stands between each two words of a right line, so two spaces have an empty word
/// between them, and a space at an end has one beside it. An empty word is no number.
#[derive(Drop)]
pub struct Words<'a> {
    rest: &'a [u8],
    ended: bool,
}

impl<'a> Model for Words<'a> {
    ghost use Rattle.std.specs.Prelude.{List, ℕ, [], if◌then◌else◌};
    ghost use Rattle.line_text.specs.Words.{line_words};

    ghost Value = { List (List ℕ) };

    ghost view = { λ words. if words.ended then [] else line_words words.rest.now };
}

impl<'a> Words<'a> {
    /// The words of this line.
    pub fn new(line: &'a [u8]) -> Words<'a>
        ensures { result ≡ line_words line.now }
    {
        Words {
            rest: line,
            ended: false,
        }
    }

    /// Whether no word is left.
    pub fn is_empty(&self) -> bool
        ensures { IsTrue result ↔ (self.now ≡ []) }
    {
        self.ended
    }

    /// The next word.
    pub fn next_word(&mut self) -> Option<&'a [u8]>
        ensures some { IfSome result (λ word. self.old ≡ word.now ∷ self.new) }
        ensures none { IfNone result ((self.old ≡ []) × (self.new ≡ [])) }
    {
        if self.ended {
            return None;
        }
        let line = self.rest;
        match memchr(b' ', line) {
            Some(end) => {
                self.rest = &line[end + 1..];
                Some(&line[..end])
            }
            None => {
                self.ended = true;
                Some(line)
            }
        }
    }

    /// The next word, where it is a canonical number that is at most the limit, whatever its
    /// length. Where it isn't, it is still the next word.
    pub fn next_number(&mut self, limit: u64) -> Option<u64>
        requires { limit < 2 ^ 64 - 1 }
        ensures some { IfSome result (λ number. self.old ≡ decimal number ∷ self.new) }
        ensures limit { IfSome result (λ number. number ≤ limit) }
        ensures none { IfNone result ((number : ℕ) → number ≤ limit
            → ¬ (BeginsWith self.old (decimal number ∷ []))) }
        ensures kept { IfNone result (self.new ≡ self.old) }
    {
        let Some((number, behind)) = self.number_ahead(limit) else {
            return None;
        };
        *self = behind;
        Some(number)
    }

    /// The next word, where it is a canonical number with a sign that is within the limit: a minus
    /// stands only before a canonical number other than 0. Where it isn't, it is still the next
    /// word.
    pub fn next_signed(&mut self, limit: u64) -> Option<i64>
        requires { limit < 2 ^ 63 }
        ensures some { IfSome result (λ number. self.old ≡ signed_decimal number ∷ self.new) }
        ensures limit { IfSome result (λ number. IsWithin limit number) }
        ensures none { IfNone result ((number : ℤ) → IsWithin limit number
            → ¬ (BeginsWith self.old (signed_decimal number ∷ []))) }
        ensures kept { IfNone result (self.new ≡ self.old) }
    {
        let Some((number, behind)) = self.signed_ahead(limit) else {
            return None;
        };
        *self = behind;
        Some(number)
    }

    /// A thing that is counted from 0, where the next word is its number counted from 1, and that
    /// number is at most `most`. Where it isn't, it is still the next word.
    pub fn next_ordinal(&mut self, most: u16) -> Option<u16>
        ensures some { IfSome result (λ thing. self.old ≡ ordinal thing ∷ self.new) }
        ensures limit { IfSome result (λ thing. thing < most) }
        ensures none { IfNone result ((thing : ℕ) → thing < most
            → ¬ (BeginsWith self.old (ordinal thing ∷ []))) }
        ensures kept { IfNone result (self.new ≡ self.old) }
    {
        let Some((number, behind)) = self.number_ahead(u64::from(most)) else {
            return None;
        };
        if number == 0 {
            return None;
        }
        *self = behind;
        Some((number - 1) as u16)
    }

    /// As many things as are counted, each counted from 0, where the next words are their numbers
    /// counted from 1, and these are at most `most`. Where they aren't, all of them are still the
    /// next words.
    pub fn next_ordinals(
        &mut self,
        alloc: Global,
        count: usize,
        most: u16,
    ) -> Result<Option<Vec<u16>>, AllocError>
        ensures some { IfOk result (λ read. IfSome read (λ things.
            self.old ≡ ordinals things.items ++ self.new)) }
        ensures count { IfOk result (λ read. IfSome read (λ things. length things.items ≡ count)) }
        ensures limit { IfOk result (λ read. IfSome read (λ things.
            All (λ thing. thing < most) things.items)) }
        ensures none { IfOk result (λ read. IfNone read ((things : List ℕ) → length things ≡ count
            → All (λ thing. thing < most) things → ¬ (BeginsWith self.old (ordinals things)))) }
        ensures kept { IfOk result (λ read. IfNone read (self.new ≡ self.old)) }
        ensures err { OnErr result (self.new ≡ self.old) }
    {
        let mut things = Vec::with_capacity(alloc, count)?;
        let mut ahead = self.copy();
        for _ in 0..count {
            match ahead.next_ordinal(most) {
                Some(thing) => things.push(thing)?,
                None => return Ok(None),
            }
        }
        *self = ahead;
        Ok(Some(things))
    }

    /// As many numbers with a sign as are counted, within the limit, where these are the next
    /// words. Where they aren't, all of them are still the next words.
    pub fn next_signed_numbers(
        &mut self,
        alloc: Global,
        count: usize,
        limit: u64,
    ) -> Result<Option<Vec<i64>>, AllocError>
        requires { limit < 2 ^ 63 }
        ensures some { IfOk result (λ read. IfSome read (λ numbers.
            self.old ≡ signed_numbers numbers.items ++ self.new)) }
        ensures count { IfOk result (λ read. IfSome read (λ numbers.
            length numbers.items ≡ count)) }
        ensures limit { IfOk result (λ read. IfSome read (λ numbers.
            All (IsWithin limit) numbers.items)) }
        ensures none { IfOk result (λ read. IfNone read ((numbers : List ℤ) → length numbers ≡ count
            → All (IsWithin limit) numbers → ¬ (BeginsWith self.old (signed_numbers numbers)))) }
        ensures kept { IfOk result (λ read. IfNone read (self.new ≡ self.old)) }
        ensures err { OnErr result (self.new ≡ self.old) }
    {
        let mut numbers = Vec::with_capacity(alloc, count)?;
        let mut ahead = self.copy();
        for _ in 0..count {
            match ahead.next_signed(limit) {
                Some(number) => numbers.push(number)?,
                None => return Ok(None),
            }
        }
        *self = ahead;
        Ok(Some(numbers))
    }

    // The same words once more.
    fn copy(&self) -> Words<'a>
        ensures { result ≡ self.now }
    {
        Words {
            rest: self.rest,
            ended: self.ended,
        }
    }

    // The number that is the next word, and the words behind it.
    fn number_ahead(&self, limit: u64) -> Option<(u64, Words<'a>)>
        requires { limit < 2 ^ 64 - 1 }
        ensures some { IfSome result (λ found. self.now ≡ decimal found.0 ∷ found.1) }
        ensures limit { IfSome result (λ found. found.0 ≤ limit) }
        ensures none { IfNone result ((number : ℕ) → number ≤ limit
            → ¬ (BeginsWith self.now (decimal number ∷ []))) }
    {
        if self.ended {
            return None;
        }
        number_on(self.rest, limit)
    }

    // The number with a sign that is the next word, and the words behind it.
    fn signed_ahead(&self, limit: u64) -> Option<(i64, Words<'a>)>
        requires { limit < 2 ^ 63 }
        ensures some { IfSome result (λ found. self.now ≡ signed_decimal found.0 ∷ found.1) }
        ensures limit { IfSome result (λ found. IsWithin limit found.0) }
        ensures none { IfNone result ((number : ℤ) → IsWithin limit number
            → ¬ (BeginsWith self.now (signed_decimal number ∷ []))) }
    {
        if self.ended {
            return None;
        }
        match self.rest {
            [b'-', amount @ ..] => negative_behind(amount, limit),
            _ => {
                let Some((number, behind)) = number_on(self.rest, limit) else {
                    return None;
                };
                Some((number as i64, behind))
            }
        }
    }
}

// The number that is the first word of a line, and the words behind it.
fn number_on<'a>(line: &'a [u8], limit: u64) -> Option<(u64, Words<'a>)>
    requires { limit < 2 ^ 64 - 1 }
    ensures some { IfSome result (λ found. line_words line.now ≡ decimal found.0 ∷ found.1) }
    ensures limit { IfSome result (λ found. found.0 ≤ limit) }
    ensures none { IfNone result ((number : ℕ) → number ≤ limit
        → ¬ (BeginsWith (line_words line.now) (decimal number ∷ []))) }
{
    let (count, number) = leading_digits(line);
    if !is_canonical(&line[..count]) {
        return None;
    }
    if number > limit {
        return None;
    }
    if count == line.len() {
        let behind = Words {
            rest: line,
            ended: true,
        };
        return Some((number, behind));
    }
    if line[count] != b' ' {
        return None;
    }
    let behind = Words::new(&line[count + 1..]);
    Some((number, behind))
}

// The number whose amount stands on a line behind a minus, and the words behind it.
fn negative_behind<'a>(amount: &'a [u8], limit: u64) -> Option<(i64, Words<'a>)>
    requires { limit < 2 ^ 63 }
    ensures some { IfSome result (λ found.
        line_words (45 ∷ amount.now) ≡ signed_decimal found.0 ∷ found.1) }
    ensures limit { IfSome result (λ found. IsWithin limit found.0) }
    ensures none { IfNone result ((number : ℤ) → IsWithin limit number
        → ¬ (BeginsWith (line_words (45 ∷ amount.now)) (signed_decimal number ∷ []))) }
{
    let Some((number, behind)) = number_on(amount, limit) else {
        return None;
    };
    if number == 0 {
        return None;
    }
    Some((-(number as i64), behind))
}

fn is_canonical(digits: &[u8]) -> bool
    ensures { result ≡ is_canonical digits.now }
{
    match digits.len() {
        0 => false,
        1 => true,
        _ => digits[0] != b'0',
    }
}
