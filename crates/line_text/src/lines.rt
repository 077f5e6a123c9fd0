//! The lines of a text, one after another, and white space.
ghost use Rattle.std.specs.Prelude.{◌≡◌, ◌<◌, ◌≤◌, ◌^◌, ◌∷◌, [], length, IfSome, IfNone};
ghost use Rattle.line_text.specs.Lines.{text_lines, is_white, is_blank, is_end, first_filled};
ghost use Rattle.line_text.specs.Words.{BeginsWith};

use memchr::memchr;
use std::marker::Model;

/// The lines of a text that are still to be read.
///
/// A line ends at its line feed, and the last one may end where the text ends.
#[derive(Drop)]
pub struct Lines<'a> {
    rest: &'a [u8],
}

impl<'a> Model for Lines<'a> {
    ghost use Rattle.std.specs.Prelude.{List, ℕ};
    ghost use Rattle.line_text.specs.Lines.{text_lines};

    ghost Value = { List (List ℕ) };

    ghost view = { λ lines. text_lines lines.rest.now };
}

impl<'a> Lines<'a> {
    /// The lines of this text.
    pub fn new(text: &'a [u8]) -> Lines<'a>
        ensures is { result ≡ text_lines text.now }
        ensures count { length result ≤ length text.now }
    {
        Lines { rest: text }
    }

    /// The next line, without its line feed.
    pub fn next_line(&mut self) -> Option<&'a [u8]>
        ensures some { IfSome result (λ line. self.old ≡ line.now ∷ self.new) }
        ensures none { IfNone result ((self.old ≡ []) × (self.new ≡ [])) }
    {
        let text = self.rest;
        if text.is_empty() {
            return None;
        }
        match memchr(b'\n', text) {
            Some(end) => {
                self.rest = &text[end + 1..];
                Some(&text[..end])
            }
            None => {
                self.rest = b"";
                Some(text)
            }
        }
    }

    /// The next line, which is still to be read.
    pub fn peek(&self) -> Option<&'a [u8]>
        ensures some { IfSome result (λ line. BeginsWith self.now (line.now ∷ [])) }
        ensures none { IfNone result (self.now ≡ []) }
    {
        let mut ahead = Lines { rest: self.rest };
        ahead.next_line()
    }

    /// The place, from 0, of the first line that has more than white space.
    pub fn first_filled(mut self) -> Option<u64>
        requires { length self < 2 ^ 64 }
        ensures { result ≡ first_filled self.entry }
    {
        let mut place = 0;
        while let Some(line) = self.next_line() {
            if !is_blank(line) {
                return Some(place);
            }
            place += 1;
        }
        None
    }
}

/// Whether a line is `end`, with nothing but white space behind it.
pub fn is_end(line: &[u8]) -> bool
    ensures { result ≡ is_end line.now }
{
    line.starts_with(b"end") && is_blank(&line[3..])
}

fn is_blank(line: &[u8]) -> bool
    ensures { result ≡ is_blank line.now }
{
    line.iter().all(|byte| is_white(*byte))
}

/// Whether a byte is white space: a space, a tab, a line feed or a carriage return.
pub fn is_white(byte: u8) -> bool
    ensures { result ≡ is_white byte }
{
    matches!(byte, b' ' | b'\t' | b'\n' | b'\r')
}
