//! The tokens of a text, one after another, with white space between them.
ghost use Rattle.std.specs.Prelude.{◌≡◌, ◌≤◌, ◌∷◌, [], not, length, IfSome, IfNone};
ghost use Rattle.std.specs.List.{prefix_len};
ghost use Rattle.line_text.specs.Lines.{is_white};
ghost use Rattle.schedule_text.specs.Text.{tokens_of};

use instance_text::first_not_blank;
use line_text::is_white;
use std::marker::Model;

// The tokens of a text that are still to be read.
#[derive(Drop)]
pub(crate) struct Tokens<'a> {
    rest: &'a [u8],
}

impl<'a> Model for Tokens<'a> {
    ghost use Rattle.std.specs.Prelude.{List, ℕ};
    ghost use Rattle.schedule_text.specs.Text.{tokens_of};

    ghost Value = { List (List ℕ) };

    ghost view = { λ tokens. tokens_of tokens.rest.now };
}

impl<'a> Tokens<'a> {
    pub(crate) fn new(text: &'a [u8]) -> Tokens<'a>
        ensures { result ≡ tokens_of text.now }
    {
        Tokens { rest: text }
    }

    pub(crate) fn next_token(&mut self) -> Option<&'a [u8]>
        ensures some { IfSome result (λ token. self.old ≡ token.now ∷ self.new) }
        ensures none { IfNone result ((self.old ≡ []) × (self.new ≡ [])) }
    {
        let text = self.rest;
        let Some(start) = first_not_blank(text, 0) else {
            return None;
        };
        let front = &text[start..];
        let count = token_length(front);
        self.rest = &front[count..];
        Some(&front[..count])
    }
}

// How many bytes stand in front of the first white space.
fn token_length(bytes: &[u8]) -> usize
    ensures count { result ≡ prefix_len (λ byte. not (is_white byte)) bytes.now }
    ensures within { result ≤ length bytes.now }
{
    for (count, byte) in bytes.iter().enumerate() {
        if is_white(*byte) {
            return count;
        }
    }
    bytes.len()
}
