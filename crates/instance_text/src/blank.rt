ghost use Rattle.std.specs.Prelude.{◌≡◌, IfNone, IfSome, drop};
ghost use Rattle.instance_text.specs.Words.{IsBlankFrom, IsFirstNotBlank, is_cut};

use line_text::is_white;

/// The place of the first byte from a place on that isn't white space. Bytes are counted from 0.
pub fn first_not_blank(bytes: &[u8], from: usize) -> Option<usize>
    ensures some { IfSome result (λ at. IsFirstNotBlank bytes.now from at) }
    ensures none { IfNone result (IsBlankFrom bytes.now from) }
{
    for at in from..bytes.len() {
        if !is_white(bytes[at]) {
            return Some(at);
        }
    }
    None
}

/// Whether no word goes on at a place.
pub fn is_word_end(bytes: &[u8], at: usize) -> bool
    ensures { result ≡ is_cut (drop at bytes.now) }
{
    at >= bytes.len() || is_white(bytes[at])
}
