//! Bits of words.
ghost use Rattle.std.specs.Prelude.{◌≡◌, ℕ, ◌+◌, ◌-◌, ◌*◌, ◌<◌, ◌≤◌, ◌↔◌, length, IsTrue, max};
ghost use Rattle.std.specs.Prelude.{slice_index};
ghost use Rattle.std.specs.Int.{bit_at};
ghost use Rattle.pair_split.specs.Words.{bit};

/// Whether bit `l` is set.
pub fn bit_of(words: &[u64], l: usize) -> bool
    requires { l < 64 * length words.now }
    ensures { IsTrue result ↔ bit words.now l ≡ 1 }
{
    (words[l / 64] >> (l % 64)) & 1 == 1
}

/// Sets all words to 0.
pub fn clear(words: &mut [u64])
    ensures { (k : ℕ) → slice_index words.new k ≡ 0 }
{
    words.fill(0);
}

/// A word whose bits from `part` on are the first ones of `high`, and whose others are the last
/// ones of `low`.
#[inline(always)]
fn joined(high: u64, low: u64, part: u32) -> u64
    requires { part < 64 }
    ensures high { (i : ℕ) → part ≤ i → i < 64 → bit_at result i ≡ bit_at high (i - part) }
    ensures low { (i : ℕ) → i < part → bit_at result i ≡ bit_at low (64 - part + i) }
{
    (high << part) | ((low >> 1) >> (63 - part))
}

/// Sets bit `l` besides where bit `l - weight` of `from` is set.
#[inline(always)]
pub fn shift_or(to: &mut [u64], from: &[u64], weight: usize)
    requires { length from.now ≡ length to.old }
    ensures shifted { (l : ℕ) → weight ≤ l → l < 64 * length to.old →
        bit to.new l ≡ max (bit to.old l) (bit from.now (l - weight)) }
    ensures low { (l : ℕ) → l < weight → l < 64 * length to.old →
        bit to.new l ≡ bit to.old l }
{
    let whole = weight / 64;
    let part = (weight % 64) as u32;
    if whole >= to.len() {
        return;
    }
    to[whole] |= from[0] << part;
    for k in whole + 1..to.len() {
        to[k] |= joined(from[k - whole], from[k - whole - 1], part);
    }
}
