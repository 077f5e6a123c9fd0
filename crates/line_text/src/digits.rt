ghost use Rattle.std.specs.Prelude.{◌≡◌, ◌≤◌, ◌-◌, ◌^◌, length, take, min};
ghost use Rattle.std.specs.List.{prefix_len};
ghost use Rattle.line_text.specs.Numbers.{is_digit, value};

/// The digits in front: how many, and what they stand for, at most the greatest `u64`.
pub fn leading_digits(bytes: &[u8]) -> (usize, u64)
    ensures count { result.0 ≡ prefix_len is_digit bytes.now }
    ensures within { result.0 ≤ length bytes.now }
    ensures value { result.1 ≡ min (value (take result.0 bytes.now)) (2 ^ 64 - 1) }
{
    let mut number = 0u64;
    for (count, byte) in bytes.iter().enumerate() {
        if !byte.is_ascii_digit() {
            return (count, number);
        }
        number = number
            .saturating_mul(10)
            .saturating_add(u64::from(*byte - b'0'));
    }
    (bytes.len(), number)
}
