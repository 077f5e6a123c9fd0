// Numbers that may be missing, and sums of numbers.

ghost use Rattle.std.specs.Prelude.{◌≡◌, ◌≤◌, ◌<◌, ◌<ℤ◌, ◌-ℤ◌, ℕ, ℤ, All, Some, pos, true, length};
ghost use Rattle.std.specs.Prelude.{IfSome};
ghost use Rattle.list_laws.specs.Sets.{int_sum};
ghost use Rattle.mill_model.specs.Bounds.{or_zero};
ghost use Rattle.mill_model.specs.Limits.{IsPrice};
ghost use Rattle.mill_model.specs.declared.order.TheConstants.{MAX_ORDERS};
ghost use Rattle.set_minima.specs.Cells.{IsSmall, slack_limit};
ghost use Rattle.column_price.specs.Numbers.{lesser, less, is_negative};

/// The lesser of two numbers, where there are any.
pub(crate) fn lesser_of(a: Option<i64>, b: Option<i64>) -> Option<i64>
    ensures { result ≡ lesser a b }
{
    match (a, b) {
        (None, b) => b,
        (Some(x), None) => Some(x),
        (Some(x), Some(y)) => Some(if y < x { y } else { x }),
    }
}

/// A number, if there is one, less another.
pub(crate) fn less_by(a: Option<i64>, z: i64) -> Option<i64>
    requires small { IfSome a (IsSmall slack_limit) }
    requires less { IsSmall slack_limit z }
    ensures { result ≡ less z a }
{
    match a {
        None => None,
        Some(x) => Some(x - z),
    }
}

/// The number that there is, or 0.
pub(crate) fn zero_or(a: Option<i64>) -> i64
    ensures is { result ≡ or_zero a }
    ensures small { (n : ℕ) → IfSome a (IsSmall n) → IsSmall n result }
{
    match a {
        None => 0,
        Some(x) => x,
    }
}

/// Whether the number is 0.
pub(crate) fn is_zero(a: Option<i64>) -> bool
    ensures { result ≡ true → a ≡ Some (pos 0) }
{
    match a {
        None => false,
        Some(x) => x == 0,
    }
}

/// Whether the number, if there is one, less a price is above another.
pub(crate) fn is_above(a: Option<i64>, price: i64, low: i64) -> bool
    requires small { IfSome a (IsSmall slack_limit) }
    requires price { IsPrice price }
    ensures { result ≡ true → (x : ℤ) → a ≡ Some x → low <ℤ (x -ℤ price) }
{
    match a {
        None => true,
        Some(x) => low < x - price,
    }
}

/// Whether the number is below 0.
pub(crate) fn is_below_zero(a: Option<i64>) -> bool
    ensures { result ≡ is_negative a }
{
    match a {
        None => false,
        Some(x) => x < 0,
    }
}

/// The sum of some numbers.
pub(crate) fn sum_of(numbers: &[i64]) -> i64
    requires few { length numbers.now ≤ MAX_ORDERS }
    requires small { All (IsSmall slack_limit) numbers.now }
    ensures is { result ≡ int_sum numbers.now }
    ensures small { IsSmall 30720000000000000 result }
{
    let mut sum = 0;
    for number in numbers {
        sum += *number;
    }
    sum
}
