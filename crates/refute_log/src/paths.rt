ghost use Rattle.std.specs.Prelude.{◌≡◌};
ghost use Rattle.refute_log.specs.Rising.{path_order};

use std::cmp::Ordering;

/// Compares two paths number by number, a prefix before its extensions.
pub fn compare(a: &[u16], b: &[u16]) -> Ordering
    ensures { result ≡ path_order a.now b.now }
{
    for i in 0..a.len() {
        if i >= b.len() {
            return Ordering::Greater;
        }
        if a[i] < b[i] {
            return Ordering::Less;
        }
        if b[i] < a[i] {
            return Ordering::Greater;
        }
    }
    if a.len() < b.len() {
        Ordering::Less
    } else {
        Ordering::Equal
    }
}
