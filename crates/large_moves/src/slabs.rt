//! What lies on the slabs of a plan.
ghost use Rattle.std.specs.Prelude.{◌≡◌, ℕ, ◌<◌, ◌≤◌, true, false, length, IfSome, IfNone};
ghost use Rattle.list_laws.specs.Sets.{holds};
ghost use Rattle.index_links.specs.Lists.{plan_of};
ghost use Rattle.large_moves.specs.Moves.{IsSecond};

use index_links::SlabLinks;

/// Whether a slab is used.
fn is_used(links: &SlabLinks, s: u16) -> bool
    requires { s < length links.now }
    ensures { result ≡ holds s (plan_of links.now) }
{
    links.first(s).is_some()
}

/// The lowest slab that is not used, if there is one.
fn free_slab(links: &SlabLinks) -> Option<u16>
    ensures some { IfSome result (λ s.
        (s < length links.now) × (holds s (plan_of links.now) ≡ false)) }
    ensures none { IfNone result ((s : ℕ) → s < length links.now →
        holds s (plan_of links.now) ≡ true) }
{
    for s in 0..links.len() {
        if !is_used(links, s) {
            return Some(s);
        }
    }
    None
}

/// The slab for the second part of a split, if there is one.
pub fn second_slab(links: &SlabLinks, a: u16, b: u16) -> Option<u16>
    requires second { b < length links.now }
    requires rise { a ≤ b }
    ensures some { IfSome result (λ c. IsSecond (plan_of links.now) a b c) }
    ensures none { IfNone result ((a ≡ b) × ((s : ℕ) → s < length (plan_of links.now) →
        holds s (plan_of links.now) ≡ true)) }
{
    if a < b { Some(b) } else { free_slab(links) }
}
