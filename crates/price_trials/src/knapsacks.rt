//! Least slacks of three orders. Prices and slacks are in sixtieths of a loss unit.
ghost use Rattle.std.specs.Prelude.{◌≡◌, ◌<◌, ◌≤◌, IfSome};
ghost use Rattle.mill_model.specs.Limits.{IsPrice};

use crate::mill::{THREE_ORDERS, charges_to_four, ranked_of};
use knap_bound::{least_new, least_on};
use mill_model::{OutOfMemory, Prices};
use slab_rules::OpenSlab;
use std::alloc::Global;
use std::test::Fail;

/// The least slack of a new slab with at most `p` colours, under a price of the first order in rank
/// and none of the others, where one of them may be forced.
fn on_a_new_slab(
    alloc: Global,
    p: u8,
    first: i64,
    forced: Option<u16>,
) -> Result<Option<i64>, OutOfMemory>
    requires low { 1 ≤ p }
    requires high { p ≤ 8 }
    requires price { IsPrice first }
    requires rank { IfSome forced (λ rank. rank < 3) }
{
    let ranked = ranked_of(alloc, &THREE_ORDERS, p)?;
    let charges = charges_to_four(alloc)?;
    let prices = Prices::from_list(vec![in alloc; first, 0, 0]?);
    if ranked.len() != 3 || ranked.largest() != 4 {
        return Ok(None);
    }
    least_new(alloc, &ranked, &charges, 0, &prices, forced)
}

#[test]
fn new_slabs(rt: HostRuntime) -> Result<(), Fail> {
    let alloc = rt.alloc();
    assert_eq!(rt; on_a_new_slab(alloc, 2, 0, None)?, Some(60));
    assert_eq!(rt; on_a_new_slab(alloc, 2, 60, Some(2))?, Some(0));
    assert_eq!(rt; on_a_new_slab(alloc, 8, 60, None)?, Some(-60));
    Ok(())
}

/// The least slack of the first two orders under a price of 180 for the third one, which may be
/// forced. None where it can't join.
fn on_two_orders(alloc: Global, forced: Option<u16>) -> Result<Option<i64>, OutOfMemory>
    requires { IfSome forced (λ rank. rank ≡ 2) }
{
    let ranked = ranked_of(alloc, &THREE_ORDERS, 2)?;
    let charges = charges_to_four(alloc)?;
    let dear = Prices::from_list(vec![in alloc; 180]?);
    if ranked.len() != 3 || ranked.largest() != 4 {
        return Ok(None);
    }
    let mut slab = OpenSlab::empty(alloc, ranked.largest(), ranked.p());
    let (first, second) = (ranked.order(0), ranked.order(1));
    if !slab.fits(first) {
        return Ok(None);
    }
    slab.join(first);
    if !slab.fits(second) {
        return Ok(None);
    }
    slab.join(second);
    least_on(alloc, &ranked, &charges, &slab, 2, &dear, forced)
}

#[test]
fn a_slab_of_two_orders(rt: HostRuntime) -> Result<(), Fail> {
    let alloc = rt.alloc();
    assert_eq!(rt; on_two_orders(alloc, None)?, Some(60));
    assert_eq!(rt; on_two_orders(alloc, Some(2))?, None);
    Ok(())
}
