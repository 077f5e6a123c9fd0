//! Prices and their worth by hand, in sixtieths of a loss unit. Groups are counted from 0.

use crate::mill::{THREE_ORDERS, TWO_ORDERS, all_fit, charges_to_four, node_at, ranked_of};
use column_price::{ascend, improve, worth};
use mill_model::{OutOfMemory, Prices};
use order_symmetry::Ranked;
use std::alloc::Global;
use std::test::Fail;

/// Whether the ascent at the root gives these prices of this worth, and a sweep gives them again.
fn is_ascent(
    alloc: Global,
    ranked: &Ranked,
    expected: &[i64],
    value: i64,
) -> Result<bool, OutOfMemory> {
    let charges = charges_to_four(alloc)?;
    let root = node_at(alloc, ranked, &[])?;
    if ranked.largest() != 4 || !all_fit(ranked) {
        return Ok(false);
    }
    let prices = ascend(alloc, &root, &charges)?;
    if root.depth() as usize + prices.list().len() != ranked.len() as usize {
        return Ok(false);
    }
    let Some(found) = worth(alloc, &root, &charges, &prices)? else {
        return Ok(false);
    };
    let swept = improve(alloc, &root, &charges, &prices)?;
    Ok(prices.list() == expected && found == value && swept.list() == expected)
}

#[test]
fn ascents_at_the_root(rt: HostRuntime) -> Result<(), Fail> {
    let alloc = rt.alloc();
    let two = ranked_of(alloc, &TWO_ORDERS, 1)?;
    assert!(rt; is_ascent(alloc, &two, &[60, 180], 240)?);
    let three = ranked_of(alloc, &THREE_ORDERS, 2)?;
    assert!(rt; is_ascent(alloc, &three, &[60, 0, 0], 60)?);
    let eight_colours = ranked_of(alloc, &[(2, 3), (1, 1)], 8)?;
    assert!(rt; is_ascent(alloc, &eight_colours, &[60, 0], 60)?);
    Ok(())
}

// Each slab holds one of the orders, and loses 1.
#[test]
fn as_many_orders_as_there_may_be(rt: HostRuntime) -> Result<(), Fail> {
    let alloc = rt.alloc();
    let orders = vec![in alloc; (3u32, 1u16); 1024]?;
    let expected = vec![in alloc; 60i64; 1024]?;
    let two_colours = ranked_of(alloc, &orders, 2)?;
    assert!(rt; is_ascent(alloc, &two_colours, &expected, 61_440)?);
    let eight_colours = ranked_of(alloc, &orders, 8)?;
    assert!(rt; is_ascent(alloc, &eight_colours, &expected, 61_440)?);
    Ok(())
}

/// What the price of the last order is worth at a node that has placed all others, and that price
/// after one sweep with what it is worth then. None where the price isn't valid.
fn last_priced(
    alloc: Global,
    ranked: &Ranked,
    numbers: &[u16],
    price: i64,
) -> Result<Option<[i64; 3]>, OutOfMemory> {
    let charges = charges_to_four(alloc)?;
    let prices = Prices::from_list(vec![in alloc; price.clamp(-20_000_000_000, 20_000_000_000)]?);
    let node = node_at(alloc, ranked, numbers)?;
    let later = usize::from(ranked.len() - node.depth());
    if ranked.largest() != 4 || !all_fit(ranked) || later != 1 {
        return Ok(None);
    }
    let Some(before) = worth(alloc, &node, &charges, &prices)? else {
        return Ok(None);
    };
    let swept = improve(alloc, &node, &charges, &prices)?;
    let after = worth(alloc, &node, &charges, &swept)?.unwrap_or(0);
    Ok(Some([before, swept.list()[0], after]))
}

const LAST_PRICES: [(&[u16], i64, Option<[i64; 3]>); 6] = [
    (&[0, 1], 0, Some([180, -60, 240])),
    (&[0, 0], 180, Some([240, 180, 240])),
    (&[0, 0], 179, Some([239, 180, 240])),
    (&[0, 0], 121, Some([181, 180, 240])),
    (&[0, 0], 120, Some([180, 180, 240])),
    (&[0, 0], 181, None),
];

#[test]
fn one_order_is_left(rt: HostRuntime) -> Result<(), Fail> {
    let alloc = rt.alloc();
    let ranked = ranked_of(alloc, &THREE_ORDERS, 2)?;
    for i in 0..LAST_PRICES.len() {
        let (numbers, price, expected) = LAST_PRICES[i];
        assert_eq!(rt; last_priced(alloc, &ranked, numbers, price)?, expected);
    }
    Ok(())
}
