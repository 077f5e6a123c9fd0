//! A slab of a mill with sizes up to 6 and two colours a slab, as orders come.

use super::*;
use mill_model::Order;
use std::test::Fail;

#[test]
fn orders_join_while_they_fit(rt: HostRuntime) -> Result<(), Fail> {
    let mut slab = OpenSlab::empty(rt.alloc(), 6, 2);
    let row = [
        ((2, 7), true),
        ((5, 7), false),
        ((1, 3), true),
        ((1, 9), false),
        ((3, 3), true),
        ((1, 7), false),
    ];
    for ((weight, colour), fits) in row {
        let order = Order { weight, colour };
        assert_eq!(rt; slab.fits(order), fits);
        if slab.fits(order) {
            slab.join(order);
        }
    }
    assert_eq!(rt; slab.load(), 6);
    assert_eq!(rt; slab.colours(), [7, 3].as_slice());
    assert_eq!(rt; slab.copy().load(), 6);
    assert_eq!(rt; slab.copy().colours(), [7, 3].as_slice());
    Ok(())
}
