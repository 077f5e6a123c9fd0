use super::*;
use mill_model::Order;
use std::test::Fail;

// The first orders of the seed 1, as they come by hand.
const FIRST: [(u32, u16); 3] = [(9, 19), (16, 16), (10, 8)];

#[test]
fn seed_one_gives_its_orders(rt: HostRuntime) -> Result<(), Fail> {
    for count in 0..4u16 {
        let instance = drill_instance(rt.alloc(), 1, count, 2)?;
        let orders = instance.orders();
        assert_eq!(rt; orders.len(), usize::from(count));
        for (order, (weight, colour)) in orders.iter().zip(FIRST) {
            assert_eq!(rt; *order, Order { weight, colour });
        }
        assert_eq!(rt; instance.colours(), 20);
        assert_eq!(rt; instance.largest(), 44);
        let weight: u64 = FIRST
            .iter()
            .take(usize::from(count))
            .map(|row| u64::from(row.0))
            .sum();
        assert_eq!(rt; whole_weight(&instance), weight);
    }
    Ok(())
}

// A seed of 2^31 and more begins where its remainder does.
#[test]
fn the_greatest_seed_and_count_are_served(rt: HostRuntime) -> Result<(), Fail> {
    let high = drill_instance(rt.alloc(), u32::MAX, 1024, 8)?;
    let low = drill_instance(rt.alloc(), u32::MAX >> 1, 1024, 8)?;
    assert_eq!(rt; high.orders().len(), 1024);
    assert_eq!(rt; high.orders(), low.orders());
    Ok(())
}
