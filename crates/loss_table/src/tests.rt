//! Charges by hand.

use super::*;
use mill_model::Instance;
use std::test::Fail;

#[test]
fn loads_are_charged_up_to_the_next_size(rt: HostRuntime) -> Result<(), Fail> {
    let alloc = rt.alloc();
    let sizes = vec![in alloc; 7, 3, 4]?;
    let instance = Instance::new(sizes, 0, Vec::new(alloc), 2);
    let charges = loss_charges(alloc, &instance)?;
    let mut charged = Vec::new(alloc);
    for load in 0..9 {
        if load <= instance.largest() {
            charged.push(charges.charge(load))?;
        }
    }
    assert_eq!(rt; charged.as_slice(), [0, 2, 1, 0, 0, 2, 1, 0].as_slice());
    let rows = [
        (0, Some(3)),
        (3, Some(3)),
        (4, Some(4)),
        (5, Some(7)),
        (7, Some(7)),
        (8, None),
    ];
    for (load, size) in rows {
        assert_eq!(rt; size_for(&instance, load), size);
    }
    Ok(())
}
