//! Verdicts by hand.
ghost use Rattle.std.specs.Prelude.{◌≡◌, true, ltb};
ghost use Rattle.std.specs.List.{list_all};

use super::*;
use mill_model::{Charges, Instance, Order, OutOfMemory, Plan};
use std::alloc::Global;
use std::test::Fail;

// What is found of a plan of five orders on the one size 4, with two colours a slab.
fn found(alloc: Global, plan: [u16; 5]) -> Result<Option<Verdict>, OutOfMemory>
    requires { list_all (λ s. ltb s 5) plan ≡ true }
{
    let orders = vec![in alloc;
        Order {
            weight: 1,
            colour: 1
        },
        Order {
            weight: 1,
            colour: 2
        },
        Order {
            weight: 1,
            colour: 3
        },
        Order {
            weight: 3,
            colour: 1
        },
        Order {
            weight: 2,
            colour: 1
        },
    ]?;
    let instance = Instance::new(vec![in alloc; 4]?, 0, orders, 2);
    if instance.largest() != 4 {
        return Ok(None);
    }
    let charges = Charges::from_list(vec![in alloc; 0, 3, 2, 1, 0]?);
    let plan = Plan::from_list(Vec::from_array(alloc, plan)?);
    Ok(Some(judge(alloc, &instance, &charges, &plan)?))
}

#[test]
fn the_lowest_wrong_slab_is_named(rt: HostRuntime) -> Result<(), Fail> {
    let alloc = rt.alloc();
    let alone = Some(Verdict::Legal { loss: 12 });
    assert_eq!(rt; found(alloc, [0, 1, 2, 3, 4])?, alone);
    let together = Some(Verdict::Legal { loss: 4 });
    assert_eq!(rt; found(alloc, [0, 0, 1, 2, 1])?, together);
    assert_eq!(rt; found(alloc, [4, 4, 1, 0, 1])?, together);
    let colourful = Some(Verdict::Colourful {
        slab: 0,
        colours: 3,
    });
    assert_eq!(rt; found(alloc, [0, 0, 0, 1, 1])?, colourful);
    let heavy = Some(Verdict::Heavy { slab: 0, load: 5 });
    assert_eq!(rt; found(alloc, [1, 1, 1, 0, 0])?, heavy);
    let both = Some(Verdict::Heavy { slab: 2, load: 6 });
    assert_eq!(rt; found(alloc, [2, 2, 2, 2, 0])?, both);
    Ok(())
}
