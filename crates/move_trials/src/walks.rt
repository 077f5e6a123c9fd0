//! Walks by hand, from a plan that no pair of slabs betters.
ghost use Rattle.std.specs.Prelude.{◌≡◌, ◌≤◌, true, length, ltb, IfOk, IfSome};
ghost use Rattle.std.specs.List.{list_all};
ghost use Rattle.mill_model.specs.Charges.{Reaches, charge_of};
ghost use Rattle.mill_model.specs.Instance.{mill_of};
ghost use Rattle.mill_model.specs.Plan.{numbers_each, IsPlanWithLoss};

use crate::starts::start_at;
use large_moves::walk;
use mill_model::{Charges, Instance, Order, OutOfMemory, Plan, Start};
use order_symmetry::Ranked;
use std::alloc::Global;
use std::test::Fail;

// What so many steps make of these slabs, if they make a legal plan.
fn walked(
    alloc: Global,
    instance: &Instance,
    charges: &Charges,
    slabs: Vec<u16>,
    steps: u64,
) -> Result<Option<Start>, OutOfMemory>
    requires each { numbers_each slabs.items instance.now.orders ≡ true }
    requires reach { Reaches charges.now (mill_of instance.now) }
{
    let ranked = Ranked::new(alloc, instance)?;
    let Some(start) = start_at(alloc, instance, charges, slabs)? else {
        return Ok(None);
    };
    Ok(Some(walk(alloc, &ranked, charges, start, steps)?))
}

// What so many steps make of four orders of weights 2, 2, 3 and 3 on the one size 5, where a slab
// may carry `p` colours, and the orders of each weight have their own.
fn four_walked(
    alloc: Global,
    p: u8,
    slabs: Vec<u16>,
    steps: u64,
) -> Result<Option<Start>, OutOfMemory>
    requires low { 1 ≤ p }
    requires high { p ≤ 8 }
    requires count { length slabs.items ≡ 4 }
    requires below { list_all (λ s. ltb s 4) slabs.items ≡ true }
{
    let orders = vec![in alloc;
        Order {
            weight: 2,
            colour: 1
        },
        Order {
            weight: 2,
            colour: 1
        },
        Order {
            weight: 3,
            colour: 2
        },
        Order {
            weight: 3,
            colour: 2
        },
    ]?;
    let instance = Instance::new(vec![in alloc; 5]?, 0, orders, p);
    if instance.largest() != 5 {
        return Ok(None);
    }
    let charges = Charges::from_list(vec![in alloc; 0, 4, 3, 2, 1, 0]?);
    walked(alloc, &instance, &charges, slabs, steps)
}

// From here no two slabs can be laid anew so that they lose less: only three can.
#[test]
fn a_walk_betters_what_pairs_cannot(rt: HostRuntime) -> Result<(), Fail> {
    let alloc = rt.alloc();
    let walked = four_walked(alloc, 2, vec![in alloc; 0, 0, 1, 2]?, 1000)?.ok_or("not legal")?;
    assert_eq!(rt; walked.loss, 0);
    let again = four_walked(alloc, 2, vec![in alloc; 0, 0, 1, 2]?, 1000)?.ok_or("not legal")?;
    assert_eq!(rt; again.plan.slabs(), walked.plan.slabs());
    Ok(())
}

// With one colour a slab, or no step, nothing is better; and nothing loses less than nothing.
#[test]
fn a_walk_keeps_what_it_cannot_better(rt: HostRuntime) -> Result<(), Fail> {
    let alloc = rt.alloc();
    let kept = four_walked(alloc, 1, vec![in alloc; 0, 0, 1, 2]?, 1000)?.ok_or("not legal")?;
    assert_eq!(rt;
        (kept.loss, kept.plan.slabs()),
        (5, [0, 0, 1, 2].as_slice())
    );
    let kept = four_walked(alloc, 2, vec![in alloc; 0, 0, 1, 2]?, 0)?.ok_or("not legal")?;
    assert_eq!(rt;
        (kept.loss, kept.plan.slabs()),
        (5, [0, 0, 1, 2].as_slice())
    );
    let kept = four_walked(alloc, 2, vec![in alloc; 3, 1, 3, 1]?, 1000)?.ok_or("not legal")?;
    assert_eq!(rt;
        (kept.loss, kept.plan.slabs()),
        (0, [3, 1, 3, 1].as_slice())
    );
    Ok(())
}
