ghost use Rattle.std.specs.Prelude.{◌≡◌, ◌↔◌, ℕ, true, IfOk};
ghost use Rattle.mill_model.specs.Charges.{Reaches, charge_of};
ghost use Rattle.mill_model.specs.Instance.{mill_of};
ghost use Rattle.mill_model.specs.Plan.{IsPlanWithLoss, numbers_each};
ghost use Rattle.plan_check.specs.Verdicts.{IsHeavy, IsColourful};

use crate::Verdict;
use crate::tallies::{colour_counts, slab_loads};
use mill_model::{Charges, Instance, OutOfMemory, Plan};
use std::alloc::Global;

/// Judges a plan: what it loses where it is legal, else which slab is the lowest that isn't.
pub fn judge(
    alloc: Global,
    instance: &Instance,
    charges: &Charges,
    plan: &Plan,
) -> Result<Verdict, OutOfMemory>
    requires each { numbers_each plan.now instance.now.orders ≡ true }
    requires reach { Reaches charges.now (mill_of instance.now) }
    ensures legal { IfOk result (λ verdict. (loss : ℕ) → (verdict ≡ Verdict.Legal loss)
        ↔ IsPlanWithLoss (mill_of instance.now) (charge_of charges.now)
        instance.now.orders plan.now loss) }
    ensures heavy { IfOk result (λ verdict. (slab load : ℕ) → (verdict ≡ Verdict.Heavy slab load)
        ↔ IsHeavy (mill_of instance.now) instance.now.orders plan.now slab load) }
    ensures colourful { IfOk result (λ verdict. (slab colours : ℕ) →
        (verdict ≡ Verdict.Colourful slab colours)
        ↔ IsColourful (mill_of instance.now) instance.now.orders plan.now slab colours) }
{
    let loads = slab_loads(alloc, instance.orders(), plan.slabs())?;
    let counts = colour_counts(alloc, instance.orders(), plan.slabs())?;
    let mut loss = 0;
    for (number, &load) in loads.iter().enumerate() {
        let slab = number as u16;
        let colours = counts[number];
        if load > u64::from(instance.largest()) {
            return Ok(Verdict::Heavy { slab, load });
        }
        if colours > u16::from(instance.p()) {
            return Ok(Verdict::Colourful { slab, colours });
        }
        loss += charges.charge(load as u32);
    }
    Ok(Verdict::Legal { loss })
}
