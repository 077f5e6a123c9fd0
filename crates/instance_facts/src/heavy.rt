ghost use Rattle.mill_model.specs.Instance.{IsInstance};
ghost use Rattle.mill_model.specs.Heavy.{IsFirstHeavyIfAny};

use mill_model::Instance;

/// The first order that no slab holds, counted from 0.
pub fn first_heavy(instance: &Instance) -> Option<u16>
    ensures first { IsFirstHeavyIfAny instance.now result }
    ensures kept { IsInstance instance.now }
{
    for (place, order) in instance.orders().iter().enumerate() {
        if order.weight > instance.largest() {
            return Some(place as u16);
        }
    }
    None
}
