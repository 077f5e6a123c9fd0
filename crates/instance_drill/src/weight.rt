ghost use Rattle.std.specs.Prelude.{◌≡◌};
ghost use Rattle.mill_model.specs.Instance.{IsInstance};
ghost use Rattle.mill_model.specs.Slab.{load};

use mill_model::Instance;

/// What the orders of an instance weigh together.
pub fn whole_weight(instance: &Instance) -> u64
    ensures weight { result ≡ load instance.now.orders }
    ensures kept { IsInstance instance.now }
{
    let mut weight = 0;
    for order in instance.orders() {
        weight += u64::from(order.weight);
    }
    weight
}
