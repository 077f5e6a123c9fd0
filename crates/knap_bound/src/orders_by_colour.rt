// Later orders, colour by colour.

ghost use Rattle.std.specs.Prelude.{◌≡◌, IfOk};
ghost use Rattle.list_laws.specs.Sets.{holds};
ghost use Rattle.knap_bound.specs.Items.{AreItems};

use mill_model::{Order, OutOfMemory};
use std::alloc::Global;

/// A later order by its place among them, with its colour.
#[derive(Clone, Copy, Debug, Drop)]
pub(crate) struct Item {
    pub(crate) place: usize,
    pub(crate) colour: u16,
}

/// Later orders with their prices, and each of them once, colour by colour. The order at the place
/// `skip` is left out; where that is none of the places, all orders are in.
#[derive(Drop)]
pub(crate) struct Packing<'a> {
    pub(crate) rest: &'a [Order],
    pub(crate) prices: &'a [i64],
    pub(crate) items: &'a [Item],
    pub(crate) skip: usize,
}

/// Whether a colour is one of some colours.
pub(crate) fn has_colour(colours: &[u16], colour: u16) -> bool
    ensures { result ≡ holds colour colours.now }
{
    for c in colours {
        if colour == *c {
            return true;
        }
    }
    false
}

/// Each of some orders once, colour by colour.
pub(crate) fn by_colour(alloc: Global, rest: &[Order]) -> Result<Vec<Item>, OutOfMemory>
    ensures { IfOk result (λ items. AreItems rest.now items.items) }
{
    let mut items = Vec::with_capacity(alloc, rest.len())?;
    for place in 0..rest.len() {
        let colour = rest[place].colour;
        items.push(Item { place, colour })?;
    }
    items.sort_unstable_by_key(|item| item.colour);
    Ok(items)
}
