// The later orders, colour by colour.

ghost use Rattle.std.specs.Prelude.{◌≡◌, ◌≢◌, ◌<◌, ◌≤◌, ◌+◌, ◌*◌, ◌^◌, ℕ, IfOk, All, length, map};
ghost use Rattle.list_laws.specs.Sets.{holds, different};
ghost use Rattle.mill_model.specs.Slab.{load};
ghost use Rattle.mill_model.specs.Instance.{IsOrder};
ghost use Rattle.least_slacks.specs.Items.{AreItems, carried, item_at};
ghost use Rattle.least_slacks.specs.Later.{IsLater};
ghost use Rattle.mill_model.specs.declared.order.TheConstants.{MAX_ORDERS};

use mill_model::{Order, OutOfMemory};
use std::alloc::Global;

/// A later order by its place among them, with its colour.
#[derive(Clone, Copy, Debug, Drop)]
pub(crate) struct Item {
    pub(crate) place: usize,
    pub(crate) colour: u16,
}

/// Later orders with their prices, each of them once, colour by colour, what they weigh together,
/// and how many colours they have at most.
#[derive(Drop)]
pub(crate) struct LaterOrders<'a> {
    pub(crate) rest: &'a [Order],
    pub(crate) prices: &'a [i64],
    pub(crate) items: &'a [Item],
    pub(crate) weight: usize,
    pub(crate) kinds: usize,
}

/// Whether a colour is one of some colours.
pub fn has_colour(colours: &[u16], colour: u16) -> bool
    ensures { result ≡ holds colour colours.now }
{
    for c in colours {
        if colour == *c {
            return true;
        }
    }
    false
}

/// Each of some orders once, colour by colour.
pub(crate) fn by_colour(alloc: Global, rest: &[Order]) -> Result<Vec<Item>, OutOfMemory>
    ensures { IfOk result (λ items. AreItems rest.now items.items) }
{
    let mut items = Vec::with_capacity(alloc, rest.len())?;
    for place in 0..rest.len() {
        let colour = rest[place].colour;
        items.push(Item { place, colour })?;
    }
    items.sort_unstable_by_key(|item| item.colour);
    Ok(items)
}

/// The place behind the items that have the colour of the one at `at`.
pub(crate) fn run_end(items: &[Item], at: usize) -> usize
    requires { at < length items.now }
    ensures some { at < result }
    ensures ends { result ≤ length items.now }
    ensures alike { (t : ℕ) → at ≤ t → t < result →
        (item_at items.now t).colour ≡ (item_at items.now at).colour }
    ensures other { result < length items.now →
        (item_at items.now result).colour ≢ (item_at items.now at).colour }
{
    for t in at + 1..items.len() {
        if items[t].colour != items[at].colour {
            return t;
        }
    }
    items.len()
}

impl LaterOrders<'_> {
    /// What the orders of the items from one place to another weigh together.
    pub(crate) fn run_weight(&self, run: (usize, usize)) -> usize
        requires later { IsLater self.now }
        requires order { run.0 ≤ run.1 }
        requires ends { run.1 ≤ length self.now.items.now }
        ensures is { carried self.now.rest.now self.now.items.now run.0 + result
            ≡ carried self.now.rest.now self.now.items.now run.1 }
        ensures small { result ≤ MAX_ORDERS * 2 ^ 32 }
    {
        let mut weight = 0;
        for t in run.0..run.1 {
            weight += self.rest[self.items[t].place].weight as usize;
        }
        weight
    }
}

/// How many runs of one colour items have: as many as colours, where they stand colour by colour.
pub(crate) fn run_count(items: &[Item]) -> usize
    ensures { different (map (λ item. item.colour) items.now) ≤ result }
{
    let mut count = 0;
    for t in 0..items.len() {
        if t == 0 || items[t].colour != items[t - 1].colour {
            count += 1;
        }
    }
    count
}

/// What some orders weigh together.
pub(crate) fn weight_of(rest: &[Order]) -> usize
    requires few { length rest.now ≤ MAX_ORDERS }
    requires light { All IsOrder rest.now }
    ensures is { result ≡ load rest.now }
    ensures small { result ≤ MAX_ORDERS * 1000000 }
{
    let mut weight = 0;
    for order in rest {
        weight += order.weight as usize;
    }
    weight
}
