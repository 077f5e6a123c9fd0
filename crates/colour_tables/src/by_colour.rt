// The orders to come, colour by colour.

ghost use Rattle.std.specs.Prelude.{◌≡◌, ◌≢◌, ℕ, ◌<◌, ◌≤◌, IfOk, length, slice_index_or};
ghost use Rattle.colour_tables.specs.Stretches.{IsByColour, AreStretches, AreColours, AreItems};
ghost use Rattle.colour_tables.specs.Stretches.{coloured_at};

use crate::items::Item;
use mill_model::{Order, OutOfMemory};
use std::alloc::Global;

/// An order to come by its place, with its colour.
#[derive(Clone, Copy, Debug, Drop)]
pub(crate) struct Coloured {
    pub(crate) place: usize,
    pub(crate) colour: u16,
}

/// Each of some orders once, colour by colour.
pub(crate) fn sort_by_colour(alloc: Global, rest: &[Order]) -> Result<Vec<Coloured>, OutOfMemory>
    ensures { IfOk result (λ sorted. IsByColour rest.now sorted.items) }
{
    let mut sorted = Vec::with_capacity(alloc, rest.len())?;
    for place in 0..rest.len() {
        let colour = rest[place].colour;
        sorted.push(Coloured { place, colour })?;
    }
    sorted.sort_unstable_by_key(|coloured| coloured.colour);
    Ok(sorted)
}

/// The place behind those that have the colour of the one at `at`.
fn stretch_end(sorted: &[Coloured], at: usize) -> usize
    requires { at < length sorted.now }
    ensures some { at < result }
    ensures ends { result ≤ length sorted.now }
    ensures alike { (t : ℕ) → at ≤ t → t < result →
        (coloured_at sorted.now t).colour ≡ (coloured_at sorted.now at).colour }
    ensures other { result < length sorted.now →
        (coloured_at sorted.now result).colour ≢ (coloured_at sorted.now at).colour }
{
    for t in at + 1..sorted.len() {
        if sorted[t].colour != sorted[at].colour {
            return t;
        }
    }
    sorted.len()
}

/// Where the stretch of each colour begins and ends.
pub(crate) fn stretches(
    alloc: Global,
    sorted: &[Coloured],
) -> Result<Vec<(usize, usize)>, OutOfMemory>
    requires rising { (s t : ℕ) → s ≤ t → t < length sorted.now →
        (coloured_at sorted.now s).colour ≤ (coloured_at sorted.now t).colour }
    ensures { IfOk result (λ ends. AreStretches sorted.now (length sorted.now) ends.items) }
{
    let mut ends = Vec::with_capacity(alloc, sorted.len())?;
    let mut at = 0;
    while at < sorted.len() {
        let end = stretch_end(sorted, at);
        ends.push((at, end))?;
        at = end;
    }
    Ok(ends)
}

/// The colour of each stretch.
pub(crate) fn stretch_colours(
    alloc: Global,
    sorted: &[Coloured],
    ends: &[(usize, usize)],
) -> Result<Vec<u16>, OutOfMemory>
    requires { AreStretches sorted.now (length sorted.now) ends.now }
    ensures { IfOk result (λ colours. AreColours sorted.now ends.now colours.items) }
{
    let mut colours = Vec::with_capacity(alloc, ends.len())?;
    for c in 0..ends.len() {
        colours.push(sorted[ends[c].0].colour)?;
    }
    Ok(colours)
}

/// The orders with their weights and prices, as they are sorted.
pub(crate) fn priced_items(
    alloc: Global,
    rest: &[Order],
    prices: &[i64],
    sorted: &[Coloured],
) -> Result<Vec<Item>, OutOfMemory>
    requires same { length prices.now ≡ length rest.now }
    requires sorted { IsByColour rest.now sorted.now }
    ensures { IfOk result (λ items. AreItems rest.now prices.now sorted.now items.items) }
{
    let mut items = Vec::with_capacity(alloc, sorted.len())?;
    for t in 0..sorted.len() {
        let place = sorted[t].place;
        items.push(Item {
            place,
            weight: rest[place].weight as usize,
            price: prices[place],
        })?;
    }
    Ok(items)
}
