// Groups of orders: what each weighs, and its colours.

ghost use Rattle.std.specs.Prelude.{◌≡◌, ◌<◌, ◌≤◌, ◌^◌, ◌+◌, [], OnOk, IfOk, length};
ghost use Rattle.std.specs.Prelude.{replicate, slice_index_or, slice_set};
ghost use Rattle.mill_model.specs.Tree.{next_new};
ghost use Rattle.log_checker.specs.Groups.{joined, may_be, with_colour, nothing_seen};
ghost use Rattle.log_checker.specs.ByRules.{mill_by};

use crate::rules::Rules;
use least_slacks::has_colour;
use mill_model::{Order, OutOfMemory};
use smallvec::SmallVec;
use std::alloc::Global;
use std::marker::Model;

/// Adds a colour that isn't there yet.
fn note_colour(colours: &mut SmallVec<u16, 8>, colour: u16) -> Result<(), OutOfMemory>
    ensures { OnOk result (colours.new.items ≡ with_colour colour colours.old.items) }
{
    if !has_colour(colours.as_slice(), colour) {
        colours.push(colour)?;
    }
    Ok(())
}

/// How many colours there are with one more.
fn count_with(colours: &[u16], colour: u16) -> usize
    requires { length colours.now < 2 ^ 63 }
    ensures { result ≡ length (with_colour colour colours.now) }
{
    if has_colour(colours, colour) {
        colours.len()
    } else {
        colours.len() + 1
    }
}

/// What a group of a path weighs, and each of its colours once. Those of a legal group stand
/// inline.
#[derive(Drop)]
pub(crate) struct Group {
    load: u64,
    colours: SmallVec<u16, 8>,
}

impl Model for Group {
    ghost use Rattle.log_checker.specs.Groups.{Seen};

    ghost Value = { Seen };

    ghost view = { λ g. record { load = g.load; colours = g.colours.items } };
}

impl Group {
    /// A group of no order.
    pub(crate) fn empty(alloc: Global) -> Group
        ensures { result ≡ record { load = 0; colours = [] } }
    {
        Group {
            load: 0,
            colours: SmallVec::new(alloc),
        }
    }

    pub(crate) fn load(&self) -> u64
        ensures { result ≡ self.now.load }
    {
        self.load
    }

    pub(crate) fn colours(&self) -> &[u16]
        ensures { result.now ≡ self.now.colours }
    {
        self.colours.as_slice()
    }

    /// Adds an order.
    pub(crate) fn join(&mut self, order: Order) -> Result<(), OutOfMemory>
        requires { self.old.load + order.weight < 2 ^ 64 }
        ensures { OnOk result (self.new ≡ joined self.old order) }
    {
        note_colour(&mut self.colours, order.colour)?;
        self.load += order.weight as u64;
        Ok(())
    }

    /// Whether the group stays legal with one more order.
    pub(crate) fn may_join(&self, rules: &Rules, order: Order) -> bool
        ensures { result ≡ may_be (mill_by rules.now) (joined self.now order) }
    {
        self.load as u128 + order.weight as u128 <= rules.largest as u128
            && count_with(self.colours.as_slice(), order.colour) <= rules.most_colours as usize
    }
}

/// One more than each number of a path.
pub(crate) fn group_count(path: &[u16]) -> usize
    ensures is { result ≡ next_new path.now }
    ensures few { result ≤ 65536 }
{
    let mut count = 0usize;
    for number in path {
        count = count.max(*number as usize + 1);
    }
    count
}

/// So many groups of no order.
pub(crate) fn empty_groups(alloc: Global, count: usize) -> Result<Vec<Group>, OutOfMemory>
    ensures { IfOk result (λ groups. groups.items ≡ replicate count nothing_seen) }
{
    let mut groups = Vec::with_capacity(alloc, count)?;
    for _i in 0..count {
        groups.push(Group::empty(alloc))?;
    }
    Ok(groups)
}

/// Puts an order into the group of a number.
pub(crate) fn join_at(groups: &mut [Group], number: usize, order: Order) -> Result<(), OutOfMemory>
    requires within { number < length groups.old }
    requires room { (slice_index_or groups.old number nothing_seen).load + order.weight < 2 ^ 64 }
    ensures { OnOk result (groups.new ≡
        slice_set groups.old number
        (joined (slice_index_or groups.old number nothing_seen) order)) }
{
    groups[number].join(order)
}
