ghost use Rattle.std.specs.List.Sorted.{IsPermutation, IsSortedBy};
ghost use Rattle.order_symmetry.specs.Numbered.{stands_before};

use mill_model::Order;
use std::cmp::Reverse;

// An order with a number: its place in the file, or that of its slab.
#[derive(Clone, Copy, Debug)]
pub(crate) struct Numbered {
    pub(crate) order: Order,
    pub(crate) number: u16,
}

// Puts orders in rank, and equal ones by rising number.
pub(crate) fn sort_in_rank(numbered: &mut Vec<Numbered>)
    ensures permutation { IsPermutation numbered.old.items numbered.new.items }
    ensures sorted { IsSortedBy stands_before numbered.new.items }
{
    numbered.sort_unstable_by_key(|n| (Reverse(n.order.weight), n.order.colour, n.number));
}
