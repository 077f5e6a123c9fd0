// Slabs and orders in their turn, as the tables know them.

ghost use Rattle.std.specs.Prelude.{◌≡◌, ◌↔◌, ℕ, ◌+◌, ◌<◌, ◌≤◌, List, ℤ, length, set, true, false};
ghost use Rattle.std.specs.Prelude.{Some, None};
ghost use Rattle.std.specs.Prelude.{slice_index_or};
ghost use Rattle.list_laws.specs.Sets.{holds, different, below};
ghost use Rattle.mill_model.specs.Bounds.{least_on_with};
ghost use Rattle.mill_model.specs.Charges.{charge_of};
ghost use Rattle.mill_model.specs.declared.order.Order.{Order};
ghost use Rattle.set_minima.specs.Joins.{IsSlab};
ghost use Rattle.colour_tables.specs.Leasts.{two_colours};
ghost use Rattle.colour_tables.specs.Owned.{IsHeld, IsOwn, MayTake};
ghost use Rattle.colour_tables.specs.PricedOrders.{IsKnown, StandsFor, IsTurnOf, MayJoin};
ghost use Rattle.colour_tables.specs.PricedOrders.{colour_of, IsPlaceOf};

use crate::slab::{Own, Slab};
use crate::slabs;
use crate::tables::OrderTables;
use crate::turn::Turn;

/// Where a colour stands among some colours.
fn find_colour(colours: &[u16], colour: u16) -> Option<usize>
    ensures { IsPlaceOf colours.now colour result }
{
    for c in 0..colours.len() {
        if colours[c] == colour {
            return Some(c);
        }
    }
    None
}

/// Whether a slab takes an order of a colour.
fn takes(own: Own, c: usize) -> bool
    ensures yes { result ≡ true → MayTake c own }
    ensures no { result ≡ false → MayTake c own → ⊥ }
{
    match own {
        Own::Bare | Own::Free(_) => true,
        Own::One(d) => d == c,
        Own::Two(d, e) => d == c || e == c,
        Own::Full => false,
    }
}

/// Whether a slab with some room takes an order of a weight and a colour.
fn may_join(room: usize, weight: usize, own: Own, c: usize) -> bool
    ensures yes { result ≡ true → (weight ≤ room) × MayTake c own }
    ensures no { result ≡ false → weight ≤ room → MayTake c own → ⊥ }
{
    weight <= room && takes(own, c)
}

impl<'a> OrderTables<'a> {
    /// The colours of a slab, by their numbers.
    fn own(&self, colours: &[u16]) -> Own
        requires some { 0 < length colours.now }
        requires few { length colours.now ≤ 2 }
        requires apart { length colours.now ≡ different colours.now }
        ensures held { IsHeld (below (length self.now.colours)) result }
        ensures is { IsOwn self.now.rest (colour_of self.now) colours.now result }
    {
        let first = find_colour(&self.colours, colours[0]);
        if colours.len() == 1 {
            return match first {
                Some(d) => Own::Free(d),
                None => Own::Bare,
            };
        }
        match (first, find_colour(&self.colours, colours[1])) {
            (Some(d), Some(e)) => Own::Two(d, e),
            (Some(d), None) => Own::One(d),
            (None, Some(e)) => Own::One(e),
            (None, None) => Own::Full,
        }
    }

    /// A slab with orders of one colour or two on it, as the tables know it.
    pub(crate) fn slab(&self, load: u32, colours: &[u16]) -> Slab
        requires fits { load ≤ self.now.largest }
        requires some { 0 < length colours.now }
        requires few { length colours.now ≤ 2 }
        requires apart { length colours.now ≡ different colours.now }
        ensures known { IsKnown self.now result }
        ensures is { (group : List Order) → IsSlab group load colours.now →
            StandsFor self.now group result }
    {
        Slab {
            load: load as usize,
            own: self.own(colours),
        }
    }

    /// Whether the order in its turn may join a slab.
    pub(crate) fn can_join(&self, slab: Slab, turn: &Turn) -> bool
        requires known { IsKnown self.now slab }
        requires turn { IsTurnOf self.now turn.now }
        ensures joins { result ≡ true → MayJoin self.now turn.now slab }
        ensures cannot { result ≡ false → (price : ℤ) → (group : List Order) →
            StandsFor self.now group slab → least_on_with (two_colours self.now.largest)
            (charge_of self.now.charges) group self.now.rest
            (set self.now.prices turn.now.place price) turn.now.place ≡ None }
    {
        let weight = self.order(turn.place).weight as usize;
        may_join(self.largest - slab.load, weight, slab.own, turn.colour)
    }

    /// Begins the turn of an order.
    pub(crate) fn begin_turn(&self, turn: &mut Turn, place: usize)
        requires here { place < length self.now.rest }
        requires alone { length turn.old.alone.items ≡ self.now.largest + 1 }
        requires beside { length turn.old.beside.items ≡ self.now.largest + 1 }
        ensures turn { IsTurnOf self.now turn.new }
        ensures place { turn.new.place ≡ place }
    {
        match find_colour(&self.colours, self.order(place).colour) {
            Some(colour) => {
                turn.place = place;
                turn.colour = colour;
                slabs::begin_turn(
                    &self.rows,
                    &self.runs,
                    &mut turn.alone,
                    &mut turn.beside,
                    colour,
                    place,
                );
            }
            // Each order has one of the colours.
            None => {}
        }
    }
}
