//! Moves from a plan: over the orders by colour, as in the walk, until no pair of slabs can lose
//! less or so many moves are done.
ghost use Rattle.std.specs.Prelude.{◌≡◌, ◌+◌, List, IfOk, length, slice_index};
ghost use Rattle.mill_model.specs.Charges.{Reaches, charge_of};
ghost use Rattle.mill_model.specs.Plan.{IsPlanWithLoss};
ghost use Rattle.mill_model.specs.Rank.{rank};
ghost use Rattle.mill_model.specs.declared.order.Order.{Order};
ghost use Rattle.large_moves.specs.Moved.{IsNoWorse, HasClosed};

use crate::by_colour::{by_colour, put_back};
use crate::closed::Closed;
use crate::mover::Mover;
use crate::tries::Tries;
use mill_model::{Charges, OutOfMemory, Start};
use order_symmetry::Ranked;
use std::alloc::Global;

/// Moves the orders of one or two slabs at a time onto at most two slabs, where they lose strictly
/// less there than before. Where no move does, gives the start itself.
///
/// The pairs of slabs are tried in order, and from the first on again after each change. A pair
/// that loses nothing takes no move, nor does one that was closed while neither slab has changed.
pub fn pair_moves(
    alloc: Global,
    ranked: &Ranked,
    charges: &Charges,
    start: Start,
    moves: u64,
) -> Result<(Start, Closed), OutOfMemory>
    requires reach { Reaches charges.now ranked.now.mill }
    requires start { (orders : List Order) → ranked.now.placed ≡ rank orders →
        IsPlanWithLoss ranked.now.mill (charge_of charges.now) orders start.plan start.loss }
    ensures no_worse { IfOk result (λ moved. (orders : List Order) →
        ranked.now.placed ≡ rank orders →
        IsNoWorse ranked.now.mill (charge_of charges.now) orders start moved.0) }
    ensures kept { IfOk result (λ moved. moved.0.loss ≡ start.loss → moved.0 ≡ start) }
    ensures closed { IfOk result (λ moved. (orders : List Order) →
        ranked.now.placed ≡ rank orders →
        HasClosed ranked.now.mill (charge_of charges.now) orders moves start moved.0 moved.1) }
{
    let coloured = by_colour(alloc, ranked)?;
    let mut mover = Mover::new(alloc, ranked, &coloured, start.plan.slabs())?;
    let mut tries = Tries::new(alloc, coloured.len(), moves)?;
    let closed = mover.close(charges, &mut tries);
    let loss = mover.loss(charges);
    if loss == start.loss {
        return Ok((start, closed));
    }
    let laid = mover.to_plan(alloc)?;
    let plan = put_back(alloc, &coloured, laid.slabs())?;
    Ok((Start { plan, loss }, closed))
}
