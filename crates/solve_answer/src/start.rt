//! Where a search begins: charges, rank, and a greedy plan that moves have made better.
ghost use Rattle.std.specs.Prelude.{◌≡◌, ◌≤◌, ◌+◌, All, List, IfOk, length};
ghost use Rattle.mill_model.specs.Charges.{Reaches, charge_of};
ghost use Rattle.mill_model.specs.Heavy.{NoneHeavy};
ghost use Rattle.mill_model.specs.Instance.{largest};
ghost use Rattle.mill_model.specs.Pairs.{IsPossibleStart};
ghost use Rattle.mill_model.specs.Plan.{IsPlanWithLoss};
ghost use Rattle.mill_model.specs.Rank.{rank};
ghost use Rattle.mill_model.specs.declared.order.Order.{Order};
ghost use Rattle.order_symmetry.specs.Ranked.{orders_of};
ghost use Rattle.solve_answer.specs.Search.{IsBeginning};

use greedy_start::best_start;
use large_moves::{pair_moves, walk};
use loss_table::loss_charges;
use mill_model::{Charges, Instance, OutOfMemory, Start};
use order_symmetry::Ranked;
use std::alloc::Global;

/// Where a search of an instance's tree begins.
#[derive(Drop)]
pub struct Beginning {
    pub charges: Charges,
    pub ranked: Ranked,
    pub start: Start,
}

/// Where a search of an instance's tree begins, with so many moves on its start.
pub fn beginning_of(
    alloc: Global,
    instance: &Instance,
    moves: u64,
) -> Result<Beginning, OutOfMemory>
    requires light { NoneHeavy (largest instance.now.sizes) instance.now.orders }
    ensures beginning { IfOk result (IsBeginning instance.now moves) }
{
    let charges = loss_charges(alloc, instance)?;
    let ranked = Ranked::new(alloc, instance)?;
    let start = start_of(alloc, &ranked, &charges, moves)?;
    Ok(Beginning {
        charges,
        ranked,
        start,
    })
}

// The better greedy plan, made better by moves on pairs of slabs; where these leave a loss, a walk
// of as many steps follows, and moves again.
fn start_of(
    alloc: Global,
    ranked: &Ranked,
    charges: &Charges,
    moves: u64,
) -> Result<Start, OutOfMemory>
    requires light { All (λ order. order.weight ≤ ranked.now.mill.largest) (orders_of ranked.now) }
    requires reach { Reaches charges.now ranked.now.mill }
    ensures start { IfOk result (λ start. (orders : List Order) → ranked.now.placed ≡ rank orders →
        IsPlanWithLoss ranked.now.mill (charge_of charges.now) orders start.plan start.loss) }
    ensures possible { IfOk result (λ start. (orders : List Order) →
        ranked.now.placed ≡ rank orders →
        IsPossibleStart ranked.now.mill (charge_of charges.now) orders moves start.plan) }
{
    let greedy = best_start(alloc, ranked, charges)?;
    let (moved, _) = pair_moves(alloc, ranked, charges, greedy, moves)?;
    if moved.loss == 0 {
        return Ok(moved);
    }
    let walked = walk(alloc, ranked, charges, moved, moves)?;
    let (start, _) = pair_moves(alloc, ranked, charges, walked, moves)?;
    Ok(start)
}
