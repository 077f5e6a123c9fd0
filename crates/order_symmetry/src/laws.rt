//! What the rank implies: of plans that differ by equal orders one is enough.
ghost use Rattle.std.specs.Prelude.{◌≡◌, List, true, length, IfOk};
ghost use Rattle.mill_model.specs.declared.order.Order.{Order};
ghost use Rattle.mill_model.specs.Plan.{numbers_each};
ghost use Rattle.mill_model.specs.Rank.{rank};
ghost use Rattle.order_symmetry.specs.Ranked.{orders_of, read_in_rank};
ghost use Rattle.order_symmetry.specs.Twins.{IsSortedTwin, SortsWithinClasses};

use crate::Ranked;
use crate::numbered::{Numbered, sort_in_rank};
use mill_model::{OutOfMemory, Path, Plan};
use std::alloc::Global;

/// A plan with as many slabs of each load and colour set, whose canonical form, in rank, does not
/// fall within a class: its slabs are numbered by first appearance in rank, and equal orders take
/// their numbers by rising number.
pub fn sorted_twin(alloc: Global, ranked: &Ranked, plan: &Plan) -> Result<Plan, OutOfMemory>
    requires { numbers_each plan.now (orders_of ranked.now) ≡ true }
    ensures { IfOk result (λ twin. (orders : List Order) → ranked.now.placed ≡ rank orders →
        IsSortedTwin orders plan.now twin) }
{
    let canonical = plan_in_rank(alloc, ranked, plan)?.tidy(alloc)?;
    let sorted = sort_within_classes(alloc, ranked, canonical.slabs())?;
    ranked.plan_of(alloc, &Path::from_list(sorted))
}

// The numbers of a plan of the file's orders, in rank.
fn plan_in_rank(alloc: Global, ranked: &Ranked, plan: &Plan) -> Result<Plan, OutOfMemory>
    requires { length plan.now ≡ length ranked.now.placed }
    ensures { IfOk result (λ read. read ≡ read_in_rank ranked.now plan.now) }
{
    let slabs = plan.slabs();
    let mut read = Vec::with_capacity(alloc, slabs.len())?;
    for rank in 0..ranked.len() {
        read.push(slabs[ranked.home(rank) as usize])?;
    }
    Ok(Plan::from_list(read))
}

// The same numbers of orders in rank, sorted within each class.
fn sort_within_classes(
    alloc: Global,
    ranked: &Ranked,
    numbers: &[u16],
) -> Result<Vec<u16>, OutOfMemory>
    requires { length numbers.now ≡ length ranked.now.placed }
    ensures { IfOk result (λ sorted.
        SortsWithinClasses (orders_of ranked.now) numbers.now sorted.items) }
{
    let mut numbered = Vec::with_capacity(alloc, numbers.len())?;
    for rank in 0..ranked.len() {
        numbered.push(Numbered {
            order: ranked.order(rank),
            number: numbers[rank as usize],
        })?;
    }
    sort_in_rank(&mut numbered);
    Ok(numbered.iter().map(|n| n.number).collect(alloc)?)
}
