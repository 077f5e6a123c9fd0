//! The deques of a round. Each worker owns one, and has a thief of every other one.
ghost use Rattle.std.specs.Prelude.{◌≡◌, ◌≢◌, ◌<◌, ◌+◌, ◌++◌, ◌∷◌, [], All, IfOk, OnOk};
ghost use Rattle.std.specs.Prelude.{get_or, length, map, replicate, set, vec_len};
ghost use Rattle.steal_workers.specs.Deques.{AreDealt, IsNewOwner, IsUnlent, DealsOne};
ghost use Rattle.steal_workers.specs.Deques.{new_thief, thieves_in};

use mill_model::OutOfMemory;
use order_symmetry::Ranked;
use std::alloc::Global;
use steal_deques::{Own, Thief, deque};

/// The owner of each worker's deque, and the thieves of each worker: those of the other deques, by
/// their numbers.
#[derive(Drop)]
pub(crate) struct Dealt {
    pub(crate) owns: Vec<Own>,
    pub(crate) all_thieves: Vec<Vec<Thief>>,
}

/// A new deque for each worker, whose thieves are lent to all other workers.
pub(crate) fn deal(alloc: Global, ranked: &Ranked, workers: u16) -> Result<Dealt, OutOfMemory>
    ensures { IfOk result (AreDealt ranked.now workers) }
{
    let mut owns = Vec::with_capacity(alloc, usize::from(workers))?;
    let mut all_thieves = no_thieves(alloc, workers)?;
    for number in 0..workers {
        let mut own = deque(alloc, ranked, workers)?;
        lend_to_others(&mut own, usize::from(number), &mut all_thieves)?;
        owns.push(own)?;
    }
    Ok(Dealt { owns, all_thieves })
}

// So many workers without a thief.
fn no_thieves(alloc: Global, workers: u16) -> Result<Vec<Vec<Thief>>, OutOfMemory>
    ensures { IfOk result (λ all_thieves. thieves_in all_thieves.items ≡ replicate workers []) }
{
    let mut all_thieves = Vec::with_capacity(alloc, usize::from(workers))?;
    for _ in 0..workers {
        all_thieves.push(Vec::with_capacity(alloc, usize::from(workers))?)?;
    }
    Ok(all_thieves)
}

// Each worker but the owner, which has this number, gets a thief of the deque.
fn lend_to_others(
    own: &mut Own,
    number: usize,
    all_thieves: &mut Vec<Vec<Thief>>,
) -> Result<(), OutOfMemory>
    requires unlent { IsUnlent (vec_len all_thieves.old) own.old }
    requires number { number < vec_len all_thieves.old }
    ensures lent { OnOk result (own.new ≡ record own.old { shares = 1 }) }
    ensures dealt { OnOk result (DealsOne number (length all_thieves.old.items) (new_thief own.old)
        (thieves_in all_thieves.old.items) (thieves_in all_thieves.new.items)) }
{
    for taker in 0..all_thieves.len() {
        if taker != number {
            give(all_thieves, taker, own.lend()?)?;
        }
    }
    Ok(())
}

// One worker gets a further thief.
fn give(all_thieves: &mut Vec<Vec<Thief>>, taker: usize, thief: Thief) -> Result<(), OutOfMemory>
    requires { taker < vec_len all_thieves.old }
    ensures { OnOk result (thieves_in all_thieves.new.items
        ≡ set (thieves_in all_thieves.old.items) taker
        (get_or (thieves_in all_thieves.old.items) taker [] ++ thief ∷ [])) }
{
    all_thieves[taker].push(thief)?;
    Ok(())
}
