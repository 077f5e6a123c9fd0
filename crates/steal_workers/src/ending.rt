//! The end of a round's deques: all thieves go back to their owners, and what a deque still holds
//! is taken out.
ghost use Rattle.std.specs.Prelude.{◌≡◌, ◌<◌, ◌+◌, ◌++◌, ◌∷◌, [], ℕ, List, All, IfOk, OnOk, length};
ghost use Rattle.std.specs.Prelude.{set, vec_len};
ghost use Rattle.list_laws.specs.Sets.{times, same_list};
ghost use Rattle.steal_workers.specs.Deques.{AreBack, AreOfAll, EndsOne, IsLastOfAll, IsLent};
ghost use Rattle.steal_workers.specs.Deques.{all_popped, all_pushed, all_stolen, thieves_in};
ghost use Rattle.steal_workers.specs.Deques.{thieves_of};

use mill_model::{OutOfMemory, Path};
use std::alloc::Global;
use steal_deques::{Own, Thief, gather};

/// Takes all thieves back to the owners of their deques, and gives what the deques still hold.
pub(crate) fn end_deques(
    alloc: Global,
    mut owns: Vec<Own>,
    mut all_thieves: Vec<Vec<Thief>>,
) -> Result<Vec<Path>, OutOfMemory>
    requires workers { length (thieves_in all_thieves.items) ≡ length owns.items }
    requires lent { All (IsLent (length owns.items)) owns.items }
    requires thieves { AreOfAll owns.items (thieves_in all_thieves.items) }
    ensures { IfOk result (λ left. (x : List ℕ) → all_pushed x owns.items
        ≡ times same_list x left.items + all_popped x owns.items
        + all_stolen x (thieves_in all_thieves.items)) }
{
    let mut left = Vec::new(alloc);
    while let Some(own) = owns.pop() {
        end_deque(alloc, own, owns.len(), &mut all_thieves, &mut left)?;
    }
    Ok(left)
}

// Takes the last thief of each worker but the owner, which has this number, back to it, and appends
// what the deque still holds.
fn end_deque(
    alloc: Global,
    mut own: Own,
    number: usize,
    all_thieves: &mut Vec<Vec<Thief>>,
    left: &mut Vec<Path>,
) -> Result<(), OutOfMemory>
    requires number { number < length (thieves_in all_thieves.old.items) }
    requires lent { IsLent (length (thieves_in all_thieves.old.items)) own }
    requires thieves { IsLastOfAll number own (thieves_in all_thieves.old.items) }
    ensures ended { OnOk result (EndsOne own number (thieves_in all_thieves.old.items)
        (thieves_in all_thieves.new.items) left.old.items left.new.items) }
{
    take_all_back(&mut own, number, all_thieves);
    let mut gathered = gather(alloc, own)?;
    left.append(&mut gathered.left)?;
    Ok(())
}

// Takes the last thief of each worker but the owner back to it.
fn take_all_back(own: &mut Own, number: usize, all_thieves: &mut Vec<Vec<Thief>>)
    requires number { number < length (thieves_in all_thieves.old.items) }
    requires lent { IsLent (length (thieves_in all_thieves.old.items)) own.old }
    requires thieves { IsLastOfAll number own.old (thieves_in all_thieves.old.items) }
    ensures { AreBack own.old own.new number (length all_thieves.old.items)
        (thieves_in all_thieves.old.items) (thieves_in all_thieves.new.items) }
{
    for taker in 0..all_thieves.len() {
        if taker != number {
            own.take_back(take_last(all_thieves, taker));
        }
    }
}

// Takes the last thief of one worker.
fn take_last(all_thieves: &mut Vec<Vec<Thief>>, taker: usize) -> Thief
    requires within { taker < vec_len all_thieves.old }
    requires some { 0 < length (thieves_of (thieves_in all_thieves.old.items) taker) }
    ensures last { thieves_of (thieves_in all_thieves.old.items) taker
        ≡ thieves_of (thieves_in all_thieves.new.items) taker ++ result ∷ [] }
    ensures others { thieves_in all_thieves.new.items ≡ set (thieves_in all_thieves.old.items) taker
        (thieves_of (thieves_in all_thieves.new.items) taker) }
{
    let Some(thief) = all_thieves[taker].pop() else {
        unreachable!()
    };
    thief
}
