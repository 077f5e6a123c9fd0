//! The ends of eight deques, which go through any thread and back: a type says which deque a
//! number stands for.
ghost use Rattle.std.specs.Prelude.{◌≡◌, ◌+◌, ◌<◌, true, All, IfOk, Some, map, slice_get, vec_len};
ghost use Rattle.mill_model.specs.Tree.{in_tree};
ghost use Rattle.order_symmetry.specs.Ranked.{orders_of};
ghost use Rattle.shared_trials.specs.Trials.{IsUnlent};

use crate::paths::Tally;
use crate::words::WORKERS;
use mill_model::{OutOfMemory, Path};
use order_symmetry::Ranked;
use std::alloc::Global;
use std::marker::{Brand, PhantomData};
use steal_deques::{Own, Thief, deque, gather};

/// How many thieves each deque has.
pub const OTHERS: u16 = WORKERS - 1;

/// Which deque each number stands for, and the orders that they are for. A call picks them.
pub trait Numbering {
    ghost use Rattle.std.specs.Prelude.{List};
    ghost use Rattle.std.specs.declared.alloc.Global.{Global};
    ghost use Rattle.atomic_blocks.specs.Lent.{RowsId};
    ghost use Rattle.order_symmetry.specs.Ranked.{RankedOrders};

    ghost deques: { List (RowsId × Global) };

    ghost ranked: { RankedOrders };
}

impl Numbering for Brand {
    ghost use Rattle.std.specs.Prelude.{[]};
    ghost use Rattle.steal_deques.specs.Views.{no_orders};

    ghost deques = { [] };

    ghost ranked = { no_orders };
}

// The owner of a numbered deque, and how many thieves aren't back yet.
#[derive(Drop)]
struct Owner<J: Numbering> {
    own: Own,
    number: usize,
    lent: u64,
    of: PhantomData<J>,
    ghost which: { slice_get J.deques number ≡ Some own.deque },
    ghost orders: { own.ranked ≡ J.ranked },
    ghost all: { own.all ≡ 7 },
    ghost shares: { own.shares + lent ≡ 7 },
}

// A thief of a numbered deque.
#[derive(Drop)]
struct Other<J: Numbering> {
    thief: Thief,
    number: usize,
    of: PhantomData<J>,
    ghost which: { slice_get J.deques number ≡ Some thief.deque },
    ghost orders: { thief.ranked ≡ J.ranked },
}

/// A worker's own deque and its thieves of the others', and what it did with them.
#[derive(Drop)]
pub struct Ends<J: Numbering> {
    owner: Owner<J>,
    others: Vec<Other<J>>,
    pushed: Tally,
    popped: Tally,
    stolen: Tally,
}

impl<J: Numbering> Owner<J> {
    fn lend(&mut self) -> Result<Other<J>, OutOfMemory> {
        if self.lent >= u64::from(OTHERS) {
            return Err(OutOfMemory);
        }
        let thief = self.own.lend()?;
        self.lent += 1;
        Ok(Other {
            thief,
            number: self.number,
            of: PhantomData,
        })
    }

    // Takes back one of its own thieves.
    fn take_back(&mut self, other: Other<J>) {
        if other.number != self.number || self.lent == 0 {
            return;
        }
        self.own.take_back(other.thief);
        self.lent -= 1;
    }

    // What the deque still held, once all thieves are back.
    fn end(self, alloc: Global) -> Result<Option<Vec<Path>>, OutOfMemory> {
        if self.lent > 0 {
            return Ok(None);
        }
        Ok(Some(gather(alloc, self.own)?.left))
    }
}

impl<J: Numbering> Ends<J> {
    fn new(alloc: Global, own: Own, number: usize) -> Ends<J>
        requires which { slice_get J.deques number ≡ Some own.deque }
        requires orders { IsUnlent J.ranked own }
    {
        Ends {
            owner: Owner {
                own,
                number,
                lent: 0,
                of: PhantomData,
            },
            others: Vec::new(alloc),
            pushed: Tally::new(),
            popped: Tally::new(),
            stolen: Tally::new(),
        }
    }

    /// One round: pushes the one path or the other, pops in every second round, and tries to steal
    /// from one of the other workers, each in turn.
    pub fn play(&mut self, paths: &[Path], round: u64)
        requires { All (λ path. in_tree J.ranked.mill (orders_of J.ranked) path ≡ true) paths.now }
    {
        self.push(paths, round);
        if round % 2 == 1 {
            if let Some(path) = self.owner.own.pop() {
                self.popped.note(&path);
            }
        }
        self.steal(round);
    }

    fn push(&mut self, paths: &[Path], round: u64)
        requires { All (λ path. in_tree J.ranked.mill (orders_of J.ranked) path ≡ true) paths.now }
    {
        let Some(path) = paths.get((round % 2) as usize) else {
            return;
        };
        if let Ok(copy) = path.copy() {
            if self.owner.own.push(copy).is_ok() {
                self.pushed.note(path);
            }
        }
    }

    fn steal(&mut self, round: u64) {
        let next = round % u64::from(OTHERS);
        if let Some(other) = self.others.get_mut(next as usize) {
            if let Some(path) = other.thief.steal() {
                self.stolen.note(&path);
            }
        }
    }
}

/// Eight deques.
pub fn deques(alloc: Global, ranked: &Ranked) -> Result<Vec<Own>, OutOfMemory>
    ensures { IfOk result (λ owns. All (IsUnlent ranked.now) owns.items) }
{
    let mut owns = Vec::new(alloc);
    for _number in 0..WORKERS {
        owns.push(deque(alloc, ranked, OTHERS)?)?;
    }
    Ok(owns)
}

/// The ends of each worker: the deque of its number, and a thief of each other one.
pub fn deal<J: Numbering>(alloc: Global, mut owns: Vec<Own>) -> Result<Vec<Ends<J>>, OutOfMemory>
    requires which { J.deques ≡ map (λ own. own.deque) owns.items }
    requires orders { All (IsUnlent J.ranked) owns.items }
{
    let mut all = Vec::new(alloc);
    while let Some(own) = owns.pop() {
        all.push(Ends::new(alloc, own, owns.len()))?;
    }
    for giver in 0..all.len() {
        for taker in 0..all.len() {
            if taker != giver {
                lend(&mut all, giver, taker)?;
            }
        }
    }
    Ok(all)
}

fn lend<J: Numbering>(all: &mut [Ends<J>], giver: usize, taker: usize) -> Result<(), OutOfMemory> {
    let Some(from) = all.get_mut(giver) else {
        return Ok(());
    };
    let other = from.owner.lend()?;
    if let Some(to) = all.get_mut(taker) {
        to.others.push(other)?;
    }
    Ok(())
}

/// How often each path was pushed, and how often it was popped, stolen or left.
#[derive(Drop)]
pub struct Flow {
    pub pushed: Tally,
    pub gone: Tally,
}

/// Hands all thieves back and ends each deque. There is no answer where a thief is missing.
pub fn end_all<J: Numbering>(
    alloc: Global,
    mut all: Vec<Ends<J>>,
) -> Result<Option<Flow>, OutOfMemory> {
    let mut owners = Vec::new(alloc);
    let mut others = Vec::new(alloc);
    let mut pushed = Tally::new();
    let mut gone = Tally::new();
    while let Some(mut ends) = all.pop() {
        pushed.add(ends.pushed);
        gone.add(ends.popped);
        gone.add(ends.stolen);
        owners.push(ends.owner)?;
        others.append(&mut ends.others)?;
    }
    take_all_back(&mut owners, others);
    while let Some(owner) = owners.pop() {
        let Some(left) = owner.end(alloc)? else {
            return Ok(None);
        };
        for path in &left {
            gone.note(path);
        }
    }
    Ok(Some(Flow { pushed, gone }))
}

fn take_all_back<J: Numbering>(owners: &mut [Owner<J>], mut others: Vec<Other<J>>) {
    while let Some(other) = others.pop() {
        if let Some(owner) = owners.get_mut(other.number) {
            owner.take_back(other);
        }
    }
}
