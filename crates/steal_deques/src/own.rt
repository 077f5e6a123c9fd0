//! The owner's end of a deque: it pushes, pops, and lends shares to thieves.
ghost use Rattle.std.specs.Prelude.{◌≡◌, ◌≤◌, ◌+◌, ◌-◌, [], ◌∷◌, ◌++◌, true, length};
ghost use Rattle.std.specs.Prelude.{IfOk, IfErr, IfSome, IfNone, OnErr, OnOk};
ghost use Rattle.crossbeam_deque.specs.Handles.{worker_flavor, worker_view};
ghost use Rattle.mill_model.specs.Tree.{in_tree};
ghost use Rattle.order_symmetry.specs.Ranked.{orders_of};
ghost use Rattle.steal_deques.specs.Deque.{IsThiefOf, WasEmpty};
ghost use Rattle.steal_deques.specs.Views.{owner_view};

use crate::rule::{DequeWorker, OneShare, Opens, Pops, Pushes, Setting};
use crate::thief::Thief;
use mill_model::{OutOfMemory, Path};
use order_symmetry::Ranked;
use std::alloc::{AllocError, Global};
use std::marker::{Brand, Model};

// A deque begins with room for so many paths. It grows where more are pushed, and where a push
// comes round to a slot that a stopped thief has yet to free.
const ROOM: usize = 256;

/// The end of a deque at which its owner pushes and pops.
#[derive(Drop)]
pub struct Own {
    worker: DequeWorker,
}

impl Model for Own {
    ghost use Rattle.std.specs.Prelude.{◌≡◌};
    ghost use Rattle.crossbeam_deque.specs.Handles.{worker_deque, worker_flavor, worker_view};
    ghost use Rattle.steal_deques.specs.Deque.{DequeOwner};
    ghost use Rattle.steal_deques.specs.Views.{owner_view};

    ghost Value = { DequeOwner };

    ghost view = { λ o. record {
      deque = worker_deque o.worker;
      ranked = (worker_view o.worker).ranked;
      all = (worker_view o.worker).all;
      shares = (worker_view o.worker).shares;
      pushed = (worker_view o.worker).pushed;
      popped = (worker_view o.worker).popped;
      stolen = (worker_view o.worker).stolen;
    } };

    ghost invariant = { λ o. (worker_flavor o.worker ≡ 1)
        × (worker_view o.worker ≡ owner_view (worker_view o.worker).ranked
        (worker_view o.worker).all (worker_view o.worker).shares (worker_view o.worker).pushed
        (worker_view o.worker).popped (worker_view o.worker).stolen) };
}

/// An empty deque for paths in the tree of these orders. Its owner has all shares to lend.
pub fn deque(alloc: Global, ranked: &Ranked, shares: u16) -> Result<Own, OutOfMemory>
    requires { 1 ≤ shares }
    ensures orders { IfOk result (λ own. own.ranked ≡ ranked.now) }
    ensures shares { IfOk result (λ own. (own.all ≡ shares) × (own.shares ≡ shares)) }
    ensures empty { IfOk result (λ own. (own.pushed ≡ []) × (own.popped ≡ [])
        × (own.stolen ≡ [])) }
{
    let worker = open::<Brand>(alloc, ranked, shares)?;
    Ok(Own { worker })
}

// The rule is told the orders and the shares by a first step on the new deque, at which they are
// picked.
fn open<J: Setting>(alloc: Global, ranked: &Ranked, shares: u16) -> Result<DequeWorker, AllocError>
    requires orders { J.ranked ≡ ranked.now }
    requires shares { J.shares ≡ shares }
    ensures flavor { IfOk result (λ worker. worker_flavor worker ≡ 1) }
    ensures view { IfOk result (λ worker. worker_view worker
        ≡ owner_view ranked.now shares shares [] [] []) }
{
    let _ = ranked;
    let _ = shares;
    let mut worker = DequeWorker::lifo_as(alloc, ROOM)?;
    drop(worker.another::<Opens<J>>());
    Ok(worker)
}

impl Own {
    /// Puts a path last. Where the deque can't take it, the path comes back, which counts as want
    /// of memory.
    pub fn push(&mut self, path: Path) -> Result<(), Path>
        requires { in_tree self.old.ranked.mill (orders_of self.old.ranked) path ≡ true }
        ensures pushed { OnOk result (self.new
            ≡ record self.old { pushed = self.old.pushed ++ path ∷ [] }) }
        ensures refused { IfErr result (λ back. (back ≡ path) × (self.new ≡ self.old)) }
    {
        self.worker.push_as::<Pushes>(path)
    }

    /// Takes the last path. It takes none only where the deque was empty at one moment of the call.
    pub fn pop(&mut self) -> Option<Path>
        ensures popped { IfSome result (λ path. self.new
            ≡ record self.old { popped = self.old.popped ++ path ∷ [] }) }
        ensures inside { IfSome result (λ path. in_tree self.old.ranked.mill
            (orders_of self.old.ranked) path ≡ true) }
        ensures few { IfSome result (λ path. length self.new.popped ≤ length self.new.pushed) }
        ensures nothing { IfNone result (self.new ≡ self.old) }
        ensures empty { IfNone result (WasEmpty self.old) }
    {
        self.worker.pop_as::<Pops>()
    }

    /// Lends one share to a thief, which has stolen nothing.
    pub fn lend(&mut self) -> Result<Thief, OutOfMemory>
        requires { 1 ≤ self.old.shares }
        ensures thief { IfOk result (λ thief. IsThiefOf self.old thief × (thief.stolen ≡ [])
            × (thief.passed ≡ 0)) }
        ensures lent { OnOk result (self.new
            ≡ record self.old { shares = self.old.shares - 1 }) }
        ensures refused { OnErr result (self.new ≡ self.old) }
    {
        let stealer = self.worker.stealer()?;
        let pass = self.worker.another::<OneShare>();
        Ok(Thief {
            stealer,
            pass,
            passed: 0,
        })
    }

    /// Takes back the share of a thief, with what it stole.
    pub fn take_back(&mut self, thief: Thief)
        requires { IsThiefOf self.old thief }
        ensures { self.new ≡ record self.old {
          shares = self.old.shares + 1;
          stolen = self.old.stolen ++ thief.stolen;
        } }
    {
        let Thief {
            stealer: _,
            pass,
            passed: _,
        } = thief;
        self.worker.absorb::<OneShare>(pass);
    }
}
