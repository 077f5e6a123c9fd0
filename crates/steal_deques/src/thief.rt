//! A thief's end of a deque: it steals.
ghost use Rattle.std.specs.Prelude.{◌≡◌, ◌⊎◌, [], ◌∷◌, ◌++◌, true, IfSome, IfNone};
ghost use Rattle.mill_model.specs.Tree.{in_tree};
ghost use Rattle.mill_io.specs.Causes.{one_more};
ghost use Rattle.order_symmetry.specs.Ranked.{orders_of};
ghost use Rattle.steal_deques.specs.Deque.{HadFew};

use crate::rule::{DequePass, DequeStealer, Steals};
use crossbeam_deque::Steal;
use mill_model::Path;
use std::marker::Model;

/// The end of a deque from which any other worker may steal. It has one share.
#[derive(Drop)]
pub struct Thief {
    pub(crate) stealer: DequeStealer,
    pub(crate) pass: DequePass,
    pub(crate) passed: u64,
}

impl Model for Thief {
    ghost use Rattle.std.specs.Prelude.{◌≡◌};
    ghost use Rattle.crossbeam_deque.specs.Handles.{stealer_deque, stealer_flavor, IsPassOf};
    ghost use Rattle.crossbeam_deque.specs.Handles.{view as pass_view};
    ghost use Rattle.steal_deques.specs.Deque.{DequeThief};
    ghost use Rattle.steal_deques.specs.Views.{thief_view};

    ghost Value = { DequeThief };

    ghost view = { λ t. record {
      deque = stealer_deque t.stealer;
      ranked = (pass_view t.pass).ranked;
      stolen = (pass_view t.pass).stolen;
      passed = t.passed;
    } };

    ghost invariant = { λ t. (stealer_flavor t.stealer ≡ 1)
        × IsPassOf (stealer_deque t.stealer) t.pass
        × (pass_view t.pass ≡ thief_view (pass_view t.pass).ranked (pass_view t.pass).stolen) };
}

impl Thief {
    /// Tries once to take the first path of the deque. With None either the deque had one path at
    /// most, or `passed` is one more, up to the greatest u64: that counts the tries which the deque
    /// answers as lost to another taker.
    pub fn steal(&mut self) -> Option<Path>
        ensures stolen { IfSome result (λ path. self.new
            ≡ record self.old { stolen = self.old.stolen ++ path ∷ [] }) }
        ensures inside { IfSome result (λ path. in_tree self.old.ranked.mill
            (orders_of self.old.ranked) path ≡ true) }
        ensures nothing { IfNone result ((HadFew self.old × (self.new ≡ self.old))
            ⊎ (self.new ≡ record self.old { passed = one_more self.old.passed })) }
    {
        match self.stealer.steal_as::<Steals>(&mut self.pass) {
            Steal::Success(path) => Some(path),
            Steal::Empty => None,
            Steal::Retry => {
                self.passed = self.passed.saturating_add(1);
                None
            }
        }
    }
}
