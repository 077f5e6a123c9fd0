//! The workers' deques.
ghost use Rattle.std.specs.Prelude.{◌≡◌, ◌<◌, ◌++◌, ◌∷◌, [], IfOk, IfSome, MatchResult, OnOk};
ghost use Rattle.std.specs.Prelude.{flat_map, length, replicate};
ghost use Rattle.std.specs.List.{list_all};
ghost use Rattle.search_step.specs.Moves.{last_of, front};
ghost use Rattle.search_step.specs.Serving.{IsPathOf};
ghost use Rattle.core_machine.specs.Core.{first_of, tail_of, is_empty};
ghost use Rattle.core_replay.specs.Lists.{list_at, with_list};

use mill_model::{OutOfMemory, Path};
use order_symmetry::Ranked;
use std::alloc::Global;
use std::collections::VecDeque;
use std::marker::Model;

// Deques of paths of the tree of ranked orders.
#[derive(Drop)]
pub(crate) struct Deques<'a> {
    ranked: &'a Ranked,
    deques: Vec<VecDeque<Path>>,
}

impl<'a> Model for Deques<'a> {
    ghost use Rattle.core_replay.specs.Lists.{DequeLists, lists_of, AllInTree};

    ghost Value = { DequeLists };

    ghost view = { λ d. record { ranked = d.ranked.now; lists = lists_of d.deques.items } };

    ghost invariant = { λ d. AllInTree d.ranked.now d.deques.items };
}

impl<'a> Deques<'a> {
    // So many deques without a path.
    pub(crate) fn new(
        alloc: Global,
        ranked: &'a Ranked,
        count: u16,
    ) -> Result<Deques<'a>, OutOfMemory>
        ensures ranked { IfOk result (λ d. d.ranked ≡ ranked.now) }
        ensures empty { IfOk result (λ d. d.lists ≡ replicate count []) }
    {
        let mut deques = Vec::new(alloc);
        for _ in 0..count {
            deques.push(VecDeque::new(alloc))?;
        }
        Ok(Deques { ranked, deques })
    }

    // The last path of a deque.
    pub(crate) fn pop_back(&mut self, at: u16) -> Option<Path>
        requires { at < length self.old.lists }
        ensures tree { IfSome result (IsPathOf self.old.ranked) }
        ensures is { result ≡ last_of (list_at self.old at) }
        ensures rest { self.new ≡ with_list self.old at (front (list_at self.old at)) }
    {
        self.deques[usize::from(at)].pop_back()
    }

    // The first path of a deque.
    pub(crate) fn pop_front(&mut self, at: u16) -> Option<Path>
        requires { at < length self.old.lists }
        ensures tree { IfSome result (IsPathOf self.old.ranked) }
        ensures is { result ≡ first_of (list_at self.old at) }
        ensures rest { self.new ≡ with_list self.old at (tail_of (list_at self.old at)) }
    {
        self.deques[usize::from(at)].pop_front()
    }

    // Puts a path last in a deque. It comes back for want of memory.
    pub(crate) fn push_back(&mut self, at: u16, path: Path) -> Result<(), Path>
        requires at { at < length self.old.lists }
        requires tree { IsPathOf self.old.ranked path }
        ensures { MatchResult result
            (λ _. self.new ≡ with_list self.old at (list_at self.old at ++ path ∷ []))
            (λ same. (same ≡ path) × (self.new ≡ self.old)) }
    {
        match self.deques[usize::from(at)].push_back(path) {
            Ok(()) => Ok(()),
            Err(refused) => Err(refused.value),
        }
    }

    // Whether no deque has a path.
    pub(crate) fn all_empty(&self) -> bool
        ensures { result ≡ list_all is_empty self.now.lists }
    {
        for deque in &self.deques {
            if !deque.is_empty() {
                return false;
            }
        }
        true
    }

    // Appends the paths of all deques.
    pub(crate) fn empty_into(self, paths: &mut Vec<Path>) -> Result<(), OutOfMemory>
        ensures { OnOk result (paths.new.items
            ≡ paths.old.items ++ flat_map (λ list. list) self.entry.lists) }
    {
        for deque in self.deques {
            for path in deque {
                paths.push(path)?;
            }
        }
        Ok(())
    }
}
