//! The tables of a forest, and a new node in them.
ghost use Rattle.std.specs.Prelude.{◌≡◌, ◌<◌, ◌^◌, ◌++◌, ◌∷◌, [], Some, None, length};
ghost use Rattle.std.specs.Prelude.{IfOk, IfSome, OnErr, OnOk, vec_len, vec_capacity};
ghost use Rattle.index_links.specs.Links.{set_at};
ghost use Rattle.index_links.specs.Nodes.{behind, first_set};

use mill_model::OutOfMemory;
use std::alloc::Global;

// By node its label, its parent, its first child and its next sibling.
#[derive(Debug, Drop)]
pub(crate) struct Nodes {
    pub(crate) labels: Vec<u16>,
    pub(crate) parents: Vec<Option<u32>>,
    pub(crate) firsts: Vec<Option<u32>>,
    pub(crate) nexts: Vec<Option<u32>>,
}

impl Nodes {
    // No node. It takes no memory.
    pub(crate) fn none(alloc: Global) -> Nodes
        ensures labels { result.labels.items ≡ [] }
        ensures parents { result.parents.items ≡ [] }
        ensures firsts { result.firsts.items ≡ [] }
        ensures nexts { result.nexts.items ≡ [] }
    {
        Nodes {
            labels: Vec::new(alloc),
            parents: Vec::new(alloc),
            firsts: Vec::new(alloc),
            nexts: Vec::new(alloc),
        }
    }

    // Makes room for one more node.
    pub(crate) fn reserve(&mut self) -> Result<(), OutOfMemory>
        ensures labels { self.new.labels.items ≡ self.old.labels.items }
        ensures parents { self.new.parents.items ≡ self.old.parents.items }
        ensures firsts { self.new.firsts.items ≡ self.old.firsts.items }
        ensures nexts { self.new.nexts.items ≡ self.old.nexts.items }
        ensures room_labels { OnOk result (vec_len self.new.labels < vec_capacity self.new.labels) }
        ensures room_parents { OnOk result
            (vec_len self.new.parents < vec_capacity self.new.parents) }
        ensures room_firsts { OnOk result (vec_len self.new.firsts < vec_capacity self.new.firsts) }
        ensures room_nexts { OnOk result (vec_len self.new.nexts < vec_capacity self.new.nexts) }
    {
        self.labels.reserve(1)?;
        self.parents.reserve(1)?;
        self.firsts.reserve(1)?;
        self.nexts.reserve(1)?;
        Ok(())
    }

    // What a new node under a parent, or a new root, has behind it.
    fn behind(&self, parent: Option<u32>, before: Option<u32>) -> Option<u32>
        requires parent { IfSome parent (λ p. p < length self.now.firsts.items) }
        requires before { IfSome before (λ x. x < length self.now.nexts.items) }
        ensures { result ≡ behind self.now.firsts.items self.now.nexts.items parent before }
    {
        match before {
            Some(sibling) => self.nexts[sibling as usize],
            None => match parent {
                Some(parent) => self.firsts[parent as usize],
                None => None,
            },
        }
    }

    // Links to a new node from the one before it, or if there is none, from its parent.
    fn lead_to(&mut self, node: u32, parent: Option<u32>, before: Option<u32>)
        requires parent { IfSome parent (λ p. p < length self.old.firsts.items) }
        requires before { IfSome before (λ x. x < length self.old.nexts.items) }
        ensures firsts { self.new.firsts.items
            ≡ first_set parent before node self.old.firsts.items }
        ensures nexts { self.new.nexts.items ≡ set_at before (Some node) self.old.nexts.items }
        ensures labels { self.new.labels ≡ self.old.labels }
        ensures parents { self.new.parents ≡ self.old.parents }
        ensures room_firsts { vec_capacity self.new.firsts ≡ vec_capacity self.old.firsts }
        ensures room_nexts { vec_capacity self.new.nexts ≡ vec_capacity self.old.nexts }
        ensures count_firsts { vec_len self.new.firsts ≡ vec_len self.old.firsts }
        ensures count_nexts { vec_len self.new.nexts ≡ vec_len self.old.nexts }
    {
        match before {
            Some(sibling) => self.nexts[sibling as usize] = Some(node),
            None => {
                if let Some(parent) = parent {
                    self.firsts[parent as usize] = Some(node);
                }
            }
        }
    }

    // Puts a new node behind a node, or if there is none before it, first under a parent, and gives
    // its number.
    pub(crate) fn add(
        &mut self,
        label: u16,
        parent: Option<u32>,
        before: Option<u32>,
    ) -> Result<u32, OutOfMemory>
        requires parent { IfSome parent (λ p. p < length self.old.firsts.items) }
        requires before { IfSome before (λ x. x < length self.old.nexts.items) }
        requires few { length self.old.nexts.items < 2 ^ 32 }
        ensures number { IfOk result (λ node. node ≡ length self.old.nexts.items) }
        ensures labels { IfOk result (λ node. self.new.labels.items
            ≡ self.old.labels.items ++ label ∷ []) }
        ensures parents { IfOk result (λ node. self.new.parents.items
            ≡ self.old.parents.items ++ parent ∷ []) }
        ensures firsts { IfOk result (λ node. self.new.firsts.items
            ≡ first_set parent before node self.old.firsts.items ++ None ∷ []) }
        ensures nexts { IfOk result (λ node. self.new.nexts.items
            ≡ set_at before (Some node) self.old.nexts.items
            ++ behind self.old.firsts.items self.old.nexts.items parent before ∷ []) }
        ensures same_labels { OnErr result (self.new.labels.items ≡ self.old.labels.items) }
        ensures same_parents { OnErr result (self.new.parents.items ≡ self.old.parents.items) }
        ensures same_firsts { OnErr result (self.new.firsts.items ≡ self.old.firsts.items) }
        ensures same_nexts { OnErr result (self.new.nexts.items ≡ self.old.nexts.items) }
    {
        let after = self.behind(parent, before);
        self.reserve()?;
        let node = self.nexts.len() as u32;
        self.lead_to(node, parent, before);
        self.labels.push_reserved(label);
        self.parents.push_reserved(parent);
        self.firsts.push_reserved(None);
        self.nexts.push_reserved(after);
        Ok(node)
    }
}
