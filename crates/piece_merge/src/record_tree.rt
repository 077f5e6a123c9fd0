//! Records in a tree of their paths: siblings rise by label, so the tree in preorder has the
//! records by rising path.
ghost use Rattle.std.specs.Prelude.{◌≡◌, ◌+◌, ◌-◌, ◌<◌, ◌≤◌, ◌^◌, ◌++◌, ◌∷◌, [], Some, None, true};
ghost use Rattle.std.specs.Prelude.{IfOk, length, option_to_list, slice_set};
ghost use Rattle.std.specs.List.Sorted.{IsPermutation};
ghost use Rattle.index_links.specs.Forest.{nodes_of};
ghost use Rattle.mill_model.specs.Log.{recorded};
ghost use Rattle.refute_log.specs.Rising.{rises};
ghost use Rattle.piece_merge.specs.Paths.{GrewAlong, path_of};
ghost use Rattle.piece_merge.specs.RecordTree.{HasGrown, IsRecordTree, IsWithoutPath};
ghost use Rattle.piece_merge.specs.RecordTree.{present, record_at};

use crate::tree_walk::{child_with, next_node};
use index_links::TreeLinks;
use mill_model::{Entry, OutOfMemory};
use std::alloc::Global;

// A tree whose labels are the numbers of paths, and by node the record of its path, once it has
// come. The first node is the root, the empty path.
#[derive(Drop)]
pub(crate) struct RecordTree {
    links: TreeLinks,
    records: Vec<Option<Entry>>,
}

impl RecordTree {
    // No record, and the root alone.
    pub(crate) fn new(alloc: Global) -> Result<RecordTree, OutOfMemory>
        ensures tree { IfOk result (λ tree. IsRecordTree tree.links tree.records.items) }
        ensures none { IfOk result (λ tree. present tree.records.items ≡ []) }
        ensures root { IfOk result (λ tree. nodes_of tree.links ≡ 1) }
    {
        let mut links = TreeLinks::new(alloc);
        links.add(None, 0)?;
        let mut records = Vec::new(alloc);
        records.push(None)?;
        Ok(RecordTree { links, records })
    }

    // Puts a record beside the node of its path, with the nodes on the way to it.
    pub(crate) fn place(&mut self, entry: Entry) -> Result<(), OutOfMemory>
        requires tree { IsRecordTree self.old.links self.old.records.items }
        requires few { nodes_of self.old.links + length entry.path < 2 ^ 32 - 1 }
        requires apart { IsWithoutPath entry.path (present self.old.records.items) }
        ensures tree { IfOk result (λ _. IsRecordTree self.new.links self.new.records.items) }
        ensures records { IfOk result (λ _. IsPermutation
            (entry ∷ present self.old.records.items) (present self.new.records.items)) }
        ensures grew { IfOk result (λ _. GrewAlong entry.path self.old.links self.new.links) }
    {
        let node = self.node_of(entry.path.numbers())?;
        self.records[node as usize] = Some(entry);
        Ok(())
    }

    // The node of a path, which is made where it is missing, with those on the way to it.
    fn node_of(&mut self, path: &[u16]) -> Result<u32, OutOfMemory>
        requires tree { IsRecordTree self.old.links self.old.records.items }
        requires few { nodes_of self.old.links + length path.now < 2 ^ 32 - 1 }
        ensures tree { IfOk result (λ _. IsRecordTree self.new.links self.new.records.items) }
        ensures there { IfOk result (λ node. node < nodes_of self.new.links) }
        ensures path { IfOk result (λ node. path_of self.new.links node ≡ path.now) }
        ensures records { IfOk result (λ _.
            present self.new.records.items ≡ present self.old.records.items) }
        ensures grew { IfOk result (λ _. GrewAlong path.now self.old.links self.new.links) }
    {
        let mut node = 0;
        for &label in path {
            node = self.child(node, label)?;
        }
        Ok(node)
    }

    // The child of a node with a label, which is made where it is missing.
    fn child(&mut self, node: u32, label: u16) -> Result<u32, OutOfMemory>
        requires tree { IsRecordTree self.old.links self.old.records.items }
        requires node { node < nodes_of self.old.links }
        requires few { nodes_of self.old.links < 2 ^ 32 - 1 }
        ensures tree { IfOk result (λ _. IsRecordTree self.new.links self.new.records.items) }
        ensures there { IfOk result (λ child. child < nodes_of self.new.links) }
        ensures path { IfOk result (λ child. path_of self.new.links child
            ≡ path_of self.old.links node ++ label ∷ []) }
        ensures records { IfOk result (λ _.
            present self.new.records.items ≡ present self.old.records.items) }
        ensures grew { IfOk result (λ child. HasGrown child self.old.links self.new.links) }
    {
        match child_with(&self.links, node, label) {
            Some(child) => Ok(child),
            None => {
                let child = self.links.add(Some(node), label)?;
                self.records.push(None)?;
                Ok(child)
            }
        }
    }

    // The records by rising path: the tree in preorder.
    pub(crate) fn into_rising(
        mut self,
        alloc: Global,
        count: usize,
    ) -> Result<Vec<Entry>, OutOfMemory>
        requires { IsRecordTree self.links self.records.items }
        ensures records { IfOk result (λ entries.
            IsPermutation (present self.records.items) entries.items) }
        ensures rise { IfOk result (λ entries. rises (recorded entries.items) ≡ true) }
    {
        let mut entries = Vec::with_capacity(alloc, count)?;
        let mut next = Some(0);
        while let Some(node) = next {
            take_record(&mut self.records, node, &mut entries)?;
            next = next_node(&self.links, node);
        }
        Ok(entries)
    }
}

// Takes the record beside a node, if there is one, and appends it.
fn take_record(
    records: &mut Vec<Option<Entry>>,
    node: u32,
    entries: &mut Vec<Entry>,
) -> Result<(), OutOfMemory>
    requires { node < length records.old.items }
    ensures records { IfOk result (λ _.
        records.new.items ≡ slice_set records.old.items node None) }
    ensures entries { IfOk result (λ _. entries.new.items
        ≡ entries.old.items ++ option_to_list (record_at records.old.items node)) }
{
    if let Some(entry) = records[node as usize].take() {
        entries.push(entry)?;
    }
    Ok(())
}
