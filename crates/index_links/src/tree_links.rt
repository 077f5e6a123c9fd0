//! A forest by first child, next sibling and parent.
ghost use Rattle.std.specs.Prelude.{◌≡◌, ◌-◌, ◌<◌, ◌^◌, IfOk, IfSome, OnErr, slice_get};
ghost use Rattle.index_links.specs.Lists.{after};
ghost use Rattle.index_links.specs.Forest.{IsForest, IsFreeUnder, IsThere, children_of, label_of};
ghost use Rattle.index_links.specs.Forest.{no_nodes, nodes_before, nodes_of, parent_of};
ghost use Rattle.index_links.specs.Forest.{siblings_of};
ghost use Rattle.index_links.specs.Forest.{with_node};
ghost use Rattle.index_links.specs.Nodes.{last_of};

use crate::nodes::Nodes;
use mill_model::OutOfMemory;
use std::alloc::Global;
use std::marker::Model;

/// A forest of labelled nodes, numbered from 0 in the order of coming, and linked by first child,
/// next sibling and parent. It is seen as the label, the parent and the children of each node, and
/// the roots. Children stand by rising label, roots in the order of coming.
#[derive(Debug, Drop)]
pub struct TreeLinks {
    nodes: Nodes,
    last_root: Option<u32>,
}

impl Model for TreeLinks {
    ghost use Rattle.index_links.specs.Forest.{Forest};
    ghost use Rattle.index_links.specs.Nodes.{AreLinksOf, forest_of};

    ghost Value = { Forest };

    ghost view = { λ t. forest_of t.nodes.labels.items t.nodes.parents.items
        t.nodes.firsts.items t.nodes.nexts.items };

    ghost invariant = { λ t. AreLinksOf t.nodes.firsts.items t.nodes.nexts.items t.last_root
        (forest_of t.nodes.labels.items t.nodes.parents.items
        t.nodes.firsts.items t.nodes.nexts.items) };
}

impl TreeLinks {
    /// No node. It takes no memory.
    pub fn new(alloc: Global) -> TreeLinks
        ensures is { result ≡ no_nodes }
        ensures kept { IsForest result }
    {
        TreeLinks {
            nodes: Nodes::none(alloc),
            last_root: None,
        }
    }

    /// Puts a new node among the children of a parent by rising label, or as a new last root, and
    /// gives its number. The nodes that were there keep their numbers.
    pub fn add(&mut self, parent: Option<u32>, label: u16) -> Result<u32, OutOfMemory>
        requires there { IsThere self.old parent }
        requires apart { IsFreeUnder self.old parent label }
        requires few { nodes_of self.old < 2 ^ 32 - 1 }
        ensures added { IfOk result (λ node. self.new ≡ with_node self.old parent label) }
        ensures number { IfOk result (λ node. node ≡ nodes_of self.old) }
        ensures unchanged { OnErr result (self.new ≡ self.old) }
        ensures kept { IsForest self.new }
    {
        let before = self.sibling_before(parent, label);
        let node = self.nodes.add(label, parent, before)?;
        if parent.is_none() {
            self.last_root = Some(node);
        }
        Ok(node)
    }

    /// The parent of a node, where it is no root.
    pub fn parent(&self, node: u32) -> Option<u32>
        requires { node < nodes_of self.now }
        ensures is { result ≡ parent_of self.now node }
        ensures kept { IsForest self.now }
    {
        self.nodes.parents[node as usize]
    }

    /// The first child of a node, where it has one.
    pub fn first_child(&self, node: u32) -> Option<u32>
        requires { node < nodes_of self.now }
        ensures is { result ≡ slice_get (children_of self.now node) 0 }
        ensures kept { IsForest self.now }
    {
        self.nodes.firsts[node as usize]
    }

    /// The node behind a node among the children of its parent, or among the roots.
    pub fn next_sibling(&self, node: u32) -> Option<u32>
        requires { node < nodes_of self.now }
        ensures is { result ≡ after node (siblings_of self.now node) }
        ensures kept { IsForest self.now }
    {
        self.nodes.nexts[node as usize]
    }

    /// The label of a node.
    pub fn label(&self, node: u32) -> u16
        requires { node < nodes_of self.now }
        ensures is { result ≡ label_of self.now node }
        ensures kept { IsForest self.now }
    {
        self.nodes.labels[node as usize]
    }

    // The last of the nodes that stand before a new one.
    fn sibling_before(&self, parent: Option<u32>, label: u16) -> Option<u32>
        requires { IsThere self.now parent }
        ensures { result ≡ last_of (nodes_before self.now parent label) }
    {
        let Some(parent) = parent else {
            return self.last_root;
        };
        let mut before = None;
        let mut next = self.first_child(parent);
        while let Some(child) = next {
            if self.label(child) >= label {
                break;
            }
            before = next;
            next = self.next_sibling(child);
        }
        before
    }
}
