ghost use Rattle.std.specs.Prelude.{◌≤◌, ◌<◌, ◌≡◌, ◌+◌, ◌-◌, ◌^◌, length, replicate, get_or, set};
ghost use Rattle.draws.specs.Weighted.{chosen};
ghost use Rattle.tree.specs.Sizes.{tree_size};
ghost use Rattle.tree.specs.Holds.{weights_of, found, Holds, IsTreeOf, SameTree};

use crate::index::{child, offset, parent};
use crate::node::Node;
use crate::sizes::get_num_nodes_and_tree_size;

/// A tree of the sums of weights, over lent nodes. C lends them as one array, so one node names another by its index. It has no model: by
/// a model a lender would learn nothing of what its nodes hold afterwards. Each contract says that the nodes hold the sums, since a fact
/// in the struct would not hold while a change goes from node to node.
#[derive(Debug, Drop)]
pub struct Tree<'a> {
    pub nodes: &'a mut [Node],
    pub first_leaf: usize,
    pub count: usize,
    pub total: u64,
}

/// A position among the weights, and its weight.
#[derive(Clone, Copy, Debug, PartialEq, Eq)]
pub struct Found {
    pub position: usize,
    pub weight: u64,
}

impl<'a> Tree<'a> {
    /// A tree of so many zeros.
    pub fn new(nodes: &'a mut [Node], count: usize) -> Self
        requires few { count ≤ 4096 }
        requires size { length nodes.old ≡ tree_size count }
        ensures holds { IsTreeOf result (replicate count 0) }
        ensures count { result.count ≡ count }
        ensures same_nodes { result.nodes.ghost_name ≡ nodes.entry.ghost_name }
    {
        nodes.fill(Node { sums: [0; 16] });
        Tree {
            nodes,
            first_leaf: get_num_nodes_and_tree_size(count).num_nodes,
            count,
            total: 0,
        }
    }
}

impl Tree<'_> {
    // From the root down to the position that the value falls on. The way goes by index from node to node, so there is no list to iterate.
    fn find(&self, val: u64) -> Found
        requires holds { Holds self.now (weights_of self.now) }
        requires below { val < self.now.total }
        ensures found { result ≡ found (weights_of self.now) val }
        ensures place { result.position < self.now.count }
    {
        let nodes = &*self.nodes;
        let mut index = 0;
        let mut left = val;
        let mut weight = 0;
        while index < nodes.len() {
            let field = nodes[index].find_at(index, left);
            index = child(index, field.offset);
            left = field.val;
            weight = field.weight;
        }
        Found {
            position: index - self.first_leaf,
            weight,
        }
    }

    // On the way from a position up to the root, one weight takes the place of another in each sum. The way goes by index from node to
    // node, so there is no list to iterate.
    fn change(&mut self, position: usize, from: u64, to: u64)
        requires holds { Holds self.old (weights_of self.old) }
        requires place { position < self.old.count }
        requires from { from ≡ get_or (weights_of self.old) position 0 }
        requires fits { self.old.total - from + to < 2 ^ 64 }
        ensures holds { IsTreeOf self.new (set (weights_of self.old) position to) }
        ensures same { SameTree self.old self.new }
    {
        let mut index = self.first_leaf + position;
        while index != 0 {
            let j = offset(index);
            index = parent(index);
            let sum = self.nodes[index].sums[j];
            self.nodes[index].sums[j] = sum - from + to;
        }
        self.total = self.total - from + to;
    }

    /// Gives a weight to a position that has none.
    pub fn add(&mut self, position: usize, weight: u64)
        requires holds { Holds self.old (weights_of self.old) }
        requires place { position < self.old.count }
        requires none { get_or (weights_of self.old) position 0 ≡ 0 }
        requires fits { self.old.total + weight < 2 ^ 64 }
        ensures holds { IsTreeOf self.new (set (weights_of self.old) position weight) }
        ensures same { SameTree self.old self.new }
    {
        self.change(position, 0, weight);
    }

    /// The position that the value falls on, whose weight is then taken out of the tree.
    pub fn take(&mut self, val: u64) -> usize
        requires holds { Holds self.old (weights_of self.old) }
        requires below { val < self.old.total }
        ensures place { result ≡ chosen (weights_of self.old) val }
        ensures within { result < self.old.count }
        ensures holds { IsTreeOf self.new (set (weights_of self.old) result 0) }
        ensures same { SameTree self.old self.new }
    {
        let found = self.find(val);
        self.change(found.position, found.weight, 0);
        found.position
    }
}
