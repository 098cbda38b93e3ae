//! Nodes that a program lends to a call: what they hold before it, and what they must hold after it.
#![tactic(auto)]

ghost use Rattle.std.specs.Prelude.{◌≡◌, replicate, if◌then◌else◌};
ghost use Rattle.nodes_cases.specs.Held.{every, every_sum, zeros_then};

use tree::{Node, get_num_nodes_and_tree_size};

/// The most nodes that are lent. A tree of 4,096 weights has fewer.
pub const NODES: usize = 280;

/// What each sum of a lent node is before a call.
pub const HELD: u64 = u64::MAX;

/// A node whose sums are all the same.
pub fn filled(sum: u64) -> Node
    ensures { result ≡ record { sums = replicate 16 sum } }
{
    Node { sums: [sum; 16] }
}

/// The most nodes, as they are before a call.
pub fn nodes_before() -> [Node; NODES]
    ensures { result ≡ replicate 280 (record { sums = replicate 16 18446744073709551615 }) }
{
    [filled(HELD); NODES]
}

// Whether every sum of a node is this.
fn holds(node: &Node, sum: u64) -> bool
    ensures { result ≡ every sum node.now.sums }
{
    node.sums.iter().all(|value| *value == sum)
}

/// Whether each sum of all the nodes is `held`, as before: so after a refused call.
pub fn kept(nodes: &[Node], held: u64) -> bool
    ensures { result ≡ every_sum held nodes.now }
{
    nodes.iter().all(|node| holds(node, held))
}

/// Whether the nodes of the tree of n weights are zeros, and each sum of the others is `held`, as before: so after an accepted call.
pub fn cleared(nodes: &[Node], n: usize, held: u64) -> bool
    ensures { result ≡ zeros_then n held nodes.now }
{
    let size = get_num_nodes_and_tree_size(n).tree_size.min(nodes.len());
    kept(&nodes[..size], 0) && kept(&nodes[size..], held)
}

/// Whether the nodes are as a call for n weights, which was accepted or refused, must leave them.
pub fn hold_after(nodes: &[Node], accepted: bool, n: usize) -> bool
    ensures { result ≡ (if accepted then zeros_then n 18446744073709551615 nodes.now else every_sum 18446744073709551615 nodes.now) }
{
    if accepted {
        cleared(nodes, n, HELD)
    } else {
        kept(nodes, HELD)
    }
}
