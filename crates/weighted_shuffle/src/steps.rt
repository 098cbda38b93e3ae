ghost use Rattle.std.specs.Prelude.{◌≡◌, ◌+◌, ◌≤◌, ◌<◌, length, take, replicate, OnSome};
ghost use Rattle.std.specs.Option.{option_map};
ghost use Rattle.tree.specs.Sizes.{tree_size};
ghost use Rattle.tree.specs.Tree.{zero_node};
ghost use Rattle.tree.specs.Holds.{weights_of, Holds, SameTree};
ghost use Rattle.weighted_shuffle.specs.Order.{step, steps};
ghost use Rattle.weighted_shuffle.specs.State.{heavy, left_of, step_to};

use draws::draw_below;
use tree::Tree;
use words::WordSource;

// One step, to place i, yields a position, and the next state: what is left in the tree and among the zeros at the end of `drawn`. While
// weight is left, the position comes in proportion to its weight. Then it is one of the zeros, and the last of them, which stands first,
// moves into the gap. `drawn.swap(..)` in its place took 6 to 12 % more time.
fn step<W: WordSource>(words: &mut W, tree: &mut Tree, drawn: &mut [u64], i: usize) -> Option<u64>
    requires holds { Holds tree.old (weights_of tree.old) }
    requires room { length drawn.old ≡ tree.old.count }
    requires some { i < tree.old.count }
    requires left { i + heavy (weights_of tree.old) ≤ tree.old.count }
    ensures stepped { (option_map (λ p. step_to i p (weights_of tree.new) drawn.new) result, W.words words.new)
        ≡ step (left_of i (weights_of tree.old) drawn.old) (W.words words.old) }
    ensures holds { Holds tree.new (weights_of tree.new) }
    ensures left { OnSome result (i + 1 + heavy (weights_of tree.new) ≤ tree.old.count) }
    ensures front { take i drawn.new ≡ take i drawn.old }
    ensures same { SameTree tree.old tree.new }
{
    if tree.total > 0 {
        let v = draw_below(words, tree.total)?;
        let position = tree.take(v);
        return Some(position as u64);
    }
    let n = drawn.len();
    let v = draw_below(words, (n - i) as u64)?;
    let j = n - 1 - v as usize;
    let position = drawn[j];
    drawn[j] = drawn[i];
    Some(position)
}

// Draws all positions; `None` where the words run out. After the last, every sum in the tree is 0. By index, since a step reads and
// writes other places of `drawn` too.
pub(crate) fn draw_order<W: WordSource>(
    words: &mut W,
    tree: &mut Tree,
    drawn: &mut [u64],
) -> Option<()>
    requires holds { Holds tree.old (weights_of tree.old) }
    requires room { length drawn.old ≡ tree.old.count }
    ensures order { (option_map (λ _. drawn.new) result, W.words words.new)
        ≡ steps (length drawn.old) (left_of 0 (weights_of tree.old) drawn.old) (W.words words.old) }
    ensures cleared { OnSome result (tree.new.nodes.now ≡ replicate (tree_size tree.old.count) zero_node) }
    ensures same { SameTree tree.old tree.new }
{
    for i in 0..drawn.len() {
        drawn[i] = step(words, tree, drawn, i)?;
    }
    Some(())
}
