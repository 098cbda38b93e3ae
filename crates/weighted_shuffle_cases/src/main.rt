//! Replays stored cases of the weighted shuffle, and prints for each function how many agree.
#![tactic(auto)]

ghost use Rattle.std.specs.Prelude.{◌≡◌, ◌≤◌, ◌↔◌, length, reverse, take, IsTrue};

use cases::{Failure, Reader, STAKES, TryCases, WORDS, agrees};
use nodes_cases::{NODES, hold_after, nodes_before};
use std::alloc::Global;
use std::io;
use tree::{Node, get_num_nodes_and_tree_size};
use weighted_shuffle::{shuffle, try_begin};
use words::ListWords;

// A text of so many bytes is too long. A test of the stored texts reads it in each program.
const ROOM: usize = 524288;

// The most positions and sums of a case.
const POSITIONS: u64 = 4096;

const SUMS: u64 = 4368;

// The sizes of a tree. The case's number is the count; it expects both sizes.
fn sizes_agree(text: &mut Reader) -> Result<bool, Failure>
    ensures { length text.new ≤ length text.old }
{
    let count = text.number().ok_or(Failure::Malformed)?;
    let expected = text.expected::<2>().ok_or(Failure::Malformed)?;
    let sizes = get_num_nodes_and_tree_size(count as usize);
    Ok(agrees(
        Ok([sizes.num_nodes as u64, sizes.tree_size as u64]),
        expected,
    ))
}

// The sum at a place, where the sums of the nodes stand one after the other; 0 past them.
fn sum_at(nodes: &[Node], place: usize) -> u64 {
    nodes
        .get(place / 16)
        .map_or(0, |node| node.sums[place % 16])
}

// Whether a tree's nodes hold these sums, one after the other. Past the end of either, a sum counts as 0.
fn same_sums(nodes: &[Node], sums: &[u64]) -> bool {
    (0..SUMS as usize).all(|place| sum_at(nodes, place) == sums.get(place).map_or(0, |sum| *sum))
}

// Whether a list ends with another read backwards.
fn ends_backwards(list: &[u64], end: &[u64]) -> bool
    ensures { IsTrue result ↔ (take (length end.now) (reverse list.now) ≡ end.now) }
{
    end.len() <= list.len() && list.iter().rev().zip(end).all(|(a, b)| a == b)
}

// How a shuffle begins. The numbers are how many places and nodes are lent; the case expects the weight, then the sums and the zeros,
// of which the first stands last.
fn begin_agrees(text: &mut Reader, alloc: Global) -> Result<bool, Failure>
    ensures { length text.new ≤ length text.old }
{
    let [places, nodes_lent] = text.numbers::<2>().ok_or(Failure::Malformed)?;
    let weights = text.list(STAKES, alloc)?.ok_or(Failure::Malformed)?;
    let expected = text.expected::<1>().ok_or(Failure::Malformed)?;
    let sums = text
        .list_if(expected.is_ok(), SUMS, alloc)?
        .ok_or(Failure::Malformed)?;
    let zeros = text
        .list_if(expected.is_ok(), POSITIONS, alloc)?
        .ok_or(Failure::Malformed)?;
    let n = weights.len();
    let mut drawn = cases::lent(n as u64, STAKES, alloc)?;
    let mut nodes = nodes_before();
    let lent = nodes_lent.min(NODES as u64) as usize;
    let answer = try_begin(&weights, places as usize, &mut nodes[..lent], &mut drawn);
    let size = get_num_nodes_and_tree_size(n).tree_size;
    let begun = nodes.get(..size).is_some_and(|tree| same_sums(tree, &sums))
        && ends_backwards(&drawn, &zeros);
    let same = answer.is_err() || begun;
    Ok(agrees(answer.map(|weight| [weight]), expected) && same)
}

// An order. The numbers are the cursor and how many places are lent; the case expects the words read, then the order.
fn shuffle_agrees(text: &mut Reader, alloc: Global) -> Result<bool, Failure>
    ensures { length text.new ≤ length text.old }
{
    let [cursor, places] = text.numbers::<2>().ok_or(Failure::Malformed)?;
    let weights = text.list(STAKES, alloc)?.ok_or(Failure::Malformed)?;
    let list = text.list(WORDS, alloc)?.ok_or(Failure::Malformed)?;
    let expected = text.expected::<1>().ok_or(Failure::Malformed)?;
    let ordered = text
        .list_if(expected.is_ok(), STAKES, alloc)?
        .ok_or(Failure::Malformed)?;
    let before = cases::lent(places, STAKES, alloc)?;
    let mut order = before.clone()?;
    let mut nodes = nodes_before();
    let words = ListWords::new(&list, cursor as usize);
    let answer = shuffle(&weights, words, &mut order, &mut nodes);
    let same_nodes = hold_after(&nodes, answer.is_ok(), weights.len());
    let told = answer.map(|order| [order.words_read as u64]);
    let same = agrees(told, expected);
    Ok(same && same_nodes && cases::holds_as_lent(&order, &before, &ordered))
}

struct ShuffleCases;

impl TryCases for ShuffleCases {
    const OPERATIONS: &'static [&'static str] = &[
        "get_num_nodes_and_tree_size",
        "begin",
        "shuffle",
    ];

    fn try_replay(operation: u64, text: &mut Reader, alloc: Global) -> Result<bool, Failure> {
        // A stored text names an operation by its number.
        match operation {
            1 => sizes_agree(text),
            2 => begin_agrees(text, alloc),
            3 => shuffle_agrees(text, alloc),
            _ => Err(Failure::Malformed),
        }
    }
}

fn main(rt: HostRuntime) -> io::Result<()> {
    cases::replay::<ShuffleCases>(&rt, ROOM)
}
