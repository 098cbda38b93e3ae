//! Replays stored cases of Turbine views, of seeds and of relays, and prints for each function how many agree.
#![tactic(auto)]

ghost use Rattle.std.specs.Prelude.{◌≡◌, ◌≤◌, ◌↔◌, if◌then◌else◌, length, take, nat_eq, slice_index, slice_set};
ghost use Rattle.std.specs.Prelude.{Err, Ok, IfOk, IfErr, IsTrue};
ghost use Rattle.refusals.specs.Refusal.{number_of};
ghost use Rattle.turbine_cases.specs.Told.{numbers_of};

use cases::{Failure, Reader, SEATS, STAKES, TryCases, WORDS, agrees};
use nodes_cases::{NODES, hold_after, nodes_before};
use refusals::Refusal;
use rotor::{TOTAL_SHREDS, sample_relay};
use seeds::{rotor_seed, turbine_seed};
use std::alloc::Global;
use std::io;
use turbine::{DEFAULT_FANOUT, TurbineTree, View};
use types::ValidatorIndex;
use words::ListWords;

// A text of so many bytes is too long. A test of the stored texts reads it in each program.
const ROOM: usize = 524288;

// The most bytes of a seed of a case.
const BYTES: u64 = 64;

// What each byte of a lent seed is before a call.
const HELD_BYTE: u8 = 165;

// The constants are the Rust's. Nothing calls this: the check proves it.
fn constants()
    ensures default_fanout_value { DEFAULT_FANOUT ≡ 200 }
    ensures total_shreds_value { TOTAL_SHREDS ≡ 64 }
{}

// A view's numbers as a stored text writes them: the root, 1 and the parent's id or two zeros, and the words read.
fn told(view: View) -> [u64; 4]
    ensures { result ≡ numbers_of view }
{
    let (named, parent) = match view.tree.get_parent() {
        Some(id) => (1, id.inner()),
        None => (0, 0),
    };
    [
        view.tree.get_root().inner(),
        named,
        parent,
        view.words_read as u64,
    ]
}

// The stated numbers of a view. Where no parent is stated, its id is not looked at: it counts as 0, as a view without one is told.
fn stated(numbers: [u64; 4]) -> [u64; 4]
    ensures { result ≡ (if nat_eq (slice_index numbers 1) 0 then slice_set numbers 2 0 else numbers) }
{
    let [root, named, parent, words_read] = numbers;
    let parent = if named == 0 { 0 } else { parent };
    [root, named, parent, words_read]
}

// Whether a call answers as stated and, where it is accepted, names these children.
// By a `match`: tried with `map`, and the check of borrows refused the view's second use.
fn answers(
    view: Result<View, Refusal>,
    expected: Result<[u64; 4], u64>,
    children: &[u64],
    named: &[u64],
) -> bool
    ensures accepted { IfOk view (λ v.
        IsTrue result ↔ (Ok (numbers_of v) ≡ expected) × (take v.tree.children children.now ≡ named.now)) }
    ensures refused { IfErr view (λ refusal. IsTrue result ↔ (Err (number_of refusal) ≡ expected)) }
{
    match view {
        Ok(view) => expected == Ok(told(view)) && view.tree.get_children(children) == named,
        Err(refusal) => expected == Err(refusal.number()),
    }
}

// A view. The numbers are the fanout, the own id, the cursor, and how many places of the order, nodes and places of the children are
// lent; the case expects the four numbers of a view, then the children and the order.
fn view_agrees(text: &mut Reader, alloc: Global) -> Result<bool, Failure>
    ensures { length text.new ≤ length text.old }
{
    let [fanout, own_id, cursor, places, nodes_lent, most_children] = text
        .numbers::<6>()
        .ok_or(Failure::Malformed)?;
    let stakes = text.list(STAKES, alloc)?.ok_or(Failure::Malformed)?;
    let list = text.list(WORDS, alloc)?.ok_or(Failure::Malformed)?;
    let expected = text.expected::<4>().ok_or(Failure::Malformed)?.map(stated);
    let named = text
        .list_if(expected.is_ok(), STAKES, alloc)?
        .ok_or(Failure::Malformed)?;
    let ordered = text
        .list_if(expected.is_ok(), STAKES, alloc)?
        .ok_or(Failure::Malformed)?;
    let order_before = cases::lent(places, STAKES, alloc)?;
    let children_before = cases::lent(most_children, STAKES, alloc)?;
    let mut order = order_before.clone()?;
    let mut children = children_before.clone()?;
    let mut nodes = nodes_before();
    let lent = nodes_lent.min(NODES as u64) as usize;
    let view = TurbineTree::new(
        &stakes,
        fanout as usize,
        ValidatorIndex::new(own_id),
        ListWords::new(&list, cursor as usize),
        &mut order,
        &mut nodes[..lent],
        &mut children,
    );
    let same = answers(view, expected, &children, &named);
    let same_nodes = hold_after(&nodes, expected.is_ok(), stakes.len());
    let same_lists = cases::holds_as_lent(&order, &order_before, &ordered)
        && cases::holds_as_lent(&children, &children_before, &named);
    Ok(same && same_nodes && same_lists)
}

// A seed, by its function. The numbers are the slot, the shred or slice, and how many bytes are lent; the case expects the bytes.
fn seed_agrees<F: FnOnce(u64, u64, &mut [u8]) -> Result<(), Refusal>>(
    write_seed: F,
    text: &mut Reader,
    alloc: Global,
) -> Result<bool, Failure>
    requires callable { F.IsAlwaysCallable write_seed }
    ensures { length text.new ≤ length text.old }
{
    let [slot, part, places] = text.numbers::<3>().ok_or(Failure::Malformed)?;
    let expected = text.expected::<0>().ok_or(Failure::Malformed)?;
    let wanted = text
        .list_if(expected.is_ok(), BYTES, alloc)?
        .ok_or(Failure::Malformed)?;
    let lent = places.min(BYTES) as usize;
    let before = [u64::from(HELD_BYTE); 64];
    let mut seed = [HELD_BYTE; 64];
    let seed = &mut seed[..lent];
    let answer = write_seed(slot, part, seed);
    let same = agrees(answer.map(|()| []), expected);
    Ok(same && cases::holds_as_lent(seed, &before[..lent], &wanted))
}

// A relay. The number is the shred's position; the case expects the relay's id.
fn relay_agrees(text: &mut Reader, alloc: Global) -> Result<bool, Failure>
    ensures { length text.new ≤ length text.old }
{
    let shred = text.number().ok_or(Failure::Malformed)?;
    let seats = text.list(SEATS, alloc)?.ok_or(Failure::Malformed)?;
    let expected = text.expected::<1>().ok_or(Failure::Malformed)?;
    let relay = sample_relay(&seats, shred as usize);
    let told = relay.map(|id| [id.inner()]);
    Ok(agrees(told, expected))
}

struct TurbineCases;

impl TryCases for TurbineCases {
    const OPERATIONS: &'static [&'static str] = &["view", "turbine_seed", "rotor_seed", "relay"];

    fn try_replay(operation: u64, text: &mut Reader, alloc: Global) -> Result<bool, Failure> {
        // A stored text names an operation by its number.
        match operation {
            1 => view_agrees(text, alloc),
            2 => seed_agrees(turbine_seed, text, alloc),
            3 => seed_agrees(rotor_seed, text, alloc),
            4 => relay_agrees(text, alloc),
            _ => Err(Failure::Malformed),
        }
    }
}

fn main(rt: HostRuntime) -> io::Result<()> {
    cases::replay::<TurbineCases>(&rt, ROOM)
}
