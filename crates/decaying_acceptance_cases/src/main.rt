//! Replays stored cases of the sampler of `decaying_acceptance`, and prints for each operation how many agree.
#![tactic(auto)]

ghost use Rattle.std.specs.Prelude.{◌≡◌, ◌≤◌, length, IfOk};

use cases::{Failure, Reader, SEATS, STAKES, TryCases, WORDS, agrees};
use decaying_acceptance::DecayingAcceptanceSampler;
use std::alloc::Global;
use std::io;
// Not a method of f64: a NaN keeps its bits.
use std::num::f64_from_bits_with_nan;
use words::ListWords;

// A text of so many bytes is too long. A test of the stored texts reads it in each program.
const ROOM: usize = 262144;

// Numbers as counts: malformed where one exceeds a u32.
fn counts_of(numbers: &[u64], alloc: Global) -> Result<Vec<u32>, Failure>
    ensures { IfOk result (λ counts. counts.items ≡ numbers.now) }
{
    numbers
        .iter()
        .map(|number| u32::try_from(*number).map_err(|_| Failure::Malformed))
        .try_collect(alloc)
}

// One validator. The numbers are max_samples by its bits, the tries allowed and the cursor; the case expects the id, the tries and the
// words read, then the counts.
fn one_agrees(text: &mut Reader, alloc: Global) -> Result<bool, Failure>
    ensures { length text.new ≤ length text.old }
{
    let [max_samples, allowed, cursor] = text.numbers::<3>().ok_or(Failure::Malformed)?;
    let stakes = text.list(STAKES, alloc)?.ok_or(Failure::Malformed)?;
    let before = text.list(STAKES, alloc)?.ok_or(Failure::Malformed)?;
    let list = text.list(WORDS, alloc)?.ok_or(Failure::Malformed)?;
    let expected = text.expected::<3>().ok_or(Failure::Malformed)?;
    let counted = text
        .list_if(expected.is_ok(), STAKES, alloc)?
        .ok_or(Failure::Malformed)?;
    let mut counts = counts_of(&before, alloc)?;
    let words = ListWords::new(&list, cursor as usize);
    let sampler = DecayingAcceptanceSampler::new(
        f64_from_bits_with_nan(max_samples),
        allowed as usize,
        1,
    );
    let answer = sampler.sample_one(&stakes, &mut counts, words);
    let told = answer.map(|s| [s.id.inner(), s.tries as u64, s.words_read as u64]);
    let same = agrees(told, expected);
    Ok(same && cases::holds_as_lent(&counts, &before, &counted))
}

// A committee. The numbers are k, max_samples by its bits, the tries allowed, the cursor and how many seats are lent; the case expects the
// tries and the words read, then the seats and the counts.
fn quorum_agrees(text: &mut Reader, alloc: Global) -> Result<bool, Failure>
    ensures { length text.new ≤ length text.old }
{
    let [k, max_samples, allowed, cursor, places] = text.numbers::<5>().ok_or(Failure::Malformed)?;
    let stakes = text.list(STAKES, alloc)?.ok_or(Failure::Malformed)?;
    let before = text.list(STAKES, alloc)?.ok_or(Failure::Malformed)?;
    let list = text.list(WORDS, alloc)?.ok_or(Failure::Malformed)?;
    let expected = text.expected::<2>().ok_or(Failure::Malformed)?;
    let seated = text
        .list_if(expected.is_ok(), SEATS, alloc)?
        .ok_or(Failure::Malformed)?;
    let counted = text
        .list_if(expected.is_ok(), STAKES, alloc)?
        .ok_or(Failure::Malformed)?;
    let mut counts = counts_of(&before, alloc)?;
    let lent = cases::lent(places, SEATS, alloc)?;
    let mut seats = lent.clone()?;
    let words = ListWords::new(&list, cursor as usize);
    let max_samples = f64_from_bits_with_nan(max_samples);
    let sampler = DecayingAcceptanceSampler::new(max_samples, allowed as usize, k as usize);
    let answer = sampler.sample_quorum(&stakes, &mut counts, words, &mut seats);
    let told = answer.map(|quorum| [quorum.tries as u64, quorum.words_read as u64]);
    let same = agrees(told, expected);
    let same_seats = cases::holds_as_lent(&seats, &lent, &seated);
    Ok(same && same_seats && cases::holds_as_lent(&counts, &before, &counted))
}

// A reset: the counts before, and after it all of them. A count that is not stated is 0.
fn reset_agrees(text: &mut Reader, alloc: Global) -> Result<bool, Failure>
    ensures { length text.new ≤ length text.old }
{
    let before = text.list(STAKES, alloc)?.ok_or(Failure::Malformed)?;
    let expected = text.expected::<0>().ok_or(Failure::Malformed)?;
    let counted = text
        .list_if(expected.is_ok(), STAKES, alloc)?
        .ok_or(Failure::Malformed)?;
    let mut counts = counts_of(&before, alloc)?;
    let zeros = vec![in alloc; 0; counts.len()]?;
    DecayingAcceptanceSampler::new(1.0, 1, 1).reset(&mut counts);
    let same = agrees(Ok([]), expected);
    Ok(same && cases::holds_as_lent(&counts, &zeros, &counted))
}

struct DecayingCases;

impl TryCases for DecayingCases {
    const OPERATIONS: &'static [&'static str] = &["sample_one", "sample_quorum", "reset"];

    fn try_replay(operation: u64, text: &mut Reader, alloc: Global) -> Result<bool, Failure> {
        // A stored text names an operation by its number.
        match operation {
            1 => one_agrees(text, alloc),
            2 => quorum_agrees(text, alloc),
            3 => reset_agrees(text, alloc),
            _ => Err(Failure::Malformed),
        }
    }
}

fn main(rt: HostRuntime) -> io::Result<()> {
    cases::replay::<DecayingCases>(&rt, ROOM)
}
