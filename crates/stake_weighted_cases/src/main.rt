//! Replays stored cases of the samplers of `stake_weighted`, and prints for each operation how many agree.
#![tactic(auto)]

ghost use Rattle.std.specs.Prelude.{◌≤◌, length};

use cases::{Failure, Reader, SEATS, STAKES, TryCases, WORDS, agrees};
use stake_weighted::{IidQuorumSampler, StakeWeightedSampler};
use std::alloc::Global;
use std::io;
use words::ListWords;

// A text of so many bytes is too long. A test of the stored texts reads it in each program.
const ROOM: usize = 262144;

// One validator. The case's number is the cursor; it expects the id and the words read.
fn sample_agrees(text: &mut Reader, alloc: Global) -> Result<bool, Failure>
    ensures { length text.new ≤ length text.old }
{
    let cursor = text.number().ok_or(Failure::Malformed)?;
    let stakes = text.list(STAKES, alloc)?.ok_or(Failure::Malformed)?;
    let list = text.list(WORDS, alloc)?.ok_or(Failure::Malformed)?;
    let expected = text.expected::<2>().ok_or(Failure::Malformed)?;
    let words = ListWords::new(&list, cursor as usize);
    let answer = StakeWeightedSampler::new().sample(&stakes, words);
    let told = answer.map(|sample| [sample.id.inner(), sample.words_read as u64]);
    Ok(agrees(told, expected))
}

// A committee. The numbers are k, the cursor and how many seats are lent; the case expects the words read, then the seats.
fn quorum_agrees(text: &mut Reader, alloc: Global) -> Result<bool, Failure>
    ensures { length text.new ≤ length text.old }
{
    let [k, cursor, places] = text.numbers::<3>().ok_or(Failure::Malformed)?;
    let stakes = text.list(STAKES, alloc)?.ok_or(Failure::Malformed)?;
    let list = text.list(WORDS, alloc)?.ok_or(Failure::Malformed)?;
    let expected = text.expected::<1>().ok_or(Failure::Malformed)?;
    let seated = text
        .list_if(expected.is_ok(), SEATS, alloc)?
        .ok_or(Failure::Malformed)?;
    let before = cases::lent(places, SEATS, alloc)?;
    let mut seats = before.clone()?;
    let words = ListWords::new(&list, cursor as usize);
    let sampler = IidQuorumSampler::new(StakeWeightedSampler::new(), k as usize);
    let answer = sampler.sample_quorum(&stakes, words, &mut seats);
    let told = answer.map(|quorum| [quorum.words_read as u64]);
    let same = agrees(told, expected);
    Ok(same && cases::holds_as_lent(&seats, &before, &seated))
}

struct StakeWeightedCases;

impl TryCases for StakeWeightedCases {
    const OPERATIONS: &'static [&'static str] = &["sample", "sample_quorum"];

    fn try_replay(operation: u64, text: &mut Reader, alloc: Global) -> Result<bool, Failure> {
        // A stored text names an operation by its number.
        match operation {
            1 => sample_agrees(text, alloc),
            2 => quorum_agrees(text, alloc),
            _ => Err(Failure::Malformed),
        }
    }
}

fn main(rt: HostRuntime) -> io::Result<()> {
    cases::replay::<StakeWeightedCases>(&rt, ROOM)
}
