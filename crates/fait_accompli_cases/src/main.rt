//! Replays stored cases of the sampler of `fait_accompli`, and prints for each fallback how many agree.
#![tactic(auto)]

use bins_cases::{Answer, BinsSampler, quorum_agrees};
use cases::{Failure, Reader, TryCases};
use fait_accompli::FaitAccompli1Sampler;
use fill::Columns;
use refusals::Refusal;
use std::alloc::Global;
use std::io;
use words::ListWords;

// A text of so many bytes is too long. A test of the stored texts reads it in each program.
const ROOM: usize = 262144;

// The sampler of a case.
#[derive(Clone, Copy, Debug)]
struct Sampler(FaitAccompli1Sampler);

impl BinsSampler<3> for Sampler {
    // The numbers are the further seats and the words read of both lists.
    fn sample_quorum(
        self,
        stakes: &[u64],
        first: ListWords,
        second: ListWords,
        seats: &mut [u64],
        columns: &mut Columns,
    ) -> Result<Answer<3>, Refusal> {
        let committee = self.0.sample_quorum(stakes, first, second, seats, columns)?;
        Ok(Answer {
            numbers: [
                committee.further as u64,
                committee.first_words_read as u64,
                committee.second_words_read as u64,
            ],
            pieces: committee.pieces,
        })
    }
}

struct FaitAccompliCases;

impl TryCases for FaitAccompliCases {
    const OPERATIONS: &'static [&'static str] = &["partition_fallback", "stake_weighted_fallback"];

    fn try_replay(operation: u64, text: &mut Reader, alloc: Global) -> Result<bool, Failure> {
        // A stored text names an operation by its number.
        match operation {
            1 => quorum_agrees(
                |k| Sampler(FaitAccompli1Sampler::new_with_partition_fallback(k)),
                text,
                alloc,
            ),
            2 => quorum_agrees(
                |k| Sampler(FaitAccompli1Sampler::new_with_stake_weighted_fallback(k)),
                text,
                alloc,
            ),
            _ => Err(Failure::Malformed),
        }
    }
}

fn main(rt: HostRuntime) -> io::Result<()> {
    cases::replay::<FaitAccompliCases>(&rt, ROOM)
}
