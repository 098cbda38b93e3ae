//! Replays stored cases of the sampler of `partition`, and prints how many agree.
#![tactic(auto)]

use bins_cases::{Answer, BinsSampler, quorum_agrees};
use cases::{Failure, Reader, TryCases};
use fill::Columns;
use partition::PartitionSampler;
use refusals::Refusal;
use std::alloc::Global;
use std::io;
use words::ListWords;

// A text of so many bytes is too long. A test of the stored texts reads it in each program.
const ROOM: usize = 262144;

// The sampler of a case.
#[derive(Clone, Copy, Debug)]
struct Sampler(PartitionSampler);

impl BinsSampler<2> for Sampler {
    // The numbers are the words read of both lists.
    fn sample_quorum(
        self,
        stakes: &[u64],
        first: ListWords,
        second: ListWords,
        seats: &mut [u64],
        columns: &mut Columns,
    ) -> Result<Answer<2>, Refusal> {
        let partition = self.0.sample_quorum(stakes, first, second, seats, columns)?;
        Ok(Answer {
            numbers: [
                partition.first_words_read as u64,
                partition.second_words_read as u64,
            ],
            pieces: partition.pieces,
        })
    }
}

struct PartitionCases;

impl TryCases for PartitionCases {
    const OPERATIONS: &'static [&'static str] = &["sample_quorum"];

    fn try_replay(operation: u64, text: &mut Reader, alloc: Global) -> Result<bool, Failure> {
        // A stored text names an operation by its number.
        match operation {
            1 => quorum_agrees(|bins| Sampler(PartitionSampler::new(bins)), text, alloc),
            _ => Err(Failure::Malformed),
        }
    }
}

fn main(rt: HostRuntime) -> io::Result<()> {
    cases::replay::<PartitionCases>(&rt, ROOM)
}
