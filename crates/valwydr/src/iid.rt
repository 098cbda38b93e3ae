ghost use Rattle.std.specs.Prelude.{◌≡◌, drop};
ghost use Rattle.stake_weighted.specs.Calls.{sample, sample_quorum};
ghost use Rattle.valwydr.specs.Told.{told, sample_values, quorum_values};

use crate::tell::tell;
use stake_weighted::{IidQuorumSampler, Quorum, Sample, StakeWeightedSampler};
use words::ListWords;

// What the answer of a draw carries.
fn sample_values(sample: Sample) -> [u64; 2]
    ensures { result ≡ sample_values sample }
{
    [sample.id.inner(), sample.words_read as u64]
}

/// One validator. The answer: its id, the words read.
#[unsafe(no_mangle)]
pub extern "C" fn valwydr_stake_weighted_sample(
    stakes: &[u64],
    list: &[u64],
    cursor: usize,
    answer: &mut [u64; 2],
) -> u64
    ensures { (result, answer.new) ≡ told sample_values answer.old (sample stakes.now (drop cursor list.now)) }
{
    let sampler = StakeWeightedSampler::new();
    let call = sampler.sample(stakes, ListWords::new(list, cursor));
    tell(call.map(sample_values), answer)
}

// What the answer of a committee carries.
fn quorum_values(quorum: Quorum) -> [u64; 1]
    ensures { result ≡ quorum_values quorum }
{
    [quorum.words_read as u64]
}

/// A committee of `k`, written to the front of `seats`. The answer: the words read.
#[unsafe(no_mangle)]
pub extern "C" fn valwydr_iid_sample_quorum(
    k: usize,
    stakes: &[u64],
    list: &[u64],
    cursor: usize,
    seats: &mut [u64],
    answer: &mut [u64; 1],
) -> u64
    ensures { let call = sample_quorum k stakes.now seats.old (drop cursor list.now) in
        ((result, answer.new) ≡ told quorum_values answer.old call.0) × (seats.new ≡ call.1) }
{
    let sampler = IidQuorumSampler::new(StakeWeightedSampler::new(), k);
    let call = sampler.sample_quorum(stakes, ListWords::new(list, cursor), seats);
    tell(call.map(quorum_values), answer)
}
