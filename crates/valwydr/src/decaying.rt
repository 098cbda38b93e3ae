ghost use Rattle.std.specs.Prelude.{◌≡◌, length, drop, replicate};
ghost use Rattle.decaying_acceptance.specs.Calls.{sample_one, sample_quorum};
ghost use Rattle.valwydr.specs.Told.{told, tried_values, tried_quorum_values};

use crate::tell::tell;
use decaying_acceptance::{DecayingAcceptanceSampler, Quorum, Sample};
use words::ListWords;

// What the answer of a draw carries.
fn tried_values(sample: Sample) -> [u64; 3]
    ensures { result ≡ tried_values sample }
{
    [
        sample.id.inner(),
        sample.tries as u64,
        sample.words_read as u64,
    ]
}

/// One validator, whose count rises by 1. The answer: its id, the tries made, the words read.
#[unsafe(no_mangle)]
pub extern "C" fn valwydr_decaying_acceptance_sample_one(
    max_samples: f64,
    tries_allowed: usize,
    stakes: &[u64],
    counts: &mut [u32],
    list: &[u64],
    cursor: usize,
    answer: &mut [u64; 3],
) -> u64
    ensures { let call = sample_one (record { limits = record { max_samples = max_samples; tries_allowed = tries_allowed }; k = 1 })
        stakes.now counts.old (drop cursor list.now) in
        ((result, answer.new) ≡ told tried_values answer.old call.0) × (counts.new ≡ call.1) }
{
    let sampler = DecayingAcceptanceSampler::new(max_samples, tries_allowed, 1);
    let call = sampler.sample_one(stakes, counts, ListWords::new(list, cursor));
    tell(call.map(tried_values), answer)
}

// What the answer of a committee carries.
fn tried_quorum_values(quorum: Quorum) -> [u64; 2]
    ensures { result ≡ tried_quorum_values quorum }
{
    [quorum.tries as u64, quorum.words_read as u64]
}

/// A committee of `k`, written to the front of `seats`; the counts of the list's validators are then 0. The answer: the tries made over all
/// seats, the words read.
// Over seven parameters: C passes each slice and each cursor by itself.
#[unsafe(no_mangle)]
pub extern "C" fn valwydr_decaying_acceptance_sample_quorum(
    max_samples: f64,
    tries_allowed: usize,
    k: usize,
    stakes: &[u64],
    counts: &mut [u32],
    list: &[u64],
    cursor: usize,
    seats: &mut [u64],
    answer: &mut [u64; 2],
) -> u64
    ensures { let call = sample_quorum (record { limits = record { max_samples = max_samples; tries_allowed = tries_allowed }; k = k })
        stakes.now counts.old seats.old (drop cursor list.now) in
        ((result, answer.new) ≡ told tried_quorum_values answer.old call.0) × (counts.new ≡ call.1) × (seats.new ≡ call.2) }
{
    let sampler = DecayingAcceptanceSampler::new(max_samples, tries_allowed, k);
    let call = sampler.sample_quorum(stakes, counts, ListWords::new(list, cursor), seats);
    tell(call.map(tried_quorum_values), answer)
}

/// Sets all the counts to 0.
#[unsafe(no_mangle)]
pub extern "C" fn valwydr_decaying_acceptance_reset(counts: &mut [u32])
    ensures { counts.new ≡ replicate (length counts.old) 0 }
{
    let sampler = DecayingAcceptanceSampler::new(1.0, 1, 0);
    sampler.reset(counts);
}
