ghost use Rattle.std.specs.Prelude.{◌≡◌, [], drop};
ghost use Rattle.partition.specs.Calls.{Lent};
ghost use Rattle.partition.specs.Calls as partition;
ghost use Rattle.fait_accompli.specs.declared.quorum.Fallback.TheVariants.{Bins, Draws};
ghost use Rattle.fait_accompli.specs.Calls as committee;
ghost use Rattle.valwydr.specs.Told.{told, partition_values, committee_values};

use crate::tell::tell;
use fait_accompli::{Committee, FaitAccompli1Sampler};
use fill::Columns;
use partition::{Partition, PartitionSampler};
use words::ListWords;

// What the answer of a partition carries.
fn partition_values(partition: Partition) -> [u64; 3]
    ensures { result ≡ partition_values partition }
{
    [
        partition.pieces as u64,
        partition.first_words_read as u64,
        partition.second_words_read as u64,
    ]
}

/// One seat from each bin, written to the front of `seats`; the pieces in fill order are written to the front of the columns. The answer:
/// the number of pieces, the words read of each list.
// Over seven parameters: C passes each slice and each cursor by itself.
#[unsafe(no_mangle)]
pub extern "C" fn valwydr_partition_sample_quorum(
    num_bins: usize,
    stakes: &[u64],
    first: &[u64],
    first_cursor: usize,
    second: &[u64],
    second_cursor: usize,
    seats: &mut [u64],
    piece_bins: &mut [u64],
    piece_validators: &mut [u64],
    piece_stakes: &mut [u64],
    answer: &mut [u64; 3],
) -> u64
    ensures { let lent : Lent = (seats.old, (piece_bins.old, piece_validators.old, piece_stakes.old)) in
        let call = partition.sample_quorum (record { num_bins = num_bins }) stakes.now lent
        (drop first_cursor first.now) (drop second_cursor second.now) in
        ((result, answer.new) ≡ told partition_values answer.old call.0)
        × ((seats.new, (piece_bins.new, piece_validators.new, piece_stakes.new)) ≡ call.1) }
{
    let mut columns = Columns {
        bins: piece_bins,
        validators: piece_validators,
        stakes: piece_stakes,
    };
    let first = ListWords::new(first, first_cursor);
    let second = ListWords::new(second, second_cursor);
    let sampler = PartitionSampler::new(num_bins);
    let call = sampler.sample_quorum(stakes, first, second, seats, &mut columns);
    tell(call.map(partition_values), answer)
}

// What the answer of a committee carries.
fn committee_values(committee: Committee) -> [u64; 4]
    ensures { result ≡ committee_values committee }
{
    [
        committee.further as u64,
        committee.pieces as u64,
        committee.first_words_read as u64,
        committee.second_words_read as u64,
    ]
}

/// A committee of `k`: the fixed seats, then those from bins, with the pieces in their columns. The answer: how many seats are not fixed,
/// the number of pieces, the words read of each list.
// Over seven parameters: C passes each slice and each cursor by itself. The body is that of the partition but for the sampler: a function
// for both would be lent each slice again, with a closure and a contract over all of them, and be longer.
#[unsafe(no_mangle)]
pub extern "C" fn valwydr_fait_accompli1_with_partition_fallback(
    k: usize,
    stakes: &[u64],
    first: &[u64],
    first_cursor: usize,
    second: &[u64],
    second_cursor: usize,
    seats: &mut [u64],
    piece_bins: &mut [u64],
    piece_validators: &mut [u64],
    piece_stakes: &mut [u64],
    answer: &mut [u64; 4],
) -> u64
    ensures { let lent : Lent = (seats.old, (piece_bins.old, piece_validators.old, piece_stakes.old)) in
        let call = committee.sample_quorum (record { fallback = Bins k }) stakes.now lent
        (drop first_cursor first.now) (drop second_cursor second.now) in
        ((result, answer.new) ≡ told committee_values answer.old call.0)
        × ((seats.new, (piece_bins.new, piece_validators.new, piece_stakes.new)) ≡ call.1) }
{
    let mut columns = Columns {
        bins: piece_bins,
        validators: piece_validators,
        stakes: piece_stakes,
    };
    let first = ListWords::new(first, first_cursor);
    let second = ListWords::new(second, second_cursor);
    let sampler = FaitAccompli1Sampler::new_with_partition_fallback(k);
    let call = sampler.sample_quorum(stakes, first, second, seats, &mut columns);
    tell(call.map(committee_values), answer)
}

/// A committee of `k`: the fixed seats, then plain draws. The answer: how many seats are not fixed, 0 for the pieces, the words read, and 0
/// for a second list.
#[unsafe(no_mangle)]
pub extern "C" fn valwydr_fait_accompli1_with_stake_weighted_fallback(
    k: usize,
    stakes: &[u64],
    list: &[u64],
    cursor: usize,
    seats: &mut [u64],
    answer: &mut [u64; 4],
) -> u64
    ensures { let call = committee.sample_quorum (record { fallback = Draws k }) stakes.now (seats.old, ([], [], []))
        (drop cursor list.now) [] in
        ((result, answer.new) ≡ told committee_values answer.old call.0) × (seats.new ≡ call.1.0) }
{
    let mut columns = Columns {
        bins: &mut [],
        validators: &mut [],
        stakes: &mut [],
    };
    let words = ListWords::new(list, cursor);
    let none = ListWords::new(&[], 0);
    let sampler = FaitAccompli1Sampler::new_with_stake_weighted_fallback(k);
    let call = sampler.sample_quorum(stakes, words, none, seats, &mut columns);
    tell(call.map(committee_values), answer)
}
