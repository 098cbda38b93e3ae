ghost use Rattle.std.specs.Prelude.{◌≡◌, ◌+◌, ◌≤◌, length, sum};
ghost use Rattle.draws.specs.Call.{or_no_word};
ghost use Rattle.partition.specs.Partition.{over_bins};
ghost use Rattle.partition.specs.Calls.{told, sample_quorum};
ghost use Rattle.fill.specs.Columns.{held_of, HaveRoom, SameLoans};

use crate::bins::draw_bins;
use crate::checks::{Bins, check_bins, check_columns, most_pieces};
use crate::sources::Sources;
use buffers::store;
use fill::Columns;
use refusals::{Refusal, check_list_length, check_room, check_size, check_sum};
use scratch::with_scratch;
use words::WordSource;

/// A partition, whose seats and pieces stand in what was lent: how many pieces there are, and how many words of each source were read.
#[derive(Clone, Copy, Debug, PartialEq, Eq)]
pub struct Partition {
    pub pieces: usize,
    pub first_words_read: usize,
    pub second_words_read: usize,
}

/// A sampler that partitions the stakes into bins, and picks one validator from each.
#[derive(Clone, Copy, Debug, PartialEq, Eq)]
pub struct PartitionSampler {
    num_bins: usize,
}

impl PartitionSampler {
    /// A sampler with so many bins.
    pub fn new(num_bins: usize) -> Self
        ensures { result ≡ record { num_bins = num_bins } }
    {
        Self { num_bins }
    }

    /// How many seats a call fills: the number of bins.
    pub fn quorum_size(self) -> usize
        ensures { result ≡ self.num_bins }
    {
        self.num_bins
    }

    /// One seat from each bin. The list is shuffled by the first words, and the seats are drawn by the second. The seats, and the pieces in
    /// fill order, are written to the front of what is lent; it keeps what it held where the call is turned down.
    ///
    /// # Errors
    ///
    /// The first that applies: the list is empty or too long, there are too many bins, the seats or a column are too short for `n` stakes
    /// in `b` bins (`b` seats, `n + b` pieces), the stakes sum past 64 bits or to 0, a bin would be empty, a word is missing.
    pub fn sample_quorum<A: WordSource + Drop, B: WordSource + Drop>(
        self,
        stakes: &[u64],
        first: A,
        second: B,
        seats: &mut [u64],
        columns: &mut Columns,
    ) -> Result<Partition, Refusal>
        ensures sampled { (result, (seats.new, held_of columns.new))
            ≡ sample_quorum self stakes.now (seats.old, held_of columns.old) (A.words first) (B.words second) }
        ensures same { SameLoans columns.old columns.new }
    {
        let mut words = Sources { first, second };
        let (n, b) = (stakes.len(), self.num_bins);
        check_list_length(n)?;
        check_size(b)?;
        check_room(seats.len(), b)?;
        check_columns(columns, most_pieces(n, b))?;
        let sum = check_sum(stakes)?;
        if b == 0 {
            return Ok(Partition {
                pieces: 0,
                first_words_read: 0,
                second_words_read: 0,
            });
        }
        let bins = check_bins(sum, b)?;
        with_scratch(
            n + b,
            0,
            &mut |space| draw_in(space, stakes, bins, &mut words, seats, columns),
        )
    }
}

// A partition, drawn in scratch space for the shuffled order and the seats. That the sum is that of the list is asked, as in `draw_bins`;
// the lengths too, since the entry has checked or made them and a slice's type does not say its length.
fn draw_in<A: WordSource, B: WordSource>(
    space: &mut [u64],
    stakes: &[u64],
    bins: Bins,
    words: &mut Sources<A, B>,
    seats: &mut [u64],
    columns: &mut Columns,
) -> Result<Partition, Refusal>
    requires space { length space.old ≡ length stakes.now + bins.number }
    requires sum { bins.sum ≡ sum stakes.now }
    requires seats { bins.number ≤ length seats.old }
    requires room { HaveRoom (held_of columns.old) (length stakes.now + bins.number) }
    ensures told { (result, (seats.new, held_of columns.new))
        ≡ told (seats.old, held_of columns.old) (A.words words.old.first) (B.words words.old.second)
        (or_no_word (over_bins stakes.now bins.capacity bins.number (A.words words.old.first) (B.words words.old.second))) }
    ensures same { SameLoans columns.old columns.new }
{
    let (order, drawn) = space.split_at_mut(stakes.len());
    let before = words.words_left();
    let pieces = draw_bins(stakes, bins, words, order, drawn, columns).ok_or(Refusal::NoWordLeft)?;
    store(drawn, seats);
    let (first_words_read, second_words_read) = words.read_since(before);
    Ok(Partition {
        pieces,
        first_words_read,
        second_words_read,
    })
}

#[cfg(test)]
mod tests {
    use super::*;
    use words::ListWords;

    #[test]
    fn bins_are_filled_in_the_shuffled_order(rt: HostRuntime) {
        let mut seats = [7; 3];
        let mut bins = [7; 6];
        let mut validators = [7; 6];
        let mut stakes = [7; 6];
        let mut columns = Columns {
            bins: &mut bins,
            validators: &mut validators,
            stakes: &mut stakes,
        };
        let answer = PartitionSampler::new(2).sample_quorum(
            &[3, 1, 2],
            ListWords::new(&[0, 2], 0),
            ListWords::new(&[2, 1, 9], 0),
            &mut seats,
            &mut columns,
        );
        assert_eq!(rt;
            answer,
            Ok(Partition {
                pieces: 4,
                first_words_read: 2,
                second_words_read: 2
            })
        );
        assert_eq!(rt; seats, [0, 2, 7]);
        assert_eq!(rt; bins, [0, 0, 1, 1, 7, 7]);
        assert_eq!(rt; validators, [1, 0, 0, 2, 7, 7]);
        assert_eq!(rt; stakes, [1, 2, 1, 2, 7, 7]);
    }
}
