ghost use Rattle.std.specs.Prelude.{◌≡◌, ◌+◌, ◌≤◌, ◌<◌, length, sum};
ghost use Rattle.refusals.specs.Refusal.{first_of};
ghost use Rattle.fill.specs.Columns.{held_of, SameLoans};
ghost use Rattle.fait_accompli.specs.declared.quorum.Fallback.TheVariants.{Bins, Draws};
ghost use Rattle.fait_accompli.specs.Seats.{size_of, Roomy};
ghost use Rattle.fait_accompli.specs.Calls.{piece_checks, committee_over, told, sample_quorum};

use crate::further::{Summed, draw_further};
use buffers::store;
use fill::Columns;
use fixed_seats::{Division, seat_fixed};
use partition::{Sources, check_columns};
use refusals::{Refusal, check_list_length, check_room, check_size_of_some, check_sum};
use scratch::with_scratch;
use words::WordSource;

/// A committee, whose seats and pieces stand in what was lent: how many seats are not fixed, how many pieces there are, and how many words
/// of each source were read.
#[derive(Clone, Copy, Debug, PartialEq, Eq)]
pub struct Committee {
    pub further: usize,
    pub pieces: usize,
    pub first_words_read: usize,
    pub second_words_read: usize,
}

/// Where the seats that are not fixed come from, with the size of the committee: bins, one seat from each, or plain draws. How many of the
/// seats they are is not said here, since it follows from the list.
// Both variants carry the size: the record names a fallback with the numbers that belong to it, by a rule of the project.
#[derive(Clone, Copy, Debug, PartialEq, Eq)]
pub enum Fallback {
    Bins(usize),
    Draws(usize),
}

impl Fallback {
    /// The size of the committee.
    pub fn size(self) -> usize
        ensures { result ≡ size_of self }
    {
        match self {
            Fallback::Bins(k) => k,
            Fallback::Draws(k) => k,
        }
    }

    // Whether the columns have places for the pieces of `n` stakes.
    fn check_pieces(self, columns: &Columns, n: usize) -> Result<(), Refusal>
        requires short { n ≤ 4096 }
        requires few { size_of self ≤ 1024 }
        ensures { result ≡ first_of (piece_checks self n (held_of columns.now)) }
    {
        match self {
            Fallback::Bins(k) => check_columns(columns, n + k),
            Fallback::Draws(_) => Ok(()),
        }
    }
}

/// A sampler that gives each validator the whole number of seats in its share, and draws the others.
#[derive(Clone, Copy, Debug, PartialEq, Eq)]
pub struct FaitAccompli1Sampler {
    // An enum and no type parameter, which it is in the original: a sampler's record names its fallback, by a rule of the project.
    fallback: Fallback,
}

impl FaitAccompli1Sampler {
    /// A sampler for committees of `k`, with one seat from each bin.
    pub fn new_with_partition_fallback(k: usize) -> Self
        ensures { result ≡ record { fallback = Bins k } }
    {
        Self {
            fallback: Fallback::Bins(k),
        }
    }

    /// A sampler for committees of `k`, with plain draws.
    pub fn new_with_stake_weighted_fallback(k: usize) -> Self
        ensures { result ≡ record { fallback = Draws k } }
    {
        Self {
            fallback: Fallback::Draws(k),
        }
    }

    /// The size of a committee.
    pub fn quorum_size(self) -> usize
        ensures { result ≡ size_of self.fallback }
    {
        self.fallback.size()
    }

    /// A committee, written to the front of `seats`: the fixed seats in list order, then those of the fallback. Over bins the list is
    /// shuffled by the first words and the seats are drawn by the second, and the pieces are written to the front of the columns in fill
    /// order; plain draws read the first words. What is lent keeps what it held where the call is turned down.
    ///
    /// # Errors
    ///
    /// The first that applies: the list is empty or too long, the committee is too large or has no seat, the seats are fewer than `k`, over
    /// bins a column is shorter than `n + k` for `n` stakes, the stakes sum past 64 bits or to 0, a bin would be empty, a word is missing.
    pub fn sample_quorum<A: WordSource + Drop, B: WordSource + Drop>(
        self,
        stakes: &[u64],
        first: A,
        second: B,
        seats: &mut [u64],
        columns: &mut Columns,
    ) -> Result<Committee, Refusal>
        ensures sampled { (result, (seats.new, held_of columns.new))
            ≡ sample_quorum self stakes.now (seats.old, held_of columns.old) (A.words first) (B.words second) }
        ensures same { SameLoans columns.old columns.new }
    {
        let mut words = Sources { first, second };
        let (n, k) = (stakes.len(), self.fallback.size());
        check_list_length(n)?;
        check_size_of_some(k)?;
        check_room(seats.len(), k)?;
        self.fallback.check_pieces(columns, n)?;
        let total = check_sum(stakes)?;
        let division = Division::new(k as u64, total);
        with_scratch(
            2 * n + k,
            0,
            &mut |space| self.draw_in(space, stakes, division, &mut words, seats, columns),
        )
    }

    // A committee, drawn in scratch space for the shuffled order or the running sums, the stakes kept, and the seats. That the total is the
    // sum of the list is asked: a struct of list and total would hold the total a second time, beside that of `Division`.
    fn draw_in<A: WordSource, B: WordSource>(
        self,
        space: &mut [u64],
        stakes: &[u64],
        division: Division,
        words: &mut Sources<A, B>,
        seats: &mut [u64],
        columns: &mut Columns,
    ) -> Result<Committee, Refusal>
        requires space { length space.old ≡ length stakes.now + (length stakes.now + size_of self.fallback) }
        requires sum { division.total ≡ sum stakes.now }
        requires size { division.seats ≡ size_of self.fallback }
        requires seats { size_of self.fallback ≤ length seats.old }
        requires room { Roomy self.fallback (held_of columns.old) (length stakes.now) (size_of self.fallback) }
        ensures told { (result, (seats.new, held_of columns.new))
            ≡ told self.fallback stakes.now (seats.old, held_of columns.old) (A.words words.old.first) (B.words words.old.second)
            (committee_over self.fallback stakes.now (A.words words.old.first) (B.words words.old.second)) }
        ensures same { SameLoans columns.old columns.new }
    {
        let (n, k) = (stakes.len(), self.fallback.size());
        let (space, rest) = space.split_at_mut(n);
        let (kept, drawn) = rest.split_at_mut(n);
        let before = words.words_left();
        let fixed = seat_fixed(stakes, division, drawn, kept);
        let kept = Summed {
            stakes: kept,
            total: fixed.stake,
        };
        let others = &mut drawn[fixed.seats..];
        let pieces = draw_further(self.fallback, kept, words, space, others, columns)?;
        store(drawn, seats);
        let (first_words_read, second_words_read) = words.read_since(before);
        Ok(Committee {
            further: k - fixed.seats,
            pieces,
            first_words_read,
            second_words_read,
        })
    }
}

#[cfg(test)]
mod tests {
    use super::*;
    use words::ListWords;

    #[test]
    fn fixed_seats_stand_before_those_of_the_bins(rt: HostRuntime) {
        let mut seats = [7; 5];
        let mut bins = [7; 8];
        let mut validators = [7; 8];
        let mut stakes = [7; 8];
        let mut columns = Columns {
            bins: &mut bins,
            validators: &mut validators,
            stakes: &mut stakes,
        };
        let sampler = FaitAccompli1Sampler::new_with_partition_fallback(4);
        let first = ListWords::new(&[1, 2], 0);
        let second = ListWords::new(&[9, 1], 1);
        let answer = sampler.sample_quorum(&[5, 3, 2], first, second, &mut seats, &mut columns);
        let committee = Committee {
            further: 1,
            pieces: 2,
            first_words_read: 2,
            second_words_read: 1,
        };
        assert_eq!(rt; answer, Ok(committee));
        assert_eq!(rt; seats, [0, 0, 1, 2, 7]);
        assert_eq!(rt; bins, [0, 0, 7, 7, 7, 7, 7, 7]);
        assert_eq!(rt; validators, [1, 2, 7, 7, 7, 7, 7, 7]);
        assert_eq!(rt; stakes, [1, 2, 7, 7, 7, 7, 7, 7]);
    }

    #[test]
    fn plain_draws_leave_the_columns(rt: HostRuntime) {
        let mut seats = [7; 4];
        let mut columns = Columns {
            bins: &mut [],
            validators: &mut [],
            stakes: &mut [],
        };
        let sampler = FaitAccompli1Sampler::new_with_stake_weighted_fallback(4);
        let first = ListWords::new(&[0], 0);
        let second = ListWords::new(&[], 0);
        let answer = sampler.sample_quorum(&[5, 3, 2], first, second, &mut seats, &mut columns);
        let committee = Committee {
            further: 1,
            pieces: 0,
            first_words_read: 1,
            second_words_read: 0,
        };
        assert_eq!(rt; answer, Ok(committee));
        assert_eq!(rt; seats, [0, 0, 1, 1]);
        assert_eq!(rt; sampler.quorum_size(), 4);
    }
}
