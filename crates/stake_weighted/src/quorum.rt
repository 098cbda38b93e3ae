ghost use Rattle.std.specs.Prelude.{◌≡◌, ◌≤◌, ◌+◌, length};
ghost use Rattle.std.specs.Option.{option_map};
ghost use Rattle.refusals.specs.Refusal.{first_of, sum_checks};
ghost use Rattle.draws.specs.Call.{after_checks, or_no_word};
ghost use Rattle.stake_weighted.specs.Seats.{iid, iid_seats};
ghost use Rattle.stake_weighted.specs.Calls.{quorum_answer, sample_quorum};

use crate::sample::StakeWeightedSampler;
use buffers::store;
use draws::{Weights, draw_weighted};
use refusals::{Refusal, check_list_length, check_room, check_size};
use scratch::with_scratch;
use words::WordSource;

/// A committee, whose seats stand in the lent buffer: how many words were read.
#[derive(Clone, Copy, Debug, PartialEq, Eq)]
pub struct Quorum {
    pub words_read: usize,
}

/// A sampler that picks a committee of `k`, each seat by itself.
#[derive(Clone, Copy, Debug, PartialEq, Eq)]
pub struct IidQuorumSampler {
    inner: StakeWeightedSampler,
    k: usize,
}

impl IidQuorumSampler {
    /// A sampler for committees of `k`.
    pub fn new(inner: StakeWeightedSampler, k: usize) -> Self
        ensures { result ≡ record { inner = inner; k = k } }
    {
        Self { inner, k }
    }

    /// The size of a committee.
    pub fn quorum_size(self) -> usize
        ensures { result ≡ self.k }
    {
        self.k
    }

    /// A committee of `k`, written to the front of `seats`, or the first reason to turn the call down.
    pub fn sample_quorum<W: WordSource + Drop>(
        self,
        stakes: &[u64],
        mut words: W,
        seats: &mut [u64],
    ) -> Result<Quorum, Refusal>
        ensures { (result, seats.new) ≡ sample_quorum self.k stakes.now seats.old (W.words words) }
    {
        let (n, k) = (stakes.len(), self.k);
        check_list_length(n)?;
        check_size(k)?;
        check_room(seats.len(), k)?;
        with_scratch(
            n + k,
            0,
            &mut |space| self.draw_in(space, stakes, &mut words, seats),
        )
    }

    // A committee, drawn in scratch space for the running sums and the seats. The lengths are asked, since the entry has checked or made
    // them and a slice's type does not say its length.
    fn draw_in<W: WordSource>(
        self,
        space: &mut [u64],
        stakes: &[u64],
        words: &mut W,
        seats: &mut [u64],
    ) -> Result<Quorum, Refusal>
        requires space { length space.old ≡ length stakes.now + self.k }
        requires seats { self.k ≤ length seats.old }
        ensures { (result, seats.new)
            ≡ quorum_answer seats.old (W.words words.old)
            (after_checks (first_of (sum_checks stakes.now)) (W.words words.old) (or_no_word (iid self.k stakes.now (W.words words.old)))) }
    {
        let (sums, drawn) = space.split_at_mut(stakes.len());
        let weights = Weights::new(stakes, sums)?;
        let before = words.words_left();
        draw_seats(words, weights, drawn).ok_or(Refusal::NoWordLeft)?;
        store(drawn, seats);
        Ok(Quorum {
            words_read: words.read_since(before),
        })
    }
}

/// Draws each seat by itself: the ids alone, without what is left of each value; `None` where the words run out. The weights come by
/// value, so that they stand in registers: by reference calls took up to 10 % more time at 4,096 stakes.
#[inline(never)]
#[tactic(auto, using(crate::proofs::SeatLemmas::with_front_step, std::proofs::lemmas::Grind::common_steps))]
pub fn draw_seats<W: WordSource>(words: &mut W, weights: Weights, seats: &mut [u64]) -> Option<()>
    ensures { (option_map (λ _. seats.new) result, W.words words.new)
        ≡ iid_seats (length seats.old) weights.entry (W.words words.old) }
{
    for seat in seats.iter_mut() {
        *seat = draw_weighted(words, &weights)?.at as u64;
    }
    Some(())
}

#[cfg(test)]
mod tests {
    use super::*;
    use words::ListWords;

    fn sampler(k: usize) -> IidQuorumSampler {
        IidQuorumSampler::new(StakeWeightedSampler::new(), k)
    }

    #[test]
    fn seats_follow_the_words(rt: HostRuntime) {
        let words = ListWords::new(&[0, 5, 2, 9], 0);
        let mut seats = [7; 4];
        let answer = sampler(3).sample_quorum(&[1, 0, 3], words, &mut seats);
        assert_eq!(rt; answer, Ok(Quorum { words_read: 3 }));
        assert_eq!(rt; seats, [0, 2, 2, 7]);
    }

    #[test]
    fn a_missing_word_leaves_the_seats(rt: HostRuntime) {
        let words = ListWords::new(&[0, 5], 0);
        let mut seats = [7; 4];
        let answer = sampler(3).sample_quorum(&[1, 0, 3], words, &mut seats);
        assert_eq!(rt; answer, Err(Refusal::NoWordLeft));
        assert_eq!(rt; seats, [7; 4]);
    }
}
