ghost use Rattle.std.specs.Prelude.{◌≡◌, ◌<◌, ◌≤◌, Ok, IfSome, OnSome, length, take, sum};
ghost use Rattle.types.specs.Stake.{checked};
ghost use Rattle.laws.specs.Buffers.{written};
ghost use Rattle.laws.specs.Sums.{running_sums};
ghost use Rattle.refusals.specs.Refusal.{first_of, sum_checks, unless};
ghost use Rattle.draws.specs.Weighted.{place_of, weighted, Placed};

use crate::below::draw_below;
use refusals::Refusal;
use sorted::first_above;
use std::marker::Model;
use words::WordSource;

/// A place among weights, as a drawn value chooses it.
#[derive(Clone, Copy, Debug, PartialEq, Eq)]
pub struct Place {
    /// The place: an id below the number of weights.
    pub at: usize,
    /// The value less the running sum before the place: below the weight there.
    pub remainder: u64,
}

/// Writes the running sums of the weights to the front of `sums`, a place for each: the sum of all, `None` where it passes 64 bits.
pub fn running_sums(weights: &[u64], sums: &mut [u64]) -> Option<u64>
    requires { length weights.now ≤ length sums.old }
    ensures sum { result ≡ checked (sum weights.now) }
    ensures sums { OnSome result (sums.new ≡ written (running_sums weights.now) sums.old) }
{
    let mut sum: u64 = 0;
    let mut carries: u64 = 0;
    // Written by index: tried over `sums.iter_mut().zip(weights)`, and the proof did not close, as no fact of the sums written so far could
    // be kept. Carries are counted, as in `Stake::sum`: with a test for each weight a validator by decaying acceptance took up to 29 % more
    // time, by where the loop came to lie in memory.
    for (i, weight) in weights.iter().enumerate() {
        let (next, carry) = sum.overflowing_add(*weight);
        sum = next;
        carries += u64::from(carry);
        sums[i] = sum;
    }
    (carries == 0).then_some(sum)
}

/// Weights that do not sum to 0, held by their running sums and their total.
#[derive(Debug, Drop)]
pub struct Weights<'a> {
    sums: &'a [u64],
    total: u64,
}

impl<'a> Model for Weights<'a> {
    ghost use Rattle.std.specs.Prelude.{ℕ, List};
    ghost use Rattle.draws.specs.Sums.{differences, AreSums};

    ghost Value = { List ℕ };

    ghost view = { λ w. differences 0 w.sums.now };

    ghost invariant = { λ w. AreSums w.sums.now w.total };
}

impl<'a> Weights<'a> {
    /// Weights held by their running sums, which are written to the front of `sums`, a place for each. Refused with `SumPast` where they
    /// sum past 64 bits, and with `TotalZero` where to 0.
    pub fn new(weights: &[u64], sums: &'a mut [u64]) -> Result<Self, Refusal>
        requires { length weights.now ≤ length sums.old }
        ensures { result ≡ unless (first_of (sum_checks weights.now)) (Ok weights.now) }
    {
        let total = running_sums(weights, sums).ok_or(Refusal::SumPast)?;
        if total == 0 {
            return Err(Refusal::TotalZero);
        }
        Ok(Weights {
            sums: &sums[..weights.len()],
            total,
        })
    }

    /// Weights whose running sums stand already and are lent shared, so that many draws, and other `Weights` too, share one pass over them.
    /// The code reads the sums alone; the weights say in the contract what these are the sums of.
    #[tactic(auto, using(crate::proofs::SumsLemmas::last_there))]
    pub fn of_sums(weights: &[u64], sums: &'a [u64]) -> Self
        requires sums { sums.now ≡ running_sums weights.now }
        requires some { 0 < sum weights.now }
        ensures { result ≡ weights.now }
    {
        Weights {
            sums,
            total: sums[sums.len() - 1],
        }
    }

    /// The sum of the weights.
    #[tactic(auto, using(crate::proofs::SumsLemmas::total_shown))]
    pub fn total(&self) -> u64
        ensures value { result ≡ sum self.now }
        ensures some { 0 < result }
    {
        self.total
    }

    /// The place that a value chooses.
    #[inline(always)]
    pub fn place_of(&self, v: u64) -> Place
        requires { v < sum self.now }
        ensures place { result ≡ place_of self.now v }
        ensures placed { Placed self.now result }
    {
        let at = first_above(self.sums, v);
        Place {
            at,
            remainder: v - self.sum_before(at),
        }
    }

    // The sum of the weights before a place.
    #[inline(always)]
    #[tactic(auto, using(crate::proofs::SumsLemmas::sum_before, crate::proofs::SumsLemmas::place_before))]
    fn sum_before(&self, at: usize) -> u64
        requires { at < length self.now }
        ensures { result ≡ sum (take at self.now) }
    {
        if at == 0 { 0 } else { self.sums[at - 1] }
    }
}

/// The place that a value chooses, by a walk over the weights: it needs no space for running sums.
// By `while`, since the walk ends at a weight by its own condition: after a `for` an answer would be due that no value has.
#[tactic(auto, using(crate::proofs::WeightedLemmas::walked_to))]
pub fn walked_place(weights: &[u64], v: u64) -> Place
    requires { v < sum weights.now }
    ensures place { result ≡ place_of weights.now v }
    ensures placed { Placed weights.now result }
{
    let mut place = Place {
        at: 0,
        remainder: v,
    };
    while weights[place.at] <= place.remainder {
        place.remainder -= weights[place.at];
        place.at += 1;
    }
    place
}

/// A place among the weights, each for as many values as its weight counts, by a draw below their sum; `None` where the words run out.
#[inline(always)]
pub fn draw_weighted<W: WordSource>(words: &mut W, weights: &Weights) -> Option<Place>
    ensures drawn { (result, W.words words.new) ≡ weighted weights.now (W.words words.old) }
    ensures placed { IfSome result (Placed weights.now) }
{
    let v = draw_below(words, weights.total())?;
    Some(weights.place_of(v))
}

#[cfg(test)]
mod tests {
    use super::*;
    use words::ListWords;

    #[test]
    fn values_choose_places_with_weight(rt: HostRuntime) {
        let mut sums = [0; 4];
        let weights = Weights::new(&[0, 3, 0, 2], &mut sums);
        assert!(rt; weights.is_ok());
        if let Ok(weights) = weights {
            assert_eq!(rt; weights.total(), 5);
            assert_eq!(rt;
                weights.place_of(2),
                Place {
                    at: 1,
                    remainder: 2
                }
            );
            assert_eq!(rt;
                weights.place_of(3),
                Place {
                    at: 3,
                    remainder: 0
                }
            );
            let mut words = ListWords::new(&[9, 7], 0);
            assert_eq!(rt;
                draw_weighted(&mut words, &weights),
                Some(Place {
                    at: 3,
                    remainder: 1
                })
            );
            assert_eq!(rt;
                draw_weighted(&mut words, &weights),
                Some(Place {
                    at: 1,
                    remainder: 2
                })
            );
            assert_eq!(rt; draw_weighted(&mut words, &weights), None);
        }
        assert_eq!(rt;
            walked_place(&[0, 3, 0, 2], 4),
            Place {
                at: 3,
                remainder: 1
            }
        );
    }

    #[test]
    fn sums_that_stand_already_are_drawn_from(rt: HostRuntime) {
        let sums = [0, 3, 3, 5];
        let weights = Weights::of_sums(&[0, 3, 0, 2], &sums);
        let others = Weights::of_sums(&[0, 3, 0, 2], &sums);
        assert_eq!(rt; weights.total(), 5);
        assert_eq!(rt;
            others.place_of(4),
            Place {
                at: 3,
                remainder: 1
            }
        );
        let mut words = ListWords::new(&[7], 0);
        assert_eq!(rt;
            draw_weighted(&mut words, &weights),
            Some(Place {
                at: 1,
                remainder: 2
            })
        );
    }
}
