ghost use Rattle.std.specs.Prelude.{◌≡◌, ◌<◌, length, sum};
ghost use Rattle.fill.specs.Columns.{held_of, SameLoans};
ghost use Rattle.fait_accompli.specs.Seats.{Roomy};
ghost use Rattle.partition.specs.Calls.{with_seats, placed_or};
ghost use Rattle.fait_accompli.specs.Calls.{others};

use crate::quorum::Fallback;
use draws::Weights;
use fill::Columns;
use partition::{Sources, draw_parted};
use refusals::Refusal;
use stake_weighted::draw_seats;
use words::WordSource;

/// A list of stakes and its sum.
#[derive(Clone, Copy, Debug)]
pub struct Summed<'a> {
    pub stakes: &'a [u64],
    pub total: u64,
    pub ghost summed: { total ≡ sum stakes.now },
}

/// The seats that are not fixed, over the stake that is kept, by the fallback. Gives the number of pieces.
pub fn draw_further<A: WordSource, B: WordSource>(
    fallback: Fallback,
    kept: Summed,
    words: &mut Sources<A, B>,
    space: &mut [u64],
    seats: &mut [u64],
    columns: &mut Columns,
) -> Result<usize, Refusal>
    requires some { 0 < length seats.old → 0 < kept.total }
    requires space { length space.old ≡ length kept.stakes.now }
    requires room { Roomy fallback (held_of columns.old) (length kept.stakes.now) (length seats.old) }
    ensures drawn { (with_seats seats.new result, held_of columns.new, A.words words.new.first, B.words words.new.second)
        ≡ placed_or (held_of columns.old)
        (others fallback kept.entry.stakes.now (length seats.old) (A.words words.old.first) (B.words words.old.second)) }
    ensures same { SameLoans columns.old columns.new }
{
    if seats.is_empty() {
        return Ok(0);
    }
    match fallback {
        Fallback::Bins(_) => draw_parted(kept.stakes, kept.total, words, space, seats, columns),
        Fallback::Draws(_) => {
            // Never turned down here: what is kept sums to over 0, and to no more than 64 bits hold.
            let weights = Weights::new(kept.stakes, space)?;
            draw_seats(&mut words.first, weights, seats).ok_or(Refusal::NoWordLeft)?;
            Ok(0)
        }
    }
}
