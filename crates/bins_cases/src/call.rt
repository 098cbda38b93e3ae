ghost use Rattle.std.specs.Prelude.{◌≤◌, length};

use crate::lists::Lists;
use cases::{Failure, Reader, STAKES, WORDS, agrees};
use fill::Columns;
use refusals::Refusal;
use std::alloc::Global;
use words::ListWords;

/// What a call over bins answers: its numbers, as a stored text writes them, and how many pieces there are.
#[derive(Clone, Copy, Debug)]
pub struct Answer<const N: usize> {
    pub numbers: [u64; N],
    pub pieces: usize,
}

/// A sampler over bins, which answers with so many numbers.
pub trait BinsSampler<const N: usize> {
    /// Samples a committee.
    fn sample_quorum(
        self,
        stakes: &[u64],
        first: ListWords,
        second: ListWords,
        seats: &mut [u64],
        columns: &mut Columns,
    ) -> Result<Answer<N>, Refusal>;
}

/// Reads a case of a committee and runs it on the sampler of its size: whether the call answers as stated. The numbers are the size, both
/// cursors and how many places of each buffer are lent; the case expects the answer's numbers, then the seats and the pieces.
// That N is small is asked, as no type says it.
pub fn quorum_agrees<const N: usize, S: BinsSampler<N>, F: FnOnce(usize) -> S>(
    new: F,
    text: &mut Reader,
    alloc: Global,
) -> Result<bool, Failure>
    requires row { N ≤ 4096 }
    requires callable { F.IsAlwaysCallable new }
    ensures { length text.new ≤ length text.old }
{
    let [size, first_at, second_at, seats, bins, validators, pieces] = text
        .numbers::<7>()
        .ok_or(Failure::Malformed)?;
    let stakes = text.list(STAKES, alloc)?.ok_or(Failure::Malformed)?;
    let first = text.list(WORDS, alloc)?.ok_or(Failure::Malformed)?;
    let second = text.list(WORDS, alloc)?.ok_or(Failure::Malformed)?;
    let expected = text.expected::<N>().ok_or(Failure::Malformed)?;
    let wanted = Lists::read_if(expected.is_ok(), text, alloc)?.ok_or(Failure::Malformed)?;
    let before = Lists::lent([seats, bins, validators, pieces], alloc)?;
    let mut lent = before.clone()?;
    let mut columns = Columns {
        bins: &mut lent.bins,
        validators: &mut lent.validators,
        stakes: &mut lent.stakes,
    };
    let answer = new(size as usize).sample_quorum(
        &stakes,
        ListWords::new(&first, first_at as usize),
        ListWords::new(&second, second_at as usize),
        &mut lent.seats,
        &mut columns,
    );
    let pieces = answer.map_or(0, |answer| answer.pieces);
    let same = agrees(answer.map(|answer| answer.numbers), expected);
    Ok(same && pieces == wanted.stakes.len() && lent.hold(&before, &wanted.cut_to(&before)))
}
