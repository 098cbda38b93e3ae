ghost use Rattle.std.specs.Prelude.{◌≡◌, ◌+◌, ◌<◌, IsPermutation, length, sum};
ghost use Rattle.std.specs.Option.{option_map};
ghost use Rattle.laws.specs.Orders.{ids_from};
ghost use Rattle.draws.specs.Shuffle.{shuffle};
ghost use Rattle.partition.specs.Partition.{over_bins, placed};
ghost use Rattle.partition.specs.Calls.{seats_over, with_seats, placed_or};
ghost use Rattle.fill.specs.Columns.{held_of, HaveRoom, SameLoans};

use crate::checks::{Bins, check_bins};
use crate::sources::Sources;
use draws::shuffle_list;
use fill::{Columns, Ordered, draw_values, fill_and_choose};
use refusals::Refusal;
use words::WordSource;

// The ids from 0 on.
#[tactic(auto, using(crate::proofs::BinLemmas::count_more))]
fn count_up(order: &mut [u64])
    ensures { order.new ≡ ids_from 0 (length order.old) }
{
    for (i, id) in order.iter_mut().enumerate() {
        *id = i as u64;
    }
}

// The ids from 0 on, shuffled.
#[inline(never)]
fn shuffle_ids<W: WordSource>(words: &mut W, order: &mut [u64]) -> Option<()>
    ensures shuffled { (result, order.new, W.words words.new) ≡ shuffle (ids_from 0 (length order.old)) (W.words words.old) }
    ensures permutation { IsPermutation (ids_from 0 (length order.old)) order.new }
{
    count_up(order);
    shuffle_list(words, order)
}

/// One seat from each of the bins: the weights are shuffled by the first words, the seats are drawn by the second, and then the pieces
/// are written. Gives their number; `None` where the words run out, which leaves the columns as they were.
// Seats and columns in one struct would be no plainer: the columns are those lent, but the seats are scratch space and no lent ones, so
// the entries would take the struct apart and build another for each call. That the sum is that of the list is asked: a struct of list and
// sum would hold the sum a second time, beside that of `Bins`.
#[tactic(auto, using(crate::proofs::BinLemmas::ids_low, crate::proofs::BinLemmas::enough_room))]
pub fn draw_bins<A: WordSource, B: WordSource>(
    weights: &[u64],
    bins: Bins,
    words: &mut Sources<A, B>,
    order: &mut [u64],
    seats: &mut [u64],
    columns: &mut Columns,
) -> Option<usize>
    requires sum { bins.sum ≡ sum weights.now }
    requires order { length order.old ≡ length weights.now }
    requires seats { length seats.old ≡ bins.number }
    requires room { HaveRoom (held_of columns.old) (length weights.now + bins.number) }
    ensures drawn { (option_map (λ n. (n, seats.new)) result, held_of columns.new, A.words words.new.first, B.words words.new.second)
        ≡ placed (held_of columns.old)
        (over_bins weights.now bins.capacity bins.number (A.words words.old.first) (B.words words.old.second)) }
    ensures same { SameLoans columns.old columns.new }
{
    shuffle_ids(&mut words.first, order)?;
    draw_values(&mut words.second, bins.capacity, bins.sum, seats)?;
    let ordered = Ordered::new(weights, order);
    Some(fill_and_choose(ordered, bins.capacity, columns, seats))
}

/// One seat from each of as many bins as there are seats, over any weights, of which `total` is the sum. Gives the number of pieces. With
/// no seat nothing is shuffled and no word is read.
///
/// # Errors
///
/// `EmptyBin` where a bin would be empty, before a word is read; `NoWordLeft` where the words run out. Either leaves the columns as they
/// were.
pub fn draw_parted<A: WordSource, B: WordSource>(
    weights: &[u64],
    total: u64,
    words: &mut Sources<A, B>,
    order: &mut [u64],
    seats: &mut [u64],
    columns: &mut Columns,
) -> Result<usize, Refusal>
    requires total { total ≡ sum weights.now }
    requires order { length order.old ≡ length weights.now }
    requires room { 0 < length seats.old → HaveRoom (held_of columns.old) (length weights.now + length seats.old) }
    ensures drawn { (with_seats seats.new result, held_of columns.new, A.words words.new.first, B.words words.new.second)
        ≡ placed_or (held_of columns.old)
        (seats_over weights.now (length seats.old) (A.words words.old.first) (B.words words.old.second)) }
    ensures same { SameLoans columns.old columns.new }
{
    if seats.is_empty() {
        return Ok(0);
    }
    let bins = check_bins(total, seats.len())?;
    draw_bins(weights, bins, words, order, seats, columns).ok_or(Refusal::NoWordLeft)
}
