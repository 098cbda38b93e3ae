ghost use Rattle.std.specs.Prelude.{ℕ, ◌≡◌, ◌-◌, ◌*◌, ◌≤◌, ◌<◌, [], ◌∷◌, Ok};
ghost use Rattle.std.specs.Result.{result_map_both};
ghost use Rattle.refusals.specs.Refusal.{first_of, empty_bin, unless};
ghost use Rattle.fill.specs.Columns.{held_of};
ghost use Rattle.partition.specs.Partition.{short_pieces, most_pieces, capacity};

use fill::Columns;
use refusals::{Refusal, check_empty_bin, check_room};

/// Bins of one capacity for stakes of this sum: they have room for it, and none would be empty.
#[derive(Clone, Copy, Debug, PartialEq, Eq)]
pub struct Bins {
    pub number: usize,
    pub capacity: u64,
    pub sum: u64,
    pub ghost some: { 0 < number },
    pub ghost holds: { 0 < capacity },
    pub ghost room: { sum ≤ number * capacity },
    pub ghost full: { (number - 1) * capacity < sum },
}

// How many pieces `n` stakes in so many bins make at most.
pub(crate) fn most_pieces(n: usize, bins: usize) -> usize
    requires short { n ≤ 4096 }
    requires few { bins ≤ 1024 }
    ensures { result ≡ most_pieces n bins }
{
    if bins == 0 { 0 } else { n + bins }
}

/// Whether each column has as many places as are needed.
///
/// # Errors
///
/// `ShortBuffer` where a column is shorter.
pub fn check_columns(columns: &Columns, needed: usize) -> Result<(), Refusal>
    ensures { result ≡ first_of (short_pieces (held_of columns.now) needed) }
{
    check_room(columns.bins.len(), needed)?;
    check_room(columns.validators.len(), needed)?;
    check_room(columns.stakes.len(), needed)
}

/// Bins for a sum, of which none would be empty. An entry with no bin never asks.
///
/// # Errors
///
/// `EmptyBin` where the bins before the last would hold the whole sum.
pub fn check_bins(sum: u64, number: usize) -> Result<Bins, Refusal>
    requires { 0 < number }
    ensures { result_map_both {U = ℕ × ℕ × ℕ} (λ bins. (bins.number, bins.capacity, bins.sum)) (λ refusal. refusal) result
        ≡ unless (first_of (empty_bin (capacity sum number) sum number ∷ [])) (Ok (number, capacity sum number, sum)) }
{
    let capacity = sum.div_ceil(number as u64);
    check_empty_bin(capacity, sum, number)?;
    Ok(Bins {
        number,
        capacity,
        sum,
    })
}
