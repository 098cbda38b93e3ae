ghost use Rattle.std.specs.Prelude.{◌≡◌, ◌+◌, ◌*◌, ◌<◌, ◌≤◌, length};
ghost use Rattle.fill.specs.Fill.{bin_total, fill, pieces};
ghost use Rattle.fill.specs.Columns.{held_of, columns_of, HaveRoom, SameLoans, Stored};

use crate::columns::Columns;
use crate::ordered::Ordered;
use crate::piece::Piece;

// Stores a piece at a place, and gives the place after it. A zero stake leaves no piece.
fn put_some(columns: &mut Columns, at: usize, piece: Piece) -> usize
    requires { HaveRoom (held_of columns.old) (at + 1) }
    ensures stored { Stored columns.old columns.new at result piece }
    ensures same { SameLoans columns.old columns.new }
{
    if piece.stake == 0 {
        return at;
    }
    columns.put(at, piece);
    at + 1
}

/// Fills bins to their capacity with ordered weights, writes the pieces to the front of the columns, and gives their number, which is at
/// most that of the weights and the bins together.
// Facts of the bins are asked by themselves: `fill`, `fill_and_choose` and `draw_values` need one or two each of what `Bins` of `partition`
// holds, and that stands above.
pub fn fill(ordered: Ordered, capacity: u64, bins: usize, columns: &mut Columns) -> usize
    requires some { 0 < bins }
    requires room { bin_total ordered ≤ bins * capacity }
    requires places { HaveRoom (held_of columns.old) (length ordered + bins) }
    ensures count { result ≡ length (pieces 0 (fill capacity bins ordered.entry)) }
    ensures begin { held_of columns.new ≡ columns_of (pieces 0 (fill capacity bins ordered.entry)) (held_of columns.old) }
    ensures same { SameLoans columns.old columns.new }
{
    let Ordered { weights, order } = ordered;
    let mut count = 0;
    let mut bin = 0;
    let mut room = capacity;
    let mut at = 0;
    let mut used: u64 = 0;
    // By `while`, since a stake may be split among bins: a step is a piece, and a `for` over the order would need a second loop inside it.
    while at < order.len() {
        let validator = order[at];
        let stake = weights[validator as usize] - used;
        let piece = Piece {
            bin,
            validator,
            stake: stake.min(room),
        };
        count = put_some(columns, count, piece);
        if stake <= room {
            room -= stake;
            used = 0;
            at += 1;
        } else {
            used += room;
            room = capacity;
            bin += 1;
        }
    }
    count
}
