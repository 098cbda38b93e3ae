ghost use Rattle.std.specs.Prelude.{◌≡◌, ◌≤◌, ◌↔◌, length, option_map, IfOk, IsTrue};
ghost use Rattle.bins_cases.specs.Bins.{four_if, AllCountDown, AreCut, AreHeld, AreLent, numbers_of};

use cases::{Reader, SEATS, holds, lent};
use std::alloc::{AllocError, Global};

// The most pieces and seats that a case names.
const PIECES: u64 = 5300;

// What a call over bins is lent, or is to leave at the front of it: seats, and the bins, validators and stakes of the pieces.
// Four lists side by side, as C lends them to the calls.
#[derive(Clone, Debug, Drop)]
pub(crate) struct Lists {
    pub(crate) seats: Vec<u64>,
    pub(crate) bins: Vec<u64>,
    pub(crate) validators: Vec<u64>,
    pub(crate) stakes: Vec<u64>,
}

impl Lists {
    // Buffers of so many places, whose numbers all differ.
    pub(crate) fn lent(places: [u64; 4], alloc: Global) -> Result<Self, AllocError>
        ensures places { IfOk result (λ lists. AreLent lists places) }
        ensures values { IfOk result (λ lists. AllCountDown lists) }
    {
        let [seats, bins, validators, stakes] = places;
        Ok(Lists {
            seats: lent(seats, SEATS, alloc)?,
            bins: lent(bins, PIECES, alloc)?,
            validators: lent(validators, PIECES, alloc)?,
            stakes: lent(stakes, PIECES, alloc)?,
        })
    }

    // The lists of a call that is to be accepted; of another, empty ones.
    pub(crate) fn read_if(
        accepted: bool,
        text: &mut Reader,
        alloc: Global,
    ) -> Result<Option<Self>, AllocError>
        ensures value { IfOk result (λ found. (option_map numbers_of found, text.new) ≡ four_if accepted 5300 text.old) }
        ensures rest { length text.new ≤ length text.old }
    {
        let Some(seats) = text.list_if(accepted, PIECES, alloc)? else {
            return Ok(None);
        };
        let Some(bins) = text.list_if(accepted, PIECES, alloc)? else {
            return Ok(None);
        };
        let Some(validators) = text.list_if(accepted, PIECES, alloc)? else {
            return Ok(None);
        };
        let Some(stakes) = text.list_if(accepted, PIECES, alloc)? else {
            return Ok(None);
        };
        Ok(Some(Lists {
            seats,
            bins,
            validators,
            stakes,
        }))
    }

    // These lists as far as lent buffers have places for them.
    pub(crate) fn cut_to(mut self, lent: &Lists) -> Self
        ensures { AreCut result self lent.now }
    {
        self.seats.truncate(lent.seats.len());
        self.bins.truncate(lent.bins.len());
        self.validators.truncate(lent.validators.len());
        self.stakes.truncate(lent.stakes.len());
        self
    }

    // Whether the whole of each lent buffer is as it is to be.
    pub(crate) fn hold(&self, before: &Lists, fronts: &Lists) -> bool
        ensures { IsTrue result ↔ AreHeld self.now before.now fronts.now }
    {
        holds(&self.seats, &before.seats, &fronts.seats)
            && holds(&self.bins, &before.bins, &fronts.bins)
            && holds(&self.validators, &before.validators, &fronts.validators)
            && holds(&self.stakes, &before.stakes, &fronts.stakes)
    }
}
