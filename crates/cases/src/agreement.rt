ghost use Rattle.std.specs.Prelude.{◌≡◌, ◌↔◌, IsTrue};
ghost use Rattle.cases.specs.Agreement.{by_number};

use refusals::Refusal;

/// Whether a call answers as stated: by the same numbers, or by the refusal with that number.
pub fn agrees<const N: usize>(
    told: Result<[u64; N], Refusal>,
    expected: Result<[u64; N], u64>,
) -> bool
    ensures { IsTrue result ↔ (by_number told.entry ≡ expected.entry) }
{
    told.map_err(|refusal| refusal.number()) == expected
}
