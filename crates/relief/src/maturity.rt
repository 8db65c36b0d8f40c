// Maturity mismatches that leave protection out.
ghost use Rattle.std.specs.Prelude.{◌≡◌};
ghost use Rattle.relief.specs.Maturity.{short_original, short_residual};

use deal::terms::Terms;

// Days: a year, and three months.
const SHORTEST_ORIGINAL: u64 = 360;

const TOO_SHORT_RESIDUAL: u64 = 90;

// Whether cover ends before the deal and ran for less than a year from the start.
#[tactic(auto, unfolding(crate::specs::Maturity::short_original, valuation::specs::Protection::is_mismatch))]
pub fn short_original(terms: Terms, residual: u64, original: u64) -> bool
    ensures { result ≡ short_original terms residual original }
{
    residual < terms.residual && original < SHORTEST_ORIGINAL
}

// Whether cover ends before the deal and within three months.
#[tactic(auto, unfolding(crate::specs::Maturity::short_residual, valuation::specs::Protection::is_mismatch))]
pub fn short_residual(terms: Terms, residual: u64) -> bool
    ensures { result ≡ short_residual terms residual }
{
    residual < terms.residual && residual <= TOO_SHORT_RESIDUAL
}
