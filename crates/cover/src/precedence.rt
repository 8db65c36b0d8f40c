// What covers before a piece of protection: the lower-weighted pieces, and the earlier ones of its weight.
ghost use Rattle.std.specs.Prelude.{true, ◌≡◌, ◌+◌, ◌≤◌, length, take, if◌then◌else◌};
ghost use Rattle.base.specs.All.{all_pass};
ghost use Rattle.cover.specs.Cover.{lower_weighted, equal, before};
ghost use Rattle.cover.specs.Limits.{within_limits};

use crate::protection::Protection;

// What of a piece covers before one of this weight. At the same weight the order of adding decides.
#[tactic(auto, unfolding(crate::specs::Cover::lower_weighted, crate::specs::Cover::equal))]
fn ahead(piece: Protection, weight: u64, earlier: bool) -> u64
    ensures { result ≡ lower_weighted weight piece + (if earlier then equal weight piece else 0) }
{
    if piece.weight < weight || earlier && piece.weight == weight {
        return piece.value;
    }
    0
}

// What covers before the piece at a place, which has this weight.
pub fn covers_before(protections: &[Protection], place: usize, weight: u64) -> u64
    requires count_bound { length protections.now ≤ 16 }
    requires place_within { place ≤ length protections.now }
    requires within_limits_value { all_pass protections.now within_limits ≡ true }
    ensures { result ≡ before weight protections.now (take place protections.now) }
{
    let mut sum = 0;
    for (i, piece) in protections.iter().enumerate() {
        sum += ahead(*piece, weight, i < place);
    }
    sum
}
