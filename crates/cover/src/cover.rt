// Which portion of an exposure each piece of protection covers, and what that weighs.
ghost use Rattle.std.specs.Prelude.{true, ◌≡◌, ◌-◌, ◌≤◌, length, min};
ghost use Rattle.base.specs.All.{all_pass};
ghost use Rattle.cover.specs.Cover.{cover_of};
ghost use Rattle.cover.specs.Limits.{within_limits};

use crate::precedence::covers_before;
use crate::protection::{Cover, Protection};

// What is left of the exposure, up to the value.
fn portion(value: u64, exposure: u64, before: u64) -> u64
    ensures { result ≡ min value (exposure - before) }
{
    value.min(exposure.saturating_sub(before))
}

// The portions in order of adding, and what they and the rest weigh.
pub fn cover(protections: &[Protection], exposure: u64, weight: u64) -> Cover
    requires count_bound { length protections.now ≤ 16 }
    requires exposure_bound { exposure ≤ 1000000000000 }
    requires weight_bound { weight ≤ 1000 }
    requires within_limits_value { all_pass protections.now within_limits ≡ true }
    ensures { result ≡ cover_of weight exposure protections.now }
{
    let mut portions = [0; 16];
    let mut uncovered = exposure;
    let mut weighted_sum = 0;
    for (i, piece) in protections.iter().enumerate() {
        let before = covers_before(protections, i, piece.weight);
        let covered = portion(piece.value, exposure, before);
        portions[i] = covered;
        // Never too much: a portion is no more than lower-weighted and earlier ones leave.
        uncovered -= covered;
        weighted_sum += covered * piece.weight;
    }
    weighted_sum += uncovered * weight;
    Cover {
        portions,
        uncovered,
        weighted_sum,
    }
}
