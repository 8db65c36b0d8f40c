// What all positions are asked together: received goods that are not eligible, and the sum of all amounts.
ghost use Rattle.std.specs.Prelude.{◌≡◌, ◌≤◌, length};
ghost use Rattle.base.specs.FirstMet.{first_met};
ghost use Rattle.base.specs.Sum.{sum_of};
ghost use Rattle.base.specs.Any.{any};
ghost use Rattle.netting.specs.Positions.{amount_of, fields_of_each};
ghost use Rattle.netting.specs.Refusals.{received_not_eligible};

use crate::position::{LENT, Position};
use tables::eligibility::eligible;

// Unrated bank debt has no listing condition here.
#[tactic(auto, unfolding(crate::specs::Refusals::received_not_eligible))]
fn received_not_eligible(position: &Position) -> bool
    ensures { result ≡ received_not_eligible position.now }
{
    let asset = position.asset;
    position.side != LENT && !eligible(asset.goods, asset.step, 0)
}

pub fn any_not_eligible(positions: &[Position]) -> bool
    ensures { result ≡ any positions.now received_not_eligible }
{
    positions.iter().any(received_not_eligible)
}

// The sum of all amounts.
pub fn total(positions: &[Position]) -> u64
    requires few { length positions.now ≤ 32 }
    requires positions_value { first_met (fields_of_each positions.now) ≡ 0 }
    ensures { result ≡ sum_of amount_of positions.now }
{
    positions.iter().map(|p| p.amount).sum()
}
