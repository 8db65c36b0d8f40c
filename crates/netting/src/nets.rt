// Signed nets: lent less received.
ghost use Rattle.std.specs.Prelude.{◌≡◌, ◌≤◌};
ghost use Rattle.base.specs.Sum.{sum_of};
ghost use Rattle.signed.specs.Signed.{◌less◌};
ghost use Rattle.netting.specs.Groups.{member};
ghost use Rattle.netting.specs.Nets.{lent, net as net_of, received};
ghost use Rattle.netting.specs.Positions.{amount_of};

use crate::group::Group;
use crate::position::{LENT, Position};

// A position's amount with its sign: negative where it was received.
fn signed_amount(position: &Position) -> i64
    requires { position.now.amount ≤ 1000000000000 }
    ensures { result ≡ lent position.now less received position.now }
{
    let amount = position.amount as i64;
    if position.side == LENT {
        amount
    } else {
        -amount
    }
}

// The net of a group.
pub fn net(positions: &[Position], group: Group) -> i64
    requires { sum_of amount_of positions.now ≤ 1000000000000 }
    ensures { result ≡ net_of (member group) positions.now }
{
    let mut sum = 0;
    for position in positions {
        if group.contains(position) {
            sum += signed_amount(position);
        }
    }
    sum
}

// A position's amount, where it was lent.
#[tactic(auto, unfolding(crate::specs::Nets::lent))]
fn lent(position: &Position) -> u64
    ensures { result ≡ lent position.now }
{
    if position.side == LENT {
        position.amount
    } else {
        0
    }
}

// All that was lent.
pub fn lent_total(positions: &[Position]) -> u64
    requires { sum_of amount_of positions.now ≤ 1000000000000 }
    ensures { result ≡ sum_of lent positions.now }
{
    positions.iter().map(lent).sum()
}
