// Holding periods in business days: the revaluation interval plus the minimum holding period, less 1.
ghost use Rattle.std.specs.Prelude.{◌≡◌, ◌≤◌};
ghost use Rattle.scaling.specs.Period.{minimum_period, holding_period, guarantee_period};

use tables::kinds::{OTHER_CAPITAL_MARKET, REPO_STYLE};

// The minimum holding period of a kind of transaction: the last is that of secured lending.
#[tactic(auto, unfolding(crate::specs::Period::minimum_period))]
fn minimum_period(kind: u64) -> u64
    ensures { (result ≡ minimum_period kind) × (result ≤ 20) }
{
    match kind {
        REPO_STYLE => 5,
        OTHER_CAPITAL_MARKET => 10,
        _ => 20,
    }
}

// The holding period of collateral and of goods lent.
#[tactic(auto, unfolding(crate::specs::Period::holding_period))]
pub fn holding_period(kind: u64, interval: u64) -> u64
    requires { (1 ≤ interval) × (interval ≤ 250) }
    ensures { result ≡ holding_period kind interval }
{
    interval + minimum_period(kind) - 1
}

// The holding period of a guarantee's currency haircut, the same for every kind.
#[tactic(auto, unfolding(crate::specs::Period::guarantee_period))]
pub fn guarantee_period(interval: u64) -> u64
    requires { interval ≤ 250 }
    ensures { result ≡ guarantee_period interval }
{
    interval + 9
}
