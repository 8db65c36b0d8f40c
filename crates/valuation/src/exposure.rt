// The volatility-adjusted exposure and the weighted amount, both rounded up.
ghost use Rattle.std.specs.Prelude.{◌≡◌, ◌≤◌};
ghost use Rattle.valuation.specs.Exposure.{volatility_adjusted_exposure as volatility_adjusted_exposure_of, risk_weighted_amount as risk_weighted_of};

// The exposure with a scaled haircut, in millionths of it, added.
#[tactic(auto, unfolding(crate::specs::Exposure::volatility_adjusted_exposure, base::specs::Rounding::round_up))]
pub fn volatility_adjusted_exposure(amount: u64, haircut: u64) -> u64
    requires amount_bound { amount ≤ 1000000000000 }
    requires haircut_bound { haircut ≤ 10000000 }
    ensures { result ≡ volatility_adjusted_exposure_of amount haircut }
{
    (amount * (1_000_000 + haircut)).div_ceil(1_000_000)
}

// A sum of portions times weights in percent, as an amount: divided by 100 once.
#[tactic(auto, unfolding(crate::specs::Exposure::risk_weighted_amount, base::specs::Rounding::round_up))]
pub fn risk_weighted_amount(sum: u64) -> u64
    requires { sum ≤ 1000000000000000 }
    ensures { result ≡ risk_weighted_of sum }
{
    sum.div_ceil(100)
}
