// Haircuts scaled to the holding period, in millionths.
ghost use Rattle.std.specs.Prelude.{◌≡◌, ◌≤◌};
ghost use Rattle.valuation.specs.Haircuts.{scaled_currency_haircut, combined_haircut};

use scaling::factor::TimeFactor;
use tables::haircuts::CURRENCY;

// The currency haircut, over this factor's period.
#[tactic(auto, unfolding(crate::specs::Haircuts::scaled_currency_haircut))]
pub fn scaled_currency_haircut(factor: TimeFactor, currency: u64, deal_currency: u64) -> u64
    ensures { result ≡ scaled_currency_haircut currency deal_currency factor.period }
{
    if currency == deal_currency {
        return 0;
    }
    factor.scale(CURRENCY)
}

// The haircuts of collateral, each scaled by itself.
#[tactic(auto, using(scaling::proofs::Scaled::scaled_wide, crate::proofs::CombinedHaircut::currency_wide), unfolding(crate::specs::Haircuts::combined_haircut))]
pub fn combined_haircut(factor: TimeFactor, haircut: u64, currency: u64, deal_currency: u64) -> u64
    requires { haircut ≤ 1000000 }
    ensures { result ≡ combined_haircut haircut currency deal_currency factor.period }
{
    factor.scale(haircut) + scaled_currency_haircut(factor, currency, deal_currency)
}
