// Goods that are lent or pledged.
ghost use Rattle.std.specs.Prelude.{◌≡◌};
ghost use Rattle.deal.specs.Assets.{goods_known, is_debt, asset_step_allowed, life_allowed};
ghost use Rattle.deal.specs.Ranges.{days_limit};

use crate::ranges::{days_allowed, step_allowed};
use tables::goods::{CASH, GOLD, RESECURITISATION, SOVEREIGN_DEBT};

#[derive(Clone, Copy, Debug, PartialEq, Eq)]
pub struct Asset {
    // The type of goods, 1 to 9.
    pub goods: u64,
    pub step: u64,
    // The security's own residual life, never the term of a pledge.
    pub life: u64,
}

#[tactic(auto, unfolding(base::specs::Range::within))]
fn is_debt(goods: u64) -> bool
    ensures { result ≡ is_debt goods }
{
    (SOVEREIGN_DEBT..=RESECURITISATION).contains(&goods)
}

impl Asset {
    #[tactic(auto, unfolding(base::specs::Range::within))]
    pub fn goods_known(self) -> bool
        ensures { result ≡ goods_known self }
    {
        (CASH..=GOLD).contains(&self.goods)
    }

    #[tactic(auto, unfolding(crate::specs::Assets::asset_step_allowed))]
    pub fn step_allowed(self) -> bool
        ensures { result ≡ asset_step_allowed self }
    {
        if is_debt(self.goods) {
            return step_allowed(self.step);
        }
        self.step == 0
    }

    #[tactic(auto, unfolding(crate::specs::Assets::life_allowed))]
    pub fn life_allowed(self) -> bool
        ensures { result ≡ life_allowed days_limit self }
    {
        if is_debt(self.goods) {
            return days_allowed(self.life);
        }
        self.life == 0
    }
}
