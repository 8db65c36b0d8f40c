// One position of a netting set.
ghost use Rattle.std.specs.Prelude.{◌&&◌, ◌≡◌};
ghost use Rattle.deal.specs.Answers.{answer_number};
ghost use Rattle.netting.specs.Positions.{position_refusal, security_allowed, side_known};

use crate::set::NettingSet;
use deal::asset::Asset;
use deal::checks::FieldChecks;
use deal::ranges::{amount_allowed, currency_allowed};
use deal::refusal::Refusal;
use tables::goods::CASH;

// The sides. Numbers, as they are sent: a set whose position has another is refused, and not unreadable.
pub const LENT: u64 = 1;

pub const RECEIVED: u64 = 2;

#[derive(Clone, Copy, Debug, PartialEq, Eq)]
pub struct Position {
    // Lent or received.
    pub side: u64,
    pub amount: u64,
    // Which security; 0 for cash.
    pub security: u64,
    pub asset: Asset,
    pub currency: u64,
}

impl Position {
    pub const ZERO: Position = Position {
        side: 0,
        amount: 0,
        security: 0,
        asset: Asset {
            goods: 0,
            step: 0,
            life: 0,
        },
        currency: 0,
    };

    #[tactic(auto, unfolding(base::specs::Range::within))]
    fn side_known(self) -> bool
        ensures { result ≡ side_known self }
    {
        (LENT..=RECEIVED).contains(&self.side)
    }

    // Cash is no security, and nothing else goes without a number.
    #[tactic(auto, unfolding(crate::specs::Positions::security_allowed, base::specs::Range::within))]
    fn security_allowed(self) -> bool
        ensures { result ≡ security_allowed self }
    {
        let asset = self.asset;
        if asset.goods == CASH {
            self.security == 0
        } else {
            (1..=NettingSet::SECURITY_LIMIT).contains(&self.security)
        }
    }

    // The first refusal that its own fields meet.
    #[tactic(auto, unfolding(crate::specs::Positions::position_refusal, crate::specs::Positions::position_tests))]
    pub fn check(self) -> Result<(), Refusal>
        ensures { answer_number result ≡ position_refusal self }
    {
        let asset = self.asset;
        let checks = FieldChecks {
            amount: amount_allowed(self.amount),
            codes: self.side_known() && asset.goods_known(),
            steps: asset.step_allowed(),
            currency: currency_allowed(self.currency),
            ranges: self.security_allowed() && asset.life_allowed(),
            // Asked of items of a deal alone.
            maturity: true,
            conditions: true,
        };
        checks.answer()
    }
}
