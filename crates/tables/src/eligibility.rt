// Which goods are eligible as collateral.
ghost use Rattle.std.specs.Prelude.{◌≡◌};
ghost use Rattle.tables.specs.Eligibility.{eligible as eligible_of};

use crate::goods::{
    BANK_DEBT, CASH, GOLD, MAIN_INDEX_EQUITY, OTHER_DEBT, SECURITISATION, SOVEREIGN_DEBT,
};

// Whether goods of this type and step are eligible; `listed` is 1 for listed senior bank paper.
#[tactic(auto, unfolding(crate::specs::Eligibility::eligible, crate::specs::Eligibility::bank_debt_eligible, crate::specs::Eligibility::equity_or_gold, base::specs::Range::within))]
pub fn eligible(goods: u64, step: u64, listed: u64) -> bool
    ensures { result ≡ eligible_of goods step listed }
{
    match goods {
        CASH | MAIN_INDEX_EQUITY..=GOLD => true,
        SOVEREIGN_DEBT => matches!(step, 1..=4),
        OTHER_DEBT | SECURITISATION => matches!(step, 1..=3),
        BANK_DEBT => match step {
            0 => listed == 1,
            1..=3 => true,
            _ => false,
        },
        _ => false,
    }
}
