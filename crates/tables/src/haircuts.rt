// The standard supervisory haircuts, before scaling to a holding period: what the versions share. The rows of steps and the columns of issuers are
// those of 2019 in each.
ghost use Rattle.std.specs.Prelude.{◌≡◌, ◌<◌};
ghost use Rattle.tables.specs.Haircuts.{row_of, issuer_column};
ghost use Rattle.tables.specs.Shared.{haircut_by, lent_haircut_by};

use crate::eligibility::eligible;
use crate::goods::{
    CASH, GOLD, MAIN_INDEX_EQUITY, OTHER_LISTED_EQUITY, SECURITISATION, SOVEREIGN_DEBT,
};
use crate::version::Version;

// Where an item and the deal are in different currencies.
pub const CURRENCY: u64 = 80_000;

// The row of a table of debt.
#[tactic(auto, unfolding(crate::specs::Haircuts::row_of))]
pub fn row(step: u64) -> usize
    ensures row { result ≡ row_of step }
    ensures within_rows { result < 3 }
{
    match step {
        1 => 0,
        4 => 2,
        _ => 1,
    }
}

// The column.
#[tactic(auto, unfolding(crate::specs::Haircuts::issuer_column))]
pub fn column(goods: u64) -> usize
    ensures column { result ≡ issuer_column goods }
    ensures within_columns { result < 3 }
{
    match goods {
        SOVEREIGN_DEBT => 0,
        SECURITISATION => 2,
        _ => 1,
    }
}

// The haircut of eligible collateral.
#[tactic(auto, unfolding(crate::specs::Shared::haircut_by))]
pub fn haircut<V: Version>(goods: u64, step: u64, life: u64) -> u64
    ensures { result ≡ haircut_by V.MAIN_INDEX_OR_GOLD V.OTHER_LISTED V.debt_haircut goods step life }
{
    match goods {
        CASH => 0,
        MAIN_INDEX_EQUITY | GOLD => V::MAIN_INDEX_OR_GOLD,
        OTHER_LISTED_EQUITY => V::OTHER_LISTED,
        _ => V::debt_haircut(goods, step, life),
    }
}

// The haircut of goods lent. They have no listing condition, so unrated bank debt is never eligible here.
#[tactic(auto, unfolding(crate::specs::Shared::lent_haircut_by))]
pub fn lent_haircut<V: Version>(goods: u64, step: u64, life: u64) -> u64
    ensures { result ≡ lent_haircut_by V.LENT_NOT_ELIGIBLE V.MAIN_INDEX_OR_GOLD V.OTHER_LISTED V.debt_haircut goods step life }
{
    if eligible(goods, step, 0) {
        return haircut::<V>(goods, step, life);
    }
    V::LENT_NOT_ELIGIBLE
}
