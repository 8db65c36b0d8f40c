// The figures of 2019.
ghost use Rattle.std.specs.Prelude.{◌≡◌, ◌<◌};
ghost use Rattle.tables.specs.Haircuts.{band_of, debt_haircut};
ghost use Rattle.tables.specs.Weights.{table_weight};

use crate::haircuts::{column, row};
use crate::version::Version;

// Debt, by row of steps (1; 2 and 3; 4), band of residual life, and column of issuers: sovereign, other, securitisation.
// At step 4 sovereign debt alone is eligible. No wider than they are: a constant array is written out anew wherever it is read.
const DEBT: [[[u32; 3]; 3]; 3] = [
    [
        [5_000, 10_000, 20_000],
        [20_000, 40_000, 80_000],
        [40_000, 80_000, 160_000],
    ],
    [
        [10_000, 20_000, 40_000],
        [30_000, 60_000, 120_000],
        [60_000, 120_000, 240_000],
    ],
    [
        [150_000, 250_000, 250_000],
        [150_000, 250_000, 250_000],
        [150_000, 250_000, 250_000],
    ],
];

// By class (sovereign; bank; corporate and other entity) and step, the unrated step 0 first.
const WEIGHTS: [[u8; 7]; 3] = [
    [100, 0, 20, 50, 100, 100, 150],
    [50, 20, 50, 50, 100, 100, 150],
    [100, 20, 50, 100, 100, 150, 150],
];

// Up to one and five years, and above. Each version has edges of its own.
#[tactic(auto, unfolding(crate::specs::Haircuts::band_of))]
fn band(life: u64) -> usize
    ensures band { result ≡ band_of life }
    ensures within_bands { result < 3 }
{
    match life {
        ..=360 => 0,
        ..=1_800 => 1,
        _ => 2,
    }
}

pub struct Version2019;

impl Version for Version2019 {
    ghost MAIN_INDEX_OR_GOLD = { 150000 };

    ghost OTHER_LISTED = { 250000 };

    ghost LENT_NOT_ELIGIBLE = { 250000 };

    ghost debt_haircut = { debt_haircut };

    ghost table_weight = { table_weight };

    const MAIN_INDEX_OR_GOLD: u64 = 150_000;

    const OTHER_LISTED: u64 = 250_000;

    const LENT_NOT_ELIGIBLE: u64 = 250_000;

    #[tactic(auto, unfolding(crate::specs::Haircuts::debt_haircut))]
    fn debt_haircut(goods: u64, step: u64, life: u64) -> u64 {
        u64::from(DEBT[row(step)][band(life)][column(goods)])
    }

    fn table_weight(class: u64, step: u64) -> u64 {
        u64::from(WEIGHTS[(class - 1) as usize][step as usize])
    }
}
