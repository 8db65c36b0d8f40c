// The figures of the 2023 version (02: L9). Eligibility, the rows of steps, the columns of issuers and the sovereign floor are those of 2019.
ghost use Rattle.std.specs.Prelude.{◌≡◌, ◌<◌};
ghost use Rattle.tables.specs.Version2023.{band_of_2023, debt_haircut_2023, table_weight_2023};

use crate::haircuts::{column, row};
use crate::version::Version;

// The number of this version in a book's header. No enum, as `Terms` of deal holds whatever number was sent.
pub const EDITION_2023: u64 = 3;

// Debt, by row of steps (1; 2 and 3; 4), band of residual life, and column of issuers: sovereign, other, securitisation.
// At step 4 sovereign debt alone is eligible.
const DEBT: [[[u32; 3]; 5]; 3] = [
    [
        [5_000, 10_000, 20_000],
        [20_000, 30_000, 80_000],
        [20_000, 40_000, 80_000],
        [40_000, 60_000, 160_000],
        [40_000, 120_000, 160_000],
    ],
    [
        [10_000, 20_000, 40_000],
        [30_000, 40_000, 120_000],
        [30_000, 60_000, 120_000],
        [60_000, 120_000, 240_000],
        [60_000, 200_000, 240_000],
    ],
    [
        [150_000, 300_000, 250_000],
        [150_000, 300_000, 250_000],
        [150_000, 300_000, 250_000],
        [150_000, 300_000, 250_000],
        [150_000, 300_000, 250_000],
    ],
];

// By class (sovereign; bank; corporate and other entity) and step, the unrated step 0 first.
const WEIGHTS: [[u8; 7]; 3] = [
    [100, 0, 20, 50, 100, 100, 150],
    [150, 20, 30, 50, 100, 100, 150],
    [100, 20, 50, 75, 100, 150, 150],
];

// Up to one, three, five and ten years, and above. Each version has edges of its own.
#[tactic(auto, unfolding(crate::specs::Version2023::band_of_2023))]
fn band(life: u64) -> usize
    ensures band { result ≡ band_of_2023 life }
    ensures within_bands { result < 5 }
{
    match life {
        ..=360 => 0,
        ..=1_080 => 1,
        ..=1_800 => 2,
        ..=3_600 => 3,
        _ => 4,
    }
}

pub struct Version2023;

impl Version for Version2023 {
    ghost MAIN_INDEX_OR_GOLD = { 200000 };

    ghost OTHER_LISTED = { 300000 };

    ghost LENT_NOT_ELIGIBLE = { 300000 };

    ghost debt_haircut = { debt_haircut_2023 };

    ghost table_weight = { table_weight_2023 };

    const MAIN_INDEX_OR_GOLD: u64 = 200_000;

    const OTHER_LISTED: u64 = 300_000;

    const LENT_NOT_ELIGIBLE: u64 = 300_000;

    #[tactic(auto, using(crate::proofs::Cells2023::debt_cell))]
    fn debt_haircut(goods: u64, step: u64, life: u64) -> u64 {
        u64::from(DEBT[row(step)][band(life)][column(goods)])
    }

    fn table_weight(class: u64, step: u64) -> u64 {
        u64::from(WEIGHTS[(class - 1) as usize][step as usize])
    }
}
