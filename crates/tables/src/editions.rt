// The figures of a deal's own edition, the number in its book's header. A version of the tables is a type and an edition a number, so each of
// these chooses by itself. Type, step and life come singly, as the definitions and `Table` take them, and so do class and steps.
ghost use Rattle.std.specs.Prelude.{◌≡◌, eqb, ◌≤◌};
ghost use Rattle.tables.specs.Table.{table_of};
ghost use Rattle.tables.specs.Version2023.{edition_2023};

use crate::haircuts::{haircut, lent_haircut};
use crate::version_2019::Version2019;
use crate::version_2023::{EDITION_2023, Version2023};
use crate::weights::{counterparty_weight, provider_weight};

// Whether an edition has the tables of 2023.
fn is_2023(edition: u64) -> bool
    ensures { result ≡ eqb edition edition_2023 }
{
    edition == EDITION_2023
}

// The haircut of eligible collateral.
#[tactic(auto, unfolding(crate::specs::Table::table_of, crate::specs::Shared::haircut_by, crate::specs::Haircuts::haircut, crate::specs::Version2023::haircut_2023))]
pub fn haircut_under(edition: u64, goods: u64, step: u64, life: u64) -> u64
    ensures { result ≡ (table_of edition).haircut goods step life }
{
    if is_2023(edition) {
        return haircut::<Version2023>(goods, step, life);
    }
    haircut::<Version2019>(goods, step, life)
}

// The haircut of goods lent.
#[tactic(auto, unfolding(crate::specs::Table::table_of, crate::specs::Shared::lent_haircut_by, crate::specs::Shared::haircut_by, crate::specs::Haircuts::lent_haircut, crate::specs::Haircuts::haircut, crate::specs::Version2023::lent_haircut_2023, crate::specs::Version2023::haircut_2023))]
pub fn lent_haircut_under(edition: u64, goods: u64, step: u64, life: u64) -> u64
    ensures { result ≡ (table_of edition).lent_haircut goods step life }
{
    if is_2023(edition) {
        return lent_haircut::<Version2023>(goods, step, life);
    }
    lent_haircut::<Version2019>(goods, step, life)
}

// The weight of a protection provider.
#[tactic(auto, unfolding(crate::specs::Table::table_of, crate::specs::Weights::provider_weight, crate::specs::Version2023::provider_weight_2023))]
pub fn provider_weight_under(edition: u64, class: u64, step: u64, sovereign_step: u64) -> u64
    requires { (1 ≤ class) × ((class ≤ 3) × ((step ≤ 6) × (sovereign_step ≤ 6))) }
    ensures { result ≡ (table_of edition).provider_weight class step sovereign_step }
{
    if is_2023(edition) {
        return provider_weight::<Version2023>(edition, class, step, sovereign_step);
    }
    provider_weight::<Version2019>(edition, class, step, sovereign_step)
}

// The weight of a deal's counterparty.
#[tactic(auto, unfolding(crate::specs::Table::table_of, crate::specs::Shared::own_weight_by, crate::specs::Weights::counterparty_weight, crate::specs::Weights::own_weight, crate::specs::Version2023::counterparty_weight_2023, crate::specs::Version2023::own_weight_2023))]
pub fn counterparty_weight_under(edition: u64, class: u64, step: u64, sovereign_step: u64) -> u64
    requires { (1 ≤ class) × ((class ≤ 4) × ((step ≤ 6) × (sovereign_step ≤ 6))) }
    ensures { result ≡ (table_of edition).counterparty_weight class step sovereign_step }
{
    if is_2023(edition) {
        return counterparty_weight::<Version2023>(edition, class, step, sovereign_step);
    }
    counterparty_weight::<Version2019>(edition, class, step, sovereign_step)
}
