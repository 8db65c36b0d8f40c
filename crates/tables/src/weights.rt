// The risk weights in percent: what the versions share, and the sovereign floor of the editions that have it.
ghost use Rattle.std.specs.Prelude.{◌≡◌, ◌≤◌};
ghost use Rattle.tables.specs.Shared.{own_weight_by};
ghost use Rattle.tables.specs.Weights.{at_least_sovereign, floor_for_counterparty, floor_for_provider, has_floor};

use crate::classes::{BANK, CORPORATE, RETAIL, SOVEREIGN};
use crate::version::Version;
use crate::version_2019::Version2019;

pub const RETAIL_WEIGHT: u64 = 75;

// A counterparty's, by its own step.
#[tactic(auto, unfolding(crate::specs::Shared::own_weight_by))]
fn own_weight<V: Version>(class: u64, step: u64) -> u64
    requires class_range { (1 ≤ class) × (class ≤ 4) }
    requires step_range { step ≤ 6 }
    ensures { result ≡ own_weight_by V.table_weight class step }
{
    if class == RETAIL {
        return RETAIL_WEIGHT;
    }
    V::table_weight(class, step)
}

// Whether the tables of an edition have the floor.
#[tactic(auto, unfolding(crate::specs::Weights::has_floor))]
fn has_floor(edition: u64) -> bool
    ensures { result ≡ has_floor edition }
{
    edition != 1
}

// Whether the floor is for a counterparty: an unrated bank or corporate.
pub fn floor_for_counterparty(edition: u64, class: u64, step: u64) -> bool
    ensures { result ≡ floor_for_counterparty edition class step }
{
    has_floor(edition) && step == 0 && (class == BANK || class == CORPORATE)
}

// Whether it is for a provider: an unrated bank.
pub fn floor_for_provider(edition: u64, class: u64, step: u64) -> bool
    ensures { result ≡ floor_for_provider edition class step }
{
    has_floor(edition) && step == 0 && class == BANK
}

// Where the floor applies, the larger of a party's own weight and its sovereign's, which is the same in every version.
#[tactic(auto, unfolding(crate::specs::Weights::at_least_sovereign))]
pub fn at_least_sovereign(applies: bool, own: u64, sovereign_step: u64) -> u64
    requires { sovereign_step ≤ 6 }
    ensures { result ≡ at_least_sovereign applies own sovereign_step }
{
    if applies {
        return own.max(Version2019::table_weight(SOVEREIGN, sovereign_step));
    }
    own
}

// The weight of a protection provider.
pub fn provider_weight<V: Version>(edition: u64, class: u64, step: u64, sovereign_step: u64) -> u64
    requires class_range { (1 ≤ class) × (class ≤ 3) }
    requires step_range { step ≤ 6 }
    requires sovereign_range { sovereign_step ≤ 6 }
    ensures { result ≡ at_least_sovereign (floor_for_provider edition class step) (V.table_weight class step) sovereign_step }
{
    let applies = floor_for_provider(edition, class, step);
    at_least_sovereign(applies, V::table_weight(class, step), sovereign_step)
}

// The weight of a deal's counterparty.
pub fn counterparty_weight<V: Version>(
    edition: u64,
    class: u64,
    step: u64,
    sovereign_step: u64,
) -> u64
    requires class_range { (1 ≤ class) × (class ≤ 4) }
    requires step_range { step ≤ 6 }
    requires sovereign_range { sovereign_step ≤ 6 }
    ensures { result ≡ at_least_sovereign (floor_for_counterparty edition class step) (own_weight_by V.table_weight class step) sovereign_step }
{
    let applies = floor_for_counterparty(edition, class, step);
    at_least_sovereign(applies, own_weight::<V>(class, step), sovereign_step)
}
