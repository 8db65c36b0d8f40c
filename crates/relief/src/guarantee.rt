// What one guarantee or swap is worth, and at which risk weight.
ghost use Rattle.std.specs.Prelude.{◌≡◌, ◌≤◌};
ghost use Rattle.deal.specs.Editions.{table_for};
ghost use Rattle.deal.specs.Guarantees.{guarantee_refusal};
ghost use Rattle.scaling.specs.Period.{guarantee_period};
ghost use Rattle.valuation.specs.Haircuts.{scaled_currency_haircut};
ghost use Rattle.relief.specs.Weights.{counterparty_weight_of, provider_weight_of};
ghost use Rattle.relief.specs.Guarantees.{guarantee_outcome, hedged_amount, is_unrated_entity, protection_of};

use crate::factors::TimedTerms;
use crate::ground::Ground;
use crate::maturity::{short_original, short_residual};
use crate::outcome::Outcome;
use cover::protection::Protection;
use deal::guarantee::Guarantee;
use deal::instrument::SWAP_WITHOUT_RESTRUCTURING;
use deal::terms::Terms;
use scaling::factor::TimeFactor;
use tables::classes::OTHER_ENTITY;
use tables::editions::provider_weight_under;
use valuation::haircuts::scaled_currency_haircut;
use valuation::protection::Valuation;
use valuation::restructuring::partially_recognised;

// What is reported of it.
#[derive(Clone, Copy, Debug, PartialEq, Eq)]
pub struct GuaranteeReport {
    pub outcome: Outcome,
    // What it covers of the exposure after collateral.
    pub portion: u64,
}

impl GuaranteeReport {
    // Of a place past the count.
    pub const NONE: GuaranteeReport = GuaranteeReport {
        outcome: Outcome::Valued(Valuation::NONE),
        portion: 0,
    };
}

// One guarantee's outcome, and what it covers with.
#[derive(Clone, Copy, Debug, PartialEq, Eq)]
pub struct ValuedGuarantee {
    pub outcome: Outcome,
    pub protection: Protection,
}

fn unrated_entity(item: Guarantee) -> bool
    ensures { result ≡ is_unrated_entity item }
{
    item.provider.class == OTHER_ENTITY && item.provider.step == 0
}

// The amount that is hedged: not the whole of a swap for which restructuring is no credit event.
#[tactic(auto, unfolding(crate::specs::Guarantees::hedged_amount))]
fn hedged_amount(terms: Terms, item: Guarantee) -> u64
    requires { item.amount ≤ 1000000000000 }
    ensures { result ≡ hedged_amount terms item }
{
    if item.instrument == SWAP_WITHOUT_RESTRUCTURING {
        return partially_recognised(item.amount, terms.amount);
    }
    item.amount
}

// The first ground that applies, or the valuation under this haircut. `weight` is the provider's, `counterparty_weight` the counterparty's.
#[tactic(auto, using(crate::proofs::Hedged::hedged_le), unfolding(base::specs::FirstMet::first_or, crate::specs::Guarantees::guarantee_outcome, crate::specs::Guarantees::guarantee_ground, crate::specs::Guarantees::guarantee_grounds, crate::specs::Guarantees::guarantee_valuation, crate::specs::Outcomes::outcome_for, crate::specs::Grounds::ground_with))]
fn outcome_after_haircut(
    terms: Terms,
    item: Guarantee,
    haircut: u64,
    weight: u64,
    counterparty_weight: u64,
) -> Outcome
    requires amount_bound { (item.amount ≤ 1000000000000) × (haircut ≡ scaled_currency_haircut item.currency terms.currency (guarantee_period terms.interval)) }
    requires weight_value { (weight ≡ provider_weight_of (table_for terms) item) × (counterparty_weight ≡ counterparty_weight_of (table_for terms) terms) }
    ensures { result ≡ guarantee_outcome (table_for terms) terms item }
{
    if item.lawful == 0 {
        return Outcome::LeftOut(Ground::NotLawful, item.amount);
    }
    if item.direct == 0 {
        return Outcome::LeftOut(Ground::NotDirect, item.amount);
    }
    if item.not_in_rating == 0 {
        return Outcome::LeftOut(Ground::AlreadyInRating, item.amount);
    }
    if unrated_entity(item) {
        return Outcome::LeftOut(Ground::UnratedEntity, item.amount);
    }
    if short_original(terms, item.residual, item.original) {
        return Outcome::LeftOut(Ground::ShortOriginalTerm, item.amount);
    }
    if short_residual(terms, item.residual) {
        return Outcome::LeftOut(Ground::ShortResidualTerm, item.amount);
    }
    if weight >= counterparty_weight {
        return Outcome::LeftOut(Ground::WeightNotBelow, item.amount);
    }
    let hedged = hedged_amount(terms, item);
    let valuation = Valuation::of(item.amount, hedged, haircut, item.residual, terms.residual);
    Outcome::Valued(valuation)
}

// One guarantee; `counterparty_weight` is the counterparty's, looked up once for all of them, `factor` that of the guarantees' period.
#[tactic(auto, using(deal::proofs::Plain::plain_guarantee), unfolding(deal::specs::Editions::table_for))]
pub fn guarantee_outcome(
    terms: Terms,
    item: Guarantee,
    counterparty_weight: u64,
    factor: TimeFactor,
) -> ValuedGuarantee
    requires item_value { (guarantee_refusal item ≡ 0) × (counterparty_weight ≡ counterparty_weight_of (table_for terms) terms) }
    requires period_value { factor.period ≡ guarantee_period terms.interval }
    ensures { (result.outcome ≡ guarantee_outcome (table_for terms) terms item) × (result.protection ≡ protection_of (table_for terms) terms item) }
{
    let provider = item.provider;
    let weight = provider_weight_under(
        terms.edition,
        provider.class,
        provider.step,
        provider.sovereign_step,
    );
    let haircut = scaled_currency_haircut(factor, item.currency, terms.currency);
    let outcome = outcome_after_haircut(terms, item, haircut, weight, counterparty_weight);
    ValuedGuarantee {
        outcome,
        protection: Protection {
            value: outcome.valuation().value,
            weight,
        },
    }
}

impl TimedTerms {
    pub fn guarantee_outcome(&self, item: Guarantee, counterparty_weight: u64) -> ValuedGuarantee
        requires { (guarantee_refusal item ≡ 0) × (counterparty_weight ≡ counterparty_weight_of (table_for self.now.terms) self.now.terms) }
        ensures { (result.outcome ≡ guarantee_outcome (table_for self.now.terms) self.now.terms item) × (result.protection ≡ protection_of (table_for self.now.terms) self.now.terms item) }
    {
        guarantee_outcome(
            self.terms,
            item,
            counterparty_weight,
            self.factors.guarantees,
        )
    }
}
