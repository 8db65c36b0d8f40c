// The exposure after collateral.
ghost use Rattle.std.specs.Prelude.{◌≡◌, min, ◌-◌};
ghost use Rattle.deal.specs.Editions.{table_for};
ghost use Rattle.deal.specs.Terms.{terms_refusal};
ghost use Rattle.scaling.specs.Period.{holding_period};
ghost use Rattle.relief.specs.Exposure.{scaled_lent_haircut, adjusted_exposure_of};

use crate::factors::{AcceptedTerms, TimedTerms};
use deal::terms::Terms;
use scaling::factor::TimeFactor;
use tables::editions::lent_haircut_under;
use valuation::exposure::volatility_adjusted_exposure;

// The haircut of the goods lent, over the deal's holding period.
#[tactic(auto, using(tables::proofs::EditionBounds::lent_low), unfolding(deal::specs::Editions::table_for, crate::specs::Exposure::scaled_lent_haircut))]
pub fn scaled_lent_haircut(terms: Terms, factor: TimeFactor) -> u64
    requires { factor.period ≡ holding_period terms.kind terms.interval }
    ensures { result ≡ scaled_lent_haircut (table_for terms) terms }
{
    let lent = terms.lent;
    let haircut = lent_haircut_under(terms.edition, lent.goods, lent.step, lent.life);
    factor.scale(haircut)
}

// The exposure, volatility-adjusted by that haircut, less the collateral's total, and never more than the deal's amount.
#[tactic(auto, using(deal::proofs::Plain::plain_terms, crate::proofs::ValueBounds::scaled_lent_haircut_bound), unfolding(crate::specs::Exposure::adjusted_exposure_of))]
pub fn exposure_after(terms: Terms, haircut: u64, total: u64) -> u64
    requires { (terms_refusal terms ≡ 0) × (haircut ≡ scaled_lent_haircut (table_for terms) terms) }
    ensures { result ≡ min terms.amount (adjusted_exposure_of (table_for terms) terms - total) }
{
    let amount = terms.amount;
    let exposure = volatility_adjusted_exposure(amount, haircut);
    amount.min(exposure.saturating_sub(total))
}

impl TimedTerms {
    pub fn scaled_lent_haircut(&self) -> u64
        ensures { result ≡ scaled_lent_haircut (table_for self.now.terms) self.now.terms }
    {
        scaled_lent_haircut(self.terms, self.factors.deal)
    }
}

impl AcceptedTerms {
    pub fn exposure_after(&self, total: u64) -> u64
        ensures { result ≡ min self.now.timed.terms.amount (adjusted_exposure_of (table_for self.now.timed.terms) self.now.timed.terms - total) }
    {
        exposure_after(self.timed.terms, self.timed.scaled_lent_haircut(), total)
    }
}
