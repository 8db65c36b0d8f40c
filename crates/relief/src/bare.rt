// The amounts of a deal without protection, with no list filled.
ghost use Rattle.std.specs.Prelude.{◌≡◌};
ghost use Rattle.deal.specs.Editions.{table_for};
ghost use Rattle.deal.specs.Terms.{terms_refusal};
ghost use Rattle.deal.specs.Views.{unprotected};
ghost use Rattle.scaling.specs.Period.{holding_period};
ghost use Rattle.relief.specs.Exposure.{exposure_after, risk_weighted_amount_of};

use crate::exposure::{exposure_after, scaled_lent_haircut};
use crate::factors::AcceptedTerms;
use crate::weight::weight_of;
use deal::terms::Terms;
use scaling::factor::TimeFactor;
use valuation::exposure::risk_weighted_amount;

#[derive(Clone, Copy, Debug, PartialEq, Eq)]
pub struct Amounts {
    // The exposure after collateral, E*.
    pub exposure: u64,
    // The risk-weighted amount.
    pub rwa: u64,
}

// What the report of such a deal has.
pub fn bare_amounts(terms: Terms, factor: TimeFactor) -> Amounts
    requires { (terms_refusal terms ≡ 0) × (factor.period ≡ holding_period terms.kind terms.interval) }
    ensures { (result.exposure ≡ exposure_after (table_for terms) (unprotected terms)) × (result.rwa ≡ risk_weighted_amount_of (table_for terms) (unprotected terms)) }
{
    let exposure = exposure_after(terms, scaled_lent_haircut(terms, factor), 0);
    let weight = weight_of(terms);
    Amounts {
        exposure,
        rwa: risk_weighted_amount(exposure * weight),
    }
}

impl AcceptedTerms {
    pub fn bare_amounts(&self) -> Amounts
        ensures { (result.exposure ≡ exposure_after (table_for self.now.timed.terms) (unprotected self.now.timed.terms)) × (result.rwa ≡ risk_weighted_amount_of (table_for self.now.timed.terms) (unprotected self.now.timed.terms)) }
    {
        bare_amounts(self.timed.terms, self.timed.factors.deal)
    }
}
