// What a deal's collateral is worth.
ghost use Rattle.std.specs.Prelude.{◌≡◌, true, map, ◌≤◌, eqb, length};
ghost use Rattle.base.specs.All.{all_pass};
ghost use Rattle.deal.specs.Editions.{table_for};
ghost use Rattle.deal.specs.Collateral.{collateral_refusal};
ghost use Rattle.deal.specs.Lists.{list_limit};
ghost use Rattle.base.specs.Places.{in_places};
ghost use Rattle.scaling.specs.Period.{holding_period};
ghost use Rattle.relief.specs.Collateral.{collateral_outcome, combined_haircut_of};
ghost use Rattle.relief.specs.Exposure.{collateral_total};
ghost use Rattle.relief.specs.Report.{collateral_report, no_collateral};

use crate::factors::TimedTerms;
use crate::ground::Ground;
use crate::maturity::{short_original, short_residual};
use crate::outcome::Outcome;
use deal::collateral::Collateral;
use deal::deal::Deal;
use deal::terms::Terms;
use scaling::factor::TimeFactor;
use tables::editions::haircut_under;
use tables::eligibility::eligible;
use valuation::haircuts::combined_haircut;
use valuation::protection::Valuation;

#[derive(Clone, Copy, Debug, PartialEq, Eq)]
pub struct CollateralReport {
    pub outcome: Outcome,
}

impl CollateralReport {
    // Of a place past the count.
    pub const NONE: CollateralReport = CollateralReport {
        outcome: Outcome::Valued(Valuation::NONE),
    };
}

// What all items come to, in order of adding.
#[derive(Clone, Copy, Debug, PartialEq, Eq)]
pub struct CollateralValues {
    pub reports: [CollateralReport; Deal::COLLATERAL_LIMIT],
    pub total: u64,
}

// The first ground that applies, or the valuation under these haircuts.
#[tactic(auto, using(tables::proofs::Versions::eligible_same), unfolding(base::specs::FirstMet::first_or, deal::specs::Editions::table_for, crate::specs::Collateral::collateral_outcome, crate::specs::Collateral::collateral_ground, crate::specs::Collateral::collateral_grounds, crate::specs::Collateral::collateral_valuation, crate::specs::Outcomes::outcome_for, crate::specs::Grounds::ground_with))]
fn outcome_after_haircut(terms: Terms, item: Collateral, haircut: u64) -> Outcome
    requires { (item.amount ≤ 1000000000000) × (haircut ≡ combined_haircut_of (table_for terms) terms item) }
    ensures { result ≡ collateral_outcome (table_for terms) terms item }
{
    let asset = item.asset;
    if item.lawful == 0 {
        return Outcome::LeftOut(Ground::NotLawful, item.amount);
    }
    if item.unrelated == 0 {
        return Outcome::LeftOut(Ground::Related, item.amount);
    }
    if item.not_in_rating == 0 {
        return Outcome::LeftOut(Ground::AlreadyInRating, item.amount);
    }
    if !eligible(asset.goods, asset.step, item.listed) {
        return Outcome::LeftOut(Ground::NotEligible, item.amount);
    }
    if short_original(terms, item.residual, item.original) {
        return Outcome::LeftOut(Ground::ShortOriginalTerm, item.amount);
    }
    if short_residual(terms, item.residual) {
        return Outcome::LeftOut(Ground::ShortResidualTerm, item.amount);
    }
    let valuation = Valuation::of(
        item.amount,
        item.amount,
        haircut,
        item.residual,
        terms.residual,
    );
    Outcome::Valued(valuation)
}

// One item of collateral, under the time factor of the deal's period.
#[tactic(auto, using(tables::proofs::EditionBounds::haircut_low), unfolding(deal::specs::Editions::table_for, crate::specs::Collateral::combined_haircut_of))]
pub fn collateral_outcome(terms: Terms, item: Collateral, factor: TimeFactor) -> Outcome
    requires { (item.amount ≤ 1000000000000) × (factor.period ≡ holding_period terms.kind terms.interval) }
    ensures { result ≡ collateral_outcome (table_for terms) terms item }
{
    let asset = item.asset;
    let own = haircut_under(terms.edition, asset.goods, asset.step, asset.life);
    let haircut = combined_haircut(factor, own, item.currency, terms.currency);
    outcome_after_haircut(terms, item, haircut)
}

// Every item of a deal's collateral.
pub fn value_collateral(terms: Terms, items: &[Collateral], factor: TimeFactor) -> CollateralValues
    requires items_value { (length items.now ≤ 16) × (all_pass items.now (λ c. eqb (collateral_refusal c) 0) ≡ true) }
    requires period_value { factor.period ≡ holding_period terms.kind terms.interval }
    ensures { (result.reports ≡ in_places list_limit no_collateral (map (collateral_report (table_for terms) terms) items.now)) × (result.total ≡ collateral_total (table_for terms) terms items.now) }
{
    let mut reports = [CollateralReport::NONE; Deal::COLLATERAL_LIMIT];
    let mut total: u64 = 0;
    for (i, item) in items.iter().enumerate() {
        let outcome = collateral_outcome(terms, *item, factor);
        reports[i] = CollateralReport { outcome };
        total += outcome.valuation().value;
    }
    CollateralValues { reports, total }
}

impl TimedTerms {
    pub fn collateral_outcome(&self, item: Collateral) -> Outcome
        requires { item.amount ≤ 1000000000000 }
        ensures { result ≡ collateral_outcome (table_for self.now.terms) self.now.terms item }
    {
        collateral_outcome(self.terms, item, self.factors.deal)
    }

    pub fn value_collateral(&self, items: &[Collateral]) -> CollateralValues
        requires { (length items.now ≤ 16) × (all_pass items.now (λ c. eqb (collateral_refusal c) 0) ≡ true) }
        ensures { (result.reports ≡ in_places list_limit no_collateral (map (collateral_report (table_for self.now.terms) self.now.terms) items.now)) × (result.total ≡ collateral_total (table_for self.now.terms) self.now.terms items.now) }
    {
        value_collateral(self.terms, items, self.factors.deal)
    }
}
