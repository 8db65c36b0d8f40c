// The report of a deal: the exposure after collateral, what became of every item, and the weighted amount.
ghost use Rattle.std.specs.Prelude.{true, map, ◌≡◌};
ghost use Rattle.deal.specs.Answers.{answer_number};
ghost use Rattle.deal.specs.Records.{accepted as accepted_of};
ghost use Rattle.deal.specs.Editions.{table_for};
ghost use Rattle.deal.specs.Views.{accepted_view, view_on};
ghost use Rattle.relief.specs.ByNumber.{collateral_by_number, guarantees_by_number, place_of};
ghost use Rattle.relief.specs.Report.{full_report, refused_report, report_of, report_refusal};

use crate::collateral::CollateralReport;
use crate::factors::{AcceptedTerms, TimeFactors};
use crate::guarantee::GuaranteeReport;
use crate::portions::with_portions;
use cover::cover::cover;
use deal::collateral::Collateral;
use deal::deal::Deal;
use deal::guarantee::Guarantee;
use deal::refusal::Refusal;
use valuation::exposure::risk_weighted_amount;

#[derive(Clone, Copy, Debug, PartialEq, Eq)]
pub struct Report {
    // A field beside the figures: the reply to a refused record is zeros beside its number (`refused_report`).
    pub answer: Result<(), Refusal>,
    // The exposure after collateral, E*.
    pub exposure: u64,
    // In order of adding.
    pub collateral: [CollateralReport; Deal::COLLATERAL_LIMIT],
    pub guarantees: [GuaranteeReport; Deal::GUARANTEE_LIMIT],
    // The uncovered rest of the exposure.
    pub uncovered: u64,
    // The risk-weighted amount.
    pub rwa: u64,
}

// All zeros, beside the answer that the record is not accepted.
pub fn refused() -> Report
    ensures { result ≡ refused_report }
{
    Report {
        answer: Err(Refusal::RecordNotAccepted),
        exposure: 0,
        collateral: [CollateralReport::NONE; Deal::COLLATERAL_LIMIT],
        guarantees: [GuaranteeReport::NONE; Deal::GUARANTEE_LIMIT],
        uncovered: 0,
        rwa: 0,
    }
}

// The report of an accepted deal on these terms, with these items.
pub fn full_report(
    deal: &AcceptedTerms,
    collateral: &[Collateral],
    guarantees: &[Guarantee],
) -> Report
    requires { accepted_view (view_on deal.now.timed.terms collateral.now guarantees.now) ≡ true }
    ensures { result ≡ full_report (table_for deal.now.timed.terms) (view_on deal.now.timed.terms collateral.now guarantees.now) }
{
    let weight = deal.weight();
    let timed = deal.timed;
    let pledged = timed.value_collateral(collateral);
    let guaranteed = timed.value_guarantees(guarantees, weight);
    let exposure = deal.exposure_after(pledged.total);
    let count = guarantees.len();
    let covered = cover(&guaranteed.protections[..count], exposure, weight);
    let reports = with_portions(&guaranteed.reports[..count], &covered.portions[..count]);
    let pledges = pledged.reports;
    Report {
        answer: Ok(()),
        exposure,
        collateral: pledges,
        guarantees: reports,
        uncovered: covered.uncovered,
        rwa: risk_weighted_amount(covered.weighted_sum),
    }
}

impl Report {
    // Reporting a deal. Its one refusal is a record that is not accepted.
    pub fn of(deal: Deal) -> Report
        ensures report { (answer_number result.answer ≡ report_refusal deal) × (result ≡ report_of deal) }
        ensures by_number { (map (λ p. place_of p.outcome) result.collateral ≡ collateral_by_number deal) × (map (λ p. place_of p.outcome) result.guarantees ≡ guarantees_by_number deal) }
    {
        if !deal.accepted() {
            return refused();
        }
        let accepted = TimeFactors::none().for_terms(deal.terms);
        let collateral = deal.collateral;
        let guarantees = deal.guarantees;
        full_report(
            &accepted,
            &collateral.items[..collateral.count],
            &guarantees.items[..guarantees.count],
        )
    }
}
