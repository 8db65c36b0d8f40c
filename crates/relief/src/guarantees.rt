// What all guarantees and swaps of a deal are worth, before they cover anything.
ghost use Rattle.std.specs.Prelude.{true, map, ◌≡◌, ◌≤◌, eqb, length};
ghost use Rattle.base.specs.All.{all_pass};
ghost use Rattle.base.specs.Places.{in_places};
ghost use Rattle.deal.specs.Editions.{table_for};
ghost use Rattle.deal.specs.Guarantees.{guarantee_refusal};
ghost use Rattle.deal.specs.Lists.{list_limit};
ghost use Rattle.scaling.specs.Period.{guarantee_period};
ghost use Rattle.relief.specs.Weights.{counterparty_weight_of};
ghost use Rattle.relief.specs.Guarantees.{protection_of};
ghost use Rattle.relief.specs.Report.{no_guarantee};
ghost use Rattle.relief.specs.Portions.{no_protection, without_portion};

use crate::factors::TimedTerms;
use crate::guarantee::{GuaranteeReport, guarantee_outcome};
use cover::protection::Protection;
use deal::deal::Deal;
use deal::guarantee::Guarantee;
use deal::terms::Terms;
use scaling::factor::TimeFactor;

// In order of adding. Two arrays, since cover reads the protections alone, as one slice.
#[derive(Clone, Copy, Debug, PartialEq, Eq)]
pub struct GuaranteeValues {
    pub reports: [GuaranteeReport; Deal::GUARANTEE_LIMIT],
    pub protections: [Protection; Deal::GUARANTEE_LIMIT],
}

// Every guarantee and swap of a deal.
pub fn value_guarantees(
    terms: Terms,
    items: &[Guarantee],
    counterparty_weight: u64,
    factor: TimeFactor,
) -> GuaranteeValues
    requires items_value { (length items.now ≤ 16) × (all_pass items.now (λ g. eqb (guarantee_refusal g) 0) ≡ true) }
    requires weight_value { counterparty_weight ≡ counterparty_weight_of (table_for terms) terms }
    requires period_value { factor.period ≡ guarantee_period terms.interval }
    ensures reports_value { result.reports ≡ in_places list_limit no_guarantee (map (without_portion (table_for terms) terms) items.now) }
    ensures protections_value { result.protections ≡ in_places list_limit no_protection (map (protection_of (table_for terms) terms) items.now) }
{
    let mut reports = [GuaranteeReport::NONE; Deal::GUARANTEE_LIMIT];
    let mut protections = [Protection::NONE; Deal::GUARANTEE_LIMIT];
    for (i, item) in items.iter().enumerate() {
        let valued = guarantee_outcome(terms, *item, counterparty_weight, factor);
        reports[i] = GuaranteeReport {
            outcome: valued.outcome,
            portion: 0,
        };
        protections[i] = valued.protection;
    }
    GuaranteeValues {
        reports,
        protections,
    }
}

impl TimedTerms {
    pub fn value_guarantees(&self, items: &[Guarantee], counterparty_weight: u64) -> GuaranteeValues
        requires items_value { (length items.now ≤ 16) × (all_pass items.now (λ g. eqb (guarantee_refusal g) 0) ≡ true) }
        requires weight_value { counterparty_weight ≡ counterparty_weight_of (table_for self.now.terms) self.now.terms }
        ensures reports_value { result.reports ≡ in_places list_limit no_guarantee (map (without_portion (table_for self.now.terms) self.now.terms) items.now) }
        ensures protections_value { result.protections ≡ in_places list_limit no_protection (map (protection_of (table_for self.now.terms) self.now.terms) items.now) }
    {
        value_guarantees(
            self.terms,
            items,
            counterparty_weight,
            self.factors.guarantees,
        )
    }
}
