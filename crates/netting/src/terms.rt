// The terms of a netting set: every field but its positions.
ghost use Rattle.std.specs.Prelude.{◌≡◌};
ghost use Rattle.deal.specs.Answers.{answer_number};
ghost use Rattle.netting.specs.Terms.{set_interval_allowed, set_terms_refusal, table_known};

use crate::set::NettingSet;
use deal::checks::FieldChecks;
use deal::party::Party;
use deal::ranges::currency_allowed;
use deal::refusal::Refusal;

// Codes stay the numbers that were sent: wrong ones are refused (`set_terms_refusal`, `position_refusal`).
const FIRST_TABLE: u64 = 2;

const LAST_TABLE: u64 = 3;

#[derive(Clone, Copy, Debug, PartialEq, Eq)]
pub struct SetTerms {
    // The number of the tables, which is an edition's with the sovereign floor.
    pub table: u64,
    pub counterparty: Party,
    // The settlement currency.
    pub settlement: u64,
    // Business days between revaluations.
    pub interval: u64,
}

#[tactic(auto, unfolding(base::specs::Range::within))]
fn table_known(table: u64) -> bool
    ensures { result ≡ table_known table }
{
    (FIRST_TABLE..=LAST_TABLE).contains(&table)
}

#[tactic(auto, unfolding(base::specs::Range::within))]
fn interval_allowed(interval: u64) -> bool
    ensures { result ≡ set_interval_allowed interval }
{
    (1..=NettingSet::INTERVAL_LIMIT).contains(&interval)
}

impl SetTerms {
    // The first refusal that these fields meet.
    #[tactic(auto, unfolding(crate::specs::Terms::set_terms_refusal, crate::specs::Terms::set_terms_tests))]
    pub fn check(self) -> Result<(), Refusal>
        ensures { answer_number result ≡ set_terms_refusal self }
    {
        let counterparty = self.counterparty;
        let checks = FieldChecks {
            // Asked of positions alone.
            amount: true,
            codes: table_known(self.table) && counterparty.counterparty_known(),
            steps: counterparty.steps_allowed(),
            currency: currency_allowed(self.settlement),
            ranges: interval_allowed(self.interval),
            // Asked of items of a deal alone.
            maturity: true,
            conditions: true,
        };
        checks.answer()
    }
}
