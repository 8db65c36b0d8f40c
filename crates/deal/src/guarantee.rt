// Guarantees and credit default swaps, and the list of both that a deal holds.
ghost use Rattle.std.specs.Prelude.{◌≡◌};
ghost use Rattle.deal.specs.Answers.{answer_number};
ghost use Rattle.deal.specs.Guarantees.{empty_guarantees, guarantee_list_allowed, guarantee_list_refusal, guarantee_list_with, guarantee_refusal};
ghost use Rattle.deal.specs.Instruments.{as_swap};

use crate::checks::FieldChecks;
use crate::deal::Deal;
use crate::instrument::{GUARANTEE, instrument_allowed, swap_with};
use crate::list::{Added, Item, all_allowed, put_item};
use crate::party::Party;
use crate::ranges::{amount_allowed, condition_allowed, currency_allowed, days_allowed};
use crate::refusal::Refusal;

#[derive(Clone, Copy, Debug, PartialEq, Eq)]
pub struct Guarantee {
    pub amount: u64,
    pub provider: Party,
    pub currency: u64,
    // The terms of the guarantee in days: what is left of it, and the original one.
    pub residual: u64,
    pub original: u64,
    // Conditions, each 1 met or 0 not met: lawful; direct; not already reflected in the rating used.
    pub lawful: u64,
    pub direct: u64,
    pub not_in_rating: u64,
    // A guarantee, or a swap with or without its further condition.
    pub instrument: u64,
}

// An array and a count, and a type of its own: list.rt says why.
#[derive(Clone, Copy, Debug, PartialEq, Eq)]
pub struct GuaranteeList {
    pub items: [Guarantee; Deal::GUARANTEE_LIMIT],
    pub count: usize,
}

impl Guarantee {
    pub const ZERO: Guarantee = Guarantee {
        amount: 0,
        provider: Party {
            class: 0,
            step: 0,
            sovereign_step: 0,
        },
        currency: 0,
        residual: 0,
        original: 0,
        lawful: 0,
        direct: 0,
        not_in_rating: 0,
        instrument: GUARANTEE,
    };

    // The swap with these fields. An entry that is neither 0 nor 1 gives no instrument.
    pub fn as_swap(mut self, restructuring: u64) -> Guarantee
        ensures { result ≡ as_swap restructuring self }
    {
        self.instrument = swap_with(restructuring);
        self
    }
}

impl Item for Guarantee {
    ghost refusal = { guarantee_refusal };

    #[tactic(auto, unfolding(crate::specs::Guarantees::guarantee_refusal, crate::specs::Guarantees::guarantee_tests))]
    fn check(self) -> Result<(), Refusal>
        ensures { answer_number result ≡ guarantee_refusal self }
    {
        let provider = self.provider;
        let ranges = days_allowed(self.residual) & days_allowed(self.original);
        let conditions = condition_allowed(self.lawful)
            & condition_allowed(self.direct)
            & condition_allowed(self.not_in_rating)
            & instrument_allowed(self.instrument);
        let checks = FieldChecks {
            amount: amount_allowed(self.amount),
            codes: provider.provider_known(),
            steps: provider.steps_allowed(),
            currency: currency_allowed(self.currency),
            ranges,
            maturity: self.residual <= self.original,
            conditions,
        };
        checks.answer()
    }
}

impl GuaranteeList {
    // A list of no items.
    pub fn empty() -> GuaranteeList
        ensures { result ≡ empty_guarantees }
    {
        let items = [Guarantee::ZERO; Deal::GUARANTEE_LIMIT];
        GuaranteeList { items, count: 0 }
    }

    // Whether the count fits and no counted item would be refused.
    #[tactic(auto, using(base::proofs::All::all_listed), unfolding(crate::specs::Guarantees::guarantee_list_allowed))]
    pub fn allowed(self) -> bool
        ensures { result ≡ guarantee_list_allowed self }
    {
        self.count <= Deal::GUARANTEE_LIMIT && all_allowed(&self.items[..self.count])
    }

    // One guarantee or swap more, behind the counted ones; the same list beside a refusal.
    #[tactic(auto, unfolding(crate::specs::Guarantees::guarantee_list_with, crate::specs::Guarantees::guarantee_list_refusal, crate::specs::Guarantees::guarantee_list_tests, base::specs::FirstMet::first_or))]
    pub fn add(mut self, item: Guarantee) -> Added<GuaranteeList>
        ensures { (result.after ≡ guarantee_list_with self item) × (answer_number result.answer ≡ guarantee_list_refusal self item) }
    {
        let answer = put_item(&mut self.items, &mut self.count, item);
        Added {
            after: self,
            answer,
        }
    }
}
