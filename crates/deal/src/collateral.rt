// Collateral, and the list of it that a deal holds.
ghost use Rattle.std.specs.Prelude.{◌≡◌};
ghost use Rattle.deal.specs.Answers.{answer_number};
ghost use Rattle.deal.specs.Collateral.{empty_collateral, collateral_list_allowed, collateral_list_refusal, collateral_list_with, collateral_refusal};

use crate::asset::Asset;
use crate::checks::FieldChecks;
use crate::deal::Deal;
use crate::list::{Added, Item, all_allowed, put_item};
use crate::ranges::{amount_allowed, condition_allowed, currency_allowed, days_allowed};
use crate::refusal::Refusal;

#[derive(Clone, Copy, Debug, PartialEq, Eq)]
pub struct Collateral {
    pub amount: u64,
    pub asset: Asset,
    pub currency: u64,
    // The terms of the pledge in days: what is left of it, and the original one.
    pub residual: u64,
    pub original: u64,
    // Conditions, each 1 met or 0 not met: lawful; unrelated to the counterparty; not already reflected in the rating used;
    // listed senior bank paper.
    pub lawful: u64,
    pub unrelated: u64,
    pub not_in_rating: u64,
    pub listed: u64,
}

// An array and a count, and a type of its own: list.rt says why.
#[derive(Clone, Copy, Debug, PartialEq, Eq)]
pub struct CollateralList {
    pub items: [Collateral; Deal::COLLATERAL_LIMIT],
    pub count: usize,
}

impl Collateral {
    pub const ZERO: Collateral = Collateral {
        amount: 0,
        asset: Asset {
            goods: 0,
            step: 0,
            life: 0,
        },
        currency: 0,
        residual: 0,
        original: 0,
        lawful: 0,
        unrelated: 0,
        not_in_rating: 0,
        listed: 0,
    };
}

impl Item for Collateral {
    ghost refusal = { collateral_refusal };

    #[tactic(auto, unfolding(crate::specs::Collateral::collateral_refusal, crate::specs::Collateral::collateral_tests))]
    fn check(self) -> Result<(), Refusal>
        ensures { answer_number result ≡ collateral_refusal self }
    {
        let asset = self.asset;
        let ranges = days_allowed(self.residual)
            & days_allowed(self.original)
            & asset.life_allowed();
        let conditions = condition_allowed(self.lawful)
            & condition_allowed(self.unrelated)
            & condition_allowed(self.not_in_rating)
            & condition_allowed(self.listed);
        let checks = FieldChecks {
            amount: amount_allowed(self.amount),
            codes: asset.goods_known(),
            steps: asset.step_allowed(),
            currency: currency_allowed(self.currency),
            ranges,
            maturity: self.residual <= self.original,
            conditions,
        };
        checks.answer()
    }
}

impl CollateralList {
    // A list of no items.
    pub fn empty() -> CollateralList
        ensures { result ≡ empty_collateral }
    {
        let items = [Collateral::ZERO; Deal::COLLATERAL_LIMIT];
        CollateralList { items, count: 0 }
    }

    // Whether the count fits and no counted item would be refused.
    #[tactic(auto, using(base::proofs::All::all_listed), unfolding(crate::specs::Collateral::collateral_list_allowed))]
    pub fn allowed(self) -> bool
        ensures { result ≡ collateral_list_allowed self }
    {
        self.count <= Deal::COLLATERAL_LIMIT && all_allowed(&self.items[..self.count])
    }

    // One item more, behind the counted ones; the same list beside a refusal.
    #[tactic(auto, unfolding(crate::specs::Collateral::collateral_list_with, crate::specs::Collateral::collateral_list_refusal, crate::specs::Collateral::collateral_list_tests, base::specs::FirstMet::first_or))]
    pub fn add(mut self, item: Collateral) -> Added<CollateralList>
        ensures { (result.after ≡ collateral_list_with self item) × (answer_number result.answer ≡ collateral_list_refusal self item) }
    {
        let answer = put_item(&mut self.items, &mut self.count, item);
        Added {
            after: self,
            answer,
        }
    }
}
