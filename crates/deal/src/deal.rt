// A deal's record, how one is opened, and how collateral, guarantees and swaps are added to it.
ghost use Rattle.std.specs.Prelude.{◌≡◌, IfOk};
ghost use Rattle.deal.specs.Answers.{answer_number};
ghost use Rattle.deal.specs.Terms.{terms_refusal};
ghost use Rattle.deal.specs.Records.{accepted as accepted_of, record_allowed, without_protection};
ghost use Rattle.deal.specs.Opening.{opened_deal};
ghost use Rattle.deal.specs.Adding.{add_collateral_refusal, with_collateral, add_guarantee_refusal, with_guarantee, add_swap_refusal, with_swap};

use crate::collateral::{Collateral, CollateralList};
use crate::guarantee::{Guarantee, GuaranteeList};
use crate::list::Added;
use crate::refusal::Refusal;
use crate::terms::Terms;

#[derive(Clone, Copy, Debug, PartialEq, Eq)]
pub struct Deal {
    pub terms: Terms,
    pub collateral: CollateralList,
    pub guarantees: GuaranteeList,
}

// A deal on these terms with empty lists.
pub fn without_protection(terms: Terms) -> Deal
    ensures { result ≡ without_protection terms }
{
    let collateral = CollateralList::empty();
    let guarantees = GuaranteeList::empty();
    Deal {
        terms,
        collateral,
        guarantees,
    }
}

impl Deal {
    pub const AMOUNT_LIMIT: u64 = 1_000_000_000_000;

    // The most days of a term or of an issue life.
    pub const DAYS_LIMIT: u64 = 100_000;

    pub const COLLATERAL_LIMIT: usize = 16;

    pub const GUARANTEE_LIMIT: usize = 16;

    // A new deal on these terms; none beside a refusal.
    #[tactic(auto, unfolding(crate::specs::Answers::answer_number, crate::specs::Opening::opened_deal))]
    pub fn open(terms: Terms) -> Result<Deal, Refusal>
        ensures refusal { answer_number result ≡ terms_refusal terms }
        ensures opened { IfOk result (λ deal. deal ≡ opened_deal terms) }
    {
        terms.check()?;
        Ok(without_protection(terms))
    }

    // Whether this is a record that adding takes: no count too high, no field that opening or adding would refuse.
    #[tactic(auto, using(crate::proofs::Answers::agreed), unfolding(crate::specs::Records::record_allowed))]
    pub fn allowed(self) -> bool
        ensures { result ≡ record_allowed self }
    {
        let terms = self.terms;
        let collateral = self.collateral;
        let guarantees = self.guarantees;
        terms.check().is_ok() & collateral.allowed() & guarantees.allowed()
    }

    // Whether this is an accepted deal, one that reporting takes.
    #[tactic(auto, unfolding(crate::specs::Records::accepted))]
    pub fn accepted(self) -> bool
        ensures { result ≡ accepted_of self }
    {
        self.allowed()
    }

    // One more item of collateral; the same deal beside a refusal. Adding a guarantee is the same of another field; a closure
    // that names the field would be no plainer.
    pub fn add_collateral(mut self, item: Collateral) -> Added<Deal>
        ensures { (answer_number result.answer ≡ add_collateral_refusal self item) × (result.after ≡ with_collateral self item) }
    {
        if !self.allowed() {
            return Added {
                after: self,
                answer: Err(Refusal::RecordNotAccepted),
            };
        }
        let list = self.collateral;
        let added = list.add(item);
        self.collateral = added.after;
        Added {
            after: self,
            answer: added.answer,
        }
    }

    // One more item of the list of guarantees, whichever its instrument; the same deal beside a refusal.
    pub fn add_guarantee(mut self, item: Guarantee) -> Added<Deal>
        ensures { (answer_number result.answer ≡ add_guarantee_refusal self item) × (result.after ≡ with_guarantee self item) }
    {
        if !self.allowed() {
            return Added {
                after: self,
                answer: Err(Refusal::RecordNotAccepted),
            };
        }
        let list = self.guarantees;
        let added = list.add(item);
        self.guarantees = added.after;
        Added {
            after: self,
            answer: added.answer,
        }
    }

    // One more swap, of a guarantee's fields and the entry of its further condition: 1 where restructuring is a credit event, or 0.
    pub fn add_swap(self, item: Guarantee, restructuring: u64) -> Added<Deal>
        ensures { (answer_number result.answer ≡ add_swap_refusal self restructuring item) × (result.after ≡ with_swap self restructuring item) }
    {
        self.add_guarantee(item.as_swap(restructuring))
    }
}
