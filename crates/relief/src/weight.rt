// The counterparty's risk weight.
ghost use Rattle.std.specs.Prelude.{◌≡◌};
ghost use Rattle.deal.specs.Editions.{table_for};
ghost use Rattle.deal.specs.Terms.{terms_refusal};
ghost use Rattle.relief.specs.Weights.{counterparty_weight_of};

use crate::factors::AcceptedTerms;
use deal::terms::Terms;
use tables::editions::counterparty_weight_under;

// Under the deal's own tables.
#[tactic(auto, using(deal::proofs::Plain::plain_terms), unfolding(deal::specs::Editions::table_for))]
pub fn weight_of(terms: Terms) -> u64
    requires { terms_refusal terms ≡ 0 }
    ensures { result ≡ counterparty_weight_of (table_for terms) terms }
{
    let counterparty = terms.counterparty;
    counterparty_weight_under(
        terms.edition,
        counterparty.class,
        counterparty.step,
        counterparty.sovereign_step,
    )
}

impl AcceptedTerms {
    pub fn weight(&self) -> u64
        ensures { result ≡ counterparty_weight_of (table_for self.now.timed.terms) self.now.timed.terms }
    {
        weight_of(self.timed.terms)
    }
}
