// A deal's terms with the time factors of its holding periods. Deals that stand one behind the other often share these factors.
ghost use Rattle.std.specs.Prelude.{◌≡◌};
ghost use Rattle.scaling.specs.Period.{guarantee_period, holding_period};
ghost use Rattle.deal.specs.Terms.{terms_refusal};

use deal::terms::Terms;
use scaling::factor::TimeFactor;
use scaling::period::{guarantee_period, holding_period};

const NO_PERIOD: TimeFactor = TimeFactor {
    period: 0,
    millionths: 0,
};

#[derive(Clone, Copy, Debug, PartialEq, Eq)]
pub struct TimeFactors {
    // Of collateral and of the goods lent.
    pub deal: TimeFactor,
    // Of the currency haircut of guarantees.
    pub guarantees: TimeFactor,
}

// Terms, and the factors of their own periods.
#[derive(Clone, Copy, Debug, PartialEq, Eq)]
pub struct TimedTerms {
    pub terms: Terms,
    pub factors: TimeFactors,
    pub ghost deal_period: { factors.deal.period ≡ holding_period terms.kind terms.interval },
    pub ghost guarantee_period: { factors.guarantees.period ≡ guarantee_period terms.interval },
}

// Those of terms that opening a deal takes. A type of its own: what collateral and guarantees are worth is promised for refused terms, too.
#[derive(Clone, Copy, Debug, PartialEq, Eq)]
pub struct AcceptedTerms {
    pub timed: TimedTerms,
    pub ghost not_refused: { terms_refusal timed.terms ≡ 0 },
}

impl TimeFactors {
    // Of no period that a deal has.
    pub const NONE: TimeFactors = TimeFactors {
        deal: NO_PERIOD,
        guarantees: NO_PERIOD,
    };

    // The same, so that what their types promise is proved once.
    #[tactic(auto, using(scaling::proofs::Below::factor_none))]
    pub fn none() -> TimeFactors
        ensures { (result.deal.period ≡ 0) × (result.guarantees.period ≡ 0) }
    {
        TimeFactors::NONE
    }

    // Those of a deal, some of which may be at hand.
    #[tactic(auto, using(deal::proofs::Plain::plain_terms, scaling::proofs::Periods::period_bound, scaling::proofs::Periods::guarantee_bound))]
    pub fn for_terms(self, terms: Terms) -> AcceptedTerms
        requires { terms_refusal terms ≡ 0 }
        ensures { result.timed.terms ≡ terms }
    {
        let holding = holding_period(terms.kind, terms.interval);
        let guaranteed = guarantee_period(terms.interval);
        let factors = TimeFactors {
            deal: self.deal.for_period(holding),
            guarantees: self.guarantees.for_period(guaranteed),
        };
        let timed = TimedTerms { terms, factors };
        AcceptedTerms { timed }
    }
}
