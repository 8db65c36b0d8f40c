// The refusals that fields meet, from the answers to their tests: terms and items share the order.
ghost use Rattle.std.specs.Prelude.{◌≡◌};
ghost use Rattle.base.specs.FirstMet.{first_met};
ghost use Rattle.deal.specs.Answers.{answer_number};
ghost use Rattle.deal.specs.Checks.{field_tests};

use crate::refusal::Refusal;

// Whether each kind of field is as it should be, in the order of the refusals.
#[derive(Clone, Copy, Debug, PartialEq, Eq)]
pub struct FieldChecks {
    pub amount: bool,
    // Class, kind, type and edition.
    pub codes: bool,
    pub steps: bool,
    pub currency: bool,
    // Interval, terms and issue life.
    pub ranges: bool,
    // The residual term is not above the original one.
    pub maturity: bool,
    pub conditions: bool,
}

impl FieldChecks {
    // The first refusal that is due.
    #[tactic(auto, unfolding(crate::specs::Answers::answer_number, crate::specs::Answers::refusal_number, base::specs::FirstMet::first_or))]
    pub fn answer(self) -> Result<(), Refusal>
        ensures { answer_number result ≡ first_met (field_tests self) }
    {
        if !self.amount {
            return Err(Refusal::AmountAboveLimit);
        }
        if !self.codes {
            return Err(Refusal::UnknownCode);
        }
        if !self.steps {
            return Err(Refusal::WrongStep);
        }
        if !self.currency {
            return Err(Refusal::WrongCurrency);
        }
        if !self.ranges {
            return Err(Refusal::OutsideRange);
        }
        if !self.maturity {
            return Err(Refusal::ResidualAboveOriginal);
        }
        if !self.conditions {
            return Err(Refusal::WrongCondition);
        }
        Ok(())
    }
}
