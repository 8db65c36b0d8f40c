// Why an operation on a deal is refused.
ghost use Rattle.std.specs.Prelude.{◌≡◌};
ghost use Rattle.deal.specs.Answers.{refusal_number};

#[derive(Clone, Copy, Debug, PartialEq, Eq)]
pub enum Refusal {
    AmountAboveLimit,
    UnknownCode,
    WrongStep,
    WrongCurrency,
    OutsideRange,
    ListFull,
    ResidualAboveOriginal,
    WrongCondition,
    RecordNotAccepted,
}

impl Refusal {
    // A method and no `From`: docs/TRACE.md names it, and what it gives is a definition's number.
    #[tactic(auto, unfolding(crate::specs::Answers::refusal_number))]
    pub fn number(self) -> u64
        ensures { result ≡ refusal_number self }
    {
        match self {
            Refusal::AmountAboveLimit => 1,
            Refusal::UnknownCode => 2,
            Refusal::WrongStep => 3,
            Refusal::WrongCurrency => 4,
            Refusal::OutsideRange => 5,
            Refusal::ListFull => 6,
            Refusal::ResidualAboveOriginal => 7,
            Refusal::WrongCondition => 8,
            Refusal::RecordNotAccepted => 40,
        }
    }
}
