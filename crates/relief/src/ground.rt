// Why protection is left out.
ghost use Rattle.std.specs.Prelude.{◌≡◌};
ghost use Rattle.relief.specs.Grounds.{ground_number};

#[derive(Clone, Copy, Debug, PartialEq, Eq)]
pub enum Ground {
    NotLawful,
    Related,
    AlreadyInRating,
    NotEligible,
    ShortOriginalTerm,
    ShortResidualTerm,
    NotDirect,
    UnratedEntity,
    WeightNotBelow,
}

impl Ground {
    // A method and no `From`: docs/TRACE.md names it, and what it gives is a definition's number.
    #[tactic(auto, unfolding(crate::specs::Grounds::ground_number))]
    pub fn number(self) -> u64
        ensures { result ≡ ground_number self }
    {
        match self {
            Ground::NotLawful => 21,
            Ground::Related => 22,
            Ground::AlreadyInRating => 23,
            Ground::NotEligible => 24,
            Ground::ShortOriginalTerm => 25,
            Ground::ShortResidualTerm => 26,
            Ground::NotDirect => 27,
            Ground::UnratedEntity => 28,
            Ground::WeightNotBelow => 29,
        }
    }
}
