// What a netting set is refused for.
ghost use Rattle.std.specs.Prelude.{◌≡◌, ◌≤◌, length};
ghost use Rattle.base.specs.FirstMet.{first_met};
ghost use Rattle.deal.specs.declared.refusal.Refusal.{Refusal};
ghost use Rattle.netting.specs.Positions.{fields_of_each};
ghost use Rattle.netting.specs.Refusals.{tests_over_all};
ghost use Rattle.netting.specs.Reply.{set_answer_number, set_refusal_number};
ghost use Rattle.netting.specs.declared.refusal.SetRefusal.TheVariants.{Field};

use crate::agreement::any_disagree;
use crate::amounts::{any_not_eligible, total};
use crate::position::Position;
use deal::deal::Deal;
use deal::refusal::Refusal;

#[derive(Clone, Copy, Debug, PartialEq, Eq)]
pub enum SetRefusal {
    // What a field of the terms or of a position is refused for.
    Field(Refusal),
    SetFull,
    SecurityDisagrees,
    NotEligible,
    AmountsAboveLimit,
}

impl SetRefusal {
    // A method and no `From`: docs/TRACE.md names it, and what it gives is a definition's number.
    #[tactic(auto, unfolding(crate::specs::Reply::set_refusal_number))]
    pub fn number(self) -> u64
        ensures { result ≡ set_refusal_number self }
    {
        match self {
            SetRefusal::Field(refusal) => refusal.number(),
            SetRefusal::SetFull => 6,
            SetRefusal::SecurityDisagrees => 15,
            SetRefusal::NotEligible => 16,
            SetRefusal::AmountsAboveLimit => 17,
        }
    }
}

impl From<Refusal> for SetRefusal {
    ghost from_gives = { λ refusal result. result ≡ Field refusal };

    fn from(refusal: Refusal) -> SetRefusal {
        SetRefusal::Field(refusal)
    }
}

// The first that the positions' own fields meet, position by position.
pub fn check_fields(positions: &[Position]) -> Result<(), SetRefusal>
    ensures { set_answer_number result ≡ first_met (fields_of_each positions.now) }
{
    for position in positions {
        position.check()?;
    }
    Ok(())
}

// The first that all positions together meet.
#[tactic(auto, unfolding(crate::specs::Refusals::tests_over_all, crate::specs::Reply::set_answer_number, crate::specs::Reply::set_refusal_number, base::specs::FirstMet::first_or))]
pub fn check_together(positions: &[Position]) -> Result<(), SetRefusal>
    requires few { length positions.now ≤ 32 }
    requires positions_value { first_met (fields_of_each positions.now) ≡ 0 }
    ensures { set_answer_number result ≡ first_met (tests_over_all positions.now) }
{
    if any_disagree(positions) {
        return Err(SetRefusal::SecurityDisagrees);
    }
    if any_not_eligible(positions) {
        return Err(SetRefusal::NotEligible);
    }
    if total(positions) > Deal::AMOUNT_LIMIT {
        return Err(SetRefusal::AmountsAboveLimit);
    }
    Ok(())
}
