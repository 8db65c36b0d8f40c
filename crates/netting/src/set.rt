// A netting set, and the reply to it.
ghost use Rattle.std.specs.Prelude.{◌≡◌, IfErr, IfOk};
ghost use Rattle.netting.specs.Refusals.{set_refusal};
ghost use Rattle.netting.specs.Reply.{OwnRefusal, positions_of, reply_sent, set_answer_number, set_reply};

use crate::accepted::AcceptedSet;
use crate::exposure::weight_of;
use crate::position::Position;
use crate::refusal::{SetRefusal, check_fields, check_together};
use crate::terms::SetTerms;
use valuation::exposure::risk_weighted_amount;

// A set by value, with no heap: the counted positions stand first. One that says it has more than there are places for is refused.
#[derive(Clone, Copy, Debug, PartialEq, Eq)]
pub struct NettingSet {
    pub terms: SetTerms,
    pub positions: [Position; NettingSet::POSITION_LIMIT],
    pub count: usize,
}

#[derive(Clone, Copy, Debug, PartialEq, Eq)]
pub struct NettingAmounts {
    // The exposure after netting, E*.
    pub exposure: u64,
    // The risk-weighted amount.
    pub rwa: u64,
}

impl NettingSet {
    pub const POSITION_LIMIT: usize = 32;

    // The most business days between revaluations.
    pub const INTERVAL_LIMIT: u64 = 60;

    // The highest number of a security.
    pub const SECURITY_LIMIT: u64 = 999;

    // The set as it is netted, or the first refusal that is due.
    fn accepted(&self) -> Result<AcceptedSet<'_>, SetRefusal>
        ensures refusal { set_answer_number result ≡ set_refusal self.now.terms self.now.count (positions_of self.now) }
        ensures own_refusal { IfErr result OwnRefusal }
        ensures same { IfOk result (λ set. (set.terms ≡ self.now.terms) × (set.positions.now ≡ positions_of self.now)) }
    {
        self.terms.check()?;
        if self.count > NettingSet::POSITION_LIMIT {
            return Err(SetRefusal::SetFull);
        }
        let positions = &self.positions[..self.count];
        check_fields(positions)?;
        check_together(positions)?;
        Ok(AcceptedSet::new(self.terms, positions))
    }

    // E* and the weighted amount of the set, or its refusal.
    pub fn reply(self) -> Result<NettingAmounts, SetRefusal>
        ensures sent { reply_sent result ≡ set_reply self }
        ensures own_refusal { IfErr result OwnRefusal }
    {
        let set = self.accepted()?;
        let exposure = set.exposure_after_netting();
        Ok(NettingAmounts {
            exposure,
            rwa: risk_weighted_amount(exposure * weight_of(self.terms)),
        })
    }
}
