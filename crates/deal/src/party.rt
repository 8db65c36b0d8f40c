// A rated party: the deal's counterparty, or the provider of a guarantee.
ghost use Rattle.std.specs.Prelude.{◌≡◌, if◌then◌else◌};
ghost use Rattle.deal.specs.Parties.{counterparty_known, party_step_allowed, party_steps_allowed, provider_known, sovereign_step_allowed};

use crate::ranges::LAST_STEP;
use tables::classes::{OTHER_ENTITY, RETAIL, SOVEREIGN};

#[derive(Clone, Copy, Debug, PartialEq, Eq)]
pub struct Party {
    pub class: u64,
    pub step: u64,
    // Of its sovereign of incorporation.
    pub sovereign_step: u64,
}

// Where a step has to be 0, and where any will do.
fn highest_step(zero: bool) -> u64
    ensures { result ≡ (if zero then 0 else 6) }
{
    if zero {
        return 0;
    }
    LAST_STEP
}

impl Party {
    // Whether its class is one of a counterparty.
    #[tactic(auto, unfolding(base::specs::Range::within))]
    pub fn counterparty_known(self) -> bool
        ensures { result ≡ counterparty_known self }
    {
        (SOVEREIGN..=RETAIL).contains(&self.class)
    }

    // Whether its class is one of a provider.
    #[tactic(auto, unfolding(base::specs::Range::within))]
    pub fn provider_known(self) -> bool
        ensures { result ≡ provider_known self }
    {
        (SOVEREIGN..=OTHER_ENTITY).contains(&self.class)
    }

    #[tactic(auto, using(crate::proofs::Steps::at_most_highest), unfolding(crate::specs::Parties::party_step_allowed))]
    fn step_allowed(self) -> bool
        ensures { result ≡ party_step_allowed self }
    {
        self.step <= highest_step(self.class == RETAIL)
    }

    #[tactic(auto, using(crate::proofs::Steps::at_most_highest), unfolding(crate::specs::Parties::sovereign_step_allowed))]
    fn sovereign_step_allowed(self) -> bool
        ensures { result ≡ sovereign_step_allowed self }
    {
        self.sovereign_step <= highest_step((self.class == SOVEREIGN) | (self.class == RETAIL))
    }

    #[tactic(auto, unfolding(crate::specs::Parties::party_steps_allowed))]
    // Its own step, and its sovereign's.
    pub fn steps_allowed(self) -> bool
        ensures { result ≡ party_steps_allowed self }
    {
        self.step_allowed() & self.sovereign_step_allowed()
    }
}
