// The exposure after netting, and the counterparty's weight.
ghost use Rattle.std.specs.Prelude.{◌≡◌, ◌≤◌};
ghost use Rattle.netting.specs.Exposure.{exposure_after_netting, exposure_of};
ghost use Rattle.netting.specs.Reply.{set_weight};
ghost use Rattle.netting.specs.Terms.{set_terms_refusal};

use crate::accepted::AcceptedSet;
use crate::group::Group;
use crate::nets::{lent_total, net};
use crate::terms::SetTerms;
use signed::rounded_up;
use tables::editions::counterparty_weight_under;

impl AcceptedSet<'_> {
    // In millionths, with its sign: more may have been received than was lent.
    fn exposure(&self) -> i64
        ensures { result ≡ exposure_of self.now.terms self.now.positions.now }
    {
        let add_ons = self.security_add_on() + self.currency_add_on();
        net(self.positions, Group::All) * 1_000_000 + add_ons as i64
    }

    // E*: rounded up once, not below 0, and not above all that was lent.
    pub fn exposure_after_netting(&self) -> u64
        ensures { (result ≡ exposure_after_netting self.now.terms self.now.positions.now) × (result ≤ 1000000000000) }
    {
        let rounded = rounded_up(self.exposure());
        if rounded < 0 {
            return 0;
        }
        lent_total(self.positions).min(rounded as u64)
    }
}

// The counterparty's weight, under the set's own tables.
pub fn weight_of(terms: SetTerms) -> u64
    requires { set_terms_refusal terms ≡ 0 }
    ensures { (result ≡ set_weight terms) × (result ≤ 150) }
{
    let counterparty = terms.counterparty;
    counterparty_weight_under(
        terms.table,
        counterparty.class,
        counterparty.step,
        counterparty.sovereign_step,
    )
}
