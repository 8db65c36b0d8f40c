// A set whose figures can be worked out.
ghost use Rattle.std.specs.Prelude.{◌≡◌};
ghost use Rattle.netting.specs.Haircuts.{set_period};
ghost use Rattle.netting.specs.Limits.{Fitting};

use crate::haircuts::factor_of;
use crate::position::Position;
use crate::terms::SetTerms;
use scaling::factor::TimeFactor;

// What is netted: terms and positions whose days and amounts fit, and the time factor of the set's period. A set that nothing refuses has
// both; the figures ask no more than these, so that nothing is refused is no part of it.
#[derive(Clone, Copy)]
pub struct AcceptedSet<'a> {
    pub terms: SetTerms,
    pub positions: &'a [Position],
    pub factor: TimeFactor,
    ghost fitting: { Fitting terms positions.now },
    ghost of_its_period: { factor.period ≡ set_period terms },
}

impl<'a> AcceptedSet<'a> {
    pub fn new(terms: SetTerms, positions: &'a [Position]) -> AcceptedSet<'a>
        requires { Fitting terms positions.now }
        ensures { (result.terms ≡ terms) × (result.positions.now ≡ positions.now) }
    {
        AcceptedSet {
            terms,
            positions,
            factor: factor_of(terms),
        }
    }
}
