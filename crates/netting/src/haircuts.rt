// Haircuts over a set's holding period.
ghost use Rattle.std.specs.Prelude.{◌≡◌, ◌≤◌};
ghost use Rattle.netting.specs.Haircuts.{currency_haircut_over, security_haircut, set_period};

use crate::accepted::AcceptedSet;
use crate::position::Position;
use crate::terms::SetTerms;
use scaling::factor::TimeFactor;
use scaling::period::holding_period;
use tables::editions::lent_haircut_under;
use tables::haircuts::CURRENCY;
use tables::kinds::REPO_STYLE;

// The time factor of the set's period: its minimum is that of repo-style transactions.
#[tactic(auto, using(crate::proofs::HaircutBounds::repo_period, scaling::proofs::Periods::period_bound))]
pub fn factor_of(terms: SetTerms) -> TimeFactor
    requires { (1 ≤ terms.interval) × (terms.interval ≤ 60) }
    ensures { result.period ≡ set_period terms }
{
    TimeFactor::of_period(holding_period(REPO_STYLE, terms.interval))
}

// The haircut of a position's security. Goods that are not eligible can only have been lent.
pub fn security_haircut(terms: SetTerms, factor: TimeFactor, position: &Position) -> u64
    requires { factor.period ≡ set_period terms }
    ensures { result ≡ security_haircut terms position.now }
{
    let asset = position.asset;
    factor.scale(lent_haircut_under(terms.table, asset.goods, asset.step, asset.life))
}

// The haircut of currencies other than settlement.
pub fn currency_haircut(terms: SetTerms, factor: TimeFactor) -> u64
    requires { factor.period ≡ set_period terms }
    ensures { result ≡ currency_haircut_over terms }
{
    factor.scale(CURRENCY)
}

// Both of a set: its days are few, so neither is above the whole.
impl AcceptedSet<'_> {
    pub fn security_haircut(&self, position: &Position) -> u64
        ensures { (result ≡ security_haircut self.now.terms position.now) × (result ≤ 1000000) }
    {
        security_haircut(self.terms, self.factor, position)
    }

    pub fn currency_haircut(&self) -> u64
        ensures { (result ≡ currency_haircut_over self.now.terms) × (result ≤ 1000000) }
    {
        currency_haircut(self.terms, self.factor)
    }
}
