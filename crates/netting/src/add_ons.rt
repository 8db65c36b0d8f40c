// Absolute nets times haircuts, in millionths.
ghost use Rattle.std.specs.Prelude.{◌≡◌, ◌≤◌, ◌*◌, ℕ, nat_abs};
ghost use Rattle.netting.specs.Groups.{member};
ghost use Rattle.netting.specs.Nets.{net as net_of};
ghost use Rattle.netting.specs.Exposure.{currency_add_on, currency_figure, security_add_on, security_figure};
ghost use Rattle.netting.specs.Haircuts.{currency_haircut_over, security_haircut};
ghost use Rattle.netting.specs.Once.{sum_once};

use crate::accepted::AcceptedSet;
use crate::group::Group;
use crate::nets::net;
use crate::position::Position;
use signed::absolute;

// A figure summed once for each number: a position counts where no later one has its number.
fn sum_once<N: Fn(&Position) -> u64, F: Fn(&Position) -> u64>(
    positions: &[Position],
    number: N,
    figure: F,
) -> u64
    ghost of: { (Position → ℕ) × (Position → ℕ) }
    requires number_callable { N.IsAlwaysCallable number }
    requires figure_callable { F.IsAlwaysCallable figure }
    requires number_is { (p : _) (r : ℕ) → N.post number p r → r ≡ of.0 p.now }
    requires figure_is { (p : _) (r : ℕ) → F.post figure p r → r ≡ of.1 p.now }
    requires small { sum_once of.0 of.1 positions.now ≤ 1000000000000000000 }
    ensures { result ≡ sum_once of.0 of.1 positions.now }
{
    let mut sum = 0;
    let mut later = positions;
    while let Some((position, rest)) = later.split_first() {
        let its = number(position);
        if !rest.iter().any(|p| number(p) == its) {
            sum += figure(position);
        }
        later = rest;
    }
    sum
}

impl AcceptedSet<'_> {
    // The absolute net of a group, times a haircut.
    fn weighed_net(&self, group: Group, haircut: u64) -> u64
        requires { haircut ≤ 1000000 }
        ensures { result ≡ nat_abs (net_of (member group) self.now.positions.now) * haircut }
    {
        absolute(net(self.positions, group)) * haircut
    }

    // What a position's security adds, where it counts.
    #[tactic(auto, unfolding(crate::specs::Exposure::security_figure))]
    fn security_figure(&self, position: &Position) -> u64
        ensures { result ≡ security_figure (security_haircut self.now.terms) self.now.positions.now position.now }
    {
        if position.security == 0 {
            return 0;
        }
        self.weighed_net(
            Group::Security(position.security),
            self.security_haircut(position),
        )
    }

    // What a position's currency adds, where it counts.
    #[tactic(auto, unfolding(crate::specs::Exposure::currency_figure))]
    fn currency_figure(&self, position: &Position) -> u64
        ensures { result ≡ currency_figure self.now.terms.settlement (currency_haircut_over self.now.terms) self.now.positions.now position.now }
    {
        if position.currency == self.terms.settlement {
            return 0;
        }
        self.weighed_net(Group::Currency(position.currency), self.currency_haircut())
    }

    // The figures of all securities.
    pub fn security_add_on(&self) -> u64
        ensures { (result ≡ security_add_on (security_haircut self.now.terms) self.now.positions.now) × (result ≤ 1000000000000000000) }
    {
        sum_once(self.positions, |p| p.security, |p| self.security_figure(p))
    }

    // The figures of all currencies.
    pub fn currency_add_on(&self) -> u64
        ensures { (result ≡ currency_add_on self.now.terms.settlement (currency_haircut_over self.now.terms) self.now.positions.now) × (result ≤ 1000000000000000000) }
    {
        sum_once(self.positions, |p| p.currency, |p| self.currency_figure(p))
    }
}
