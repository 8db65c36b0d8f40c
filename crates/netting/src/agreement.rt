// Whether the entries for one security agree.
ghost use Rattle.std.specs.Prelude.{◌≡◌};
ghost use Rattle.base.specs.Any.{any_two};
ghost use Rattle.netting.specs.Refusals.{disagree as disagree_of, same_goods};

use crate::position::Position;

// Whether type, step, life and currency are the same.
fn same_goods(p: &Position, q: &Position) -> bool
    ensures { result ≡ same_goods p.now q.now }
{
    p.asset == q.asset && p.currency == q.currency
}

// Whether two entries are for one security and yet differ.
#[tactic(auto, unfolding(crate::specs::Refusals::disagree))]
fn disagree(p: &Position, q: &Position) -> bool
    ensures { result ≡ disagree_of p.now q.now }
{
    p.security == q.security && p.security != 0 && !same_goods(p, q)
}

// Whether any two disagree.
pub fn any_disagree(positions: &[Position]) -> bool
    ensures { result ≡ any_two positions.now disagree_of }
{
    let mut later = positions;
    while let Some((position, rest)) = later.split_first() {
        if rest.iter().any(|p| disagree(position, p)) {
            return true;
        }
        later = rest;
    }
    false
}
