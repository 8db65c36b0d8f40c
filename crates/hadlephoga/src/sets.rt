// A netting set from numbers, and the reply to it.
ghost use Rattle.std.specs.Prelude.{IfErr, map, ◌≡◌, ◌*◌, ◌≤◌, length, take};
ghost use Rattle.netting.specs.Fields.{position_in, position_width};
ghost use Rattle.hadlephoga.specs.Netting.{OwnNumbersRefusal, netting_reply, numbers_refusal_number, numbers_sent};
ghost use Rattle.hadlephoga.specs.Records.{slices};
ghost use Rattle.hadlephoga.specs.declared.sets.NumbersRefusal.TheVariants.{Set};

use crate::MALFORMED;
use netting::fields::{POSITION_WIDTH, SET_TERMS_WIDTH, position_in, set_terms_in};
use netting::position::Position;
use netting::refusal::SetRefusal;
use netting::set::{NettingAmounts, NettingSet};
use std::array;

// What numbers are refused for as a netting set.
#[derive(Clone, Copy, Debug, PartialEq, Eq)]
pub enum NumbersRefusal {
    // One is missing, or one too many.
    Malformed,
    Set(SetRefusal),
}

impl NumbersRefusal {
    // A method and no `From`: docs/TRACE.md names it, and what it gives is a definition's number.
    #[tactic(auto, unfolding(crate::specs::Netting::numbers_refusal_number))]
    pub fn number(self) -> u64
        ensures { result ≡ numbers_refusal_number self }
    {
        match self {
            NumbersRefusal::Malformed => MALFORMED,
            NumbersRefusal::Set(refusal) => refusal.number(),
        }
    }
}

impl From<SetRefusal> for NumbersRefusal {
    ghost from_gives = { λ refusal result. result ≡ Set refusal };

    fn from(refusal: SetRefusal) -> NumbersRefusal {
        NumbersRefusal::Set(refusal)
    }
}

// So many positions, from the front; zeros behind them. Of more than there are places for none is read: such a set is refused,
// whatever they are. The count goes along, as the set holds it.
fn positions_in(numbers: &[u64], count: usize) -> [Position; NettingSet::POSITION_LIMIT]
    requires { count * position_width ≤ length numbers.now }
    ensures { count ≤ 32 → take count result ≡ map position_in (slices position_width count numbers.now) }
{
    if count > NettingSet::POSITION_LIMIT {
        return [Position::ZERO; NettingSet::POSITION_LIMIT];
    }
    array::from_fn(|i| {
        if i < count {
            let at = i * POSITION_WIDTH;
            position_in(&numbers[at..at + POSITION_WIDTH])
        } else {
            Position::ZERO
        }
    })
}

// The reply to the set that these numbers are.
pub fn net_numbers(numbers: &[u64]) -> Result<NettingAmounts, NumbersRefusal>
    ensures sent { numbers_sent result ≡ netting_reply numbers.now }
    ensures own_refusal { IfErr result OwnNumbersRefusal }
{
    if numbers.len() < SET_TERMS_WIDTH {
        return Err(NumbersRefusal::Malformed);
    }
    let positions = &numbers[SET_TERMS_WIDTH..];
    if positions.len() % POSITION_WIDTH != 0 {
        return Err(NumbersRefusal::Malformed);
    }
    let count = positions.len() / POSITION_WIDTH;
    let set = NettingSet {
        terms: set_terms_in(numbers),
        positions: positions_in(positions, count),
        count,
    };
    Ok(set.reply()?)
}
