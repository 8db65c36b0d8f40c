// The value of recognised protection, and where the rest of its amount went: the amount less its haircuts, adjusted for a maturity mismatch.
ghost use Rattle.std.specs.Prelude.{◌≡◌, ◌≤◌};
ghost use Rattle.valuation.specs.Protection.{keep_share, volatility_adjusted_value as volatility_adjusted_value_of, maturity_adjusted as maturity_adjusted_of};
ghost use Rattle.valuation.specs.Valuation.{valuation_of};

const WHOLE: u64 = 1_000_000;

// Days: three months, and five years.
const SHORTEST: u64 = 90;

const LONGEST: u64 = 1_800;

// What the haircuts leave of the whole.
#[tactic(auto, unfolding(crate::specs::Protection::keep_share))]
fn keep_share(haircut: u64) -> u64
    ensures { result ≡ keep_share haircut }
{
    WHOLE.saturating_sub(haircut)
}

// The amount after haircuts, rounded down.
#[tactic(auto, unfolding(crate::specs::Protection::volatility_adjusted_value, crate::specs::Protection::keep_share))]
fn volatility_adjusted_value(amount: u64, haircut: u64) -> u64
    requires { amount ≤ 1000000000000 }
    ensures { result ≡ volatility_adjusted_value_of amount haircut }
{
    let share = keep_share(haircut);
    amount * share / WHOLE
}

// The value where cover ends before the deal's term, rounded down again; unchanged where it does not.
#[tactic(auto, unfolding(crate::specs::Protection::maturity_adjusted, crate::specs::Protection::mismatched))]
fn maturity_adjusted(value: u64, cover: u64, term: u64) -> u64
    requires { value ≤ 1000000000000 }
    ensures { result ≡ maturity_adjusted_of value cover term }
{
    if cover >= term {
        return value;
    }
    if cover <= SHORTEST {
        return 0;
    }
    let deal_term = term.min(LONGEST);
    let cover_term = deal_term.min(cover);
    value * (cover_term - SHORTEST) / (deal_term - SHORTEST)
}

// What an item is worth, and what each step took of the amount that was sent. They add up to it.
#[derive(Clone, Copy, Debug, PartialEq, Eq)]
pub struct Valuation {
    pub value: u64,
    pub haircut_loss: u64,
    pub maturity_loss: u64,
    // Of a swap for which restructuring is no credit event.
    pub cut_loss: u64,
}

impl Valuation {
    // Where there is no item, and of one that is left out.
    pub const NONE: Valuation = Valuation {
        value: 0,
        haircut_loss: 0,
        maturity_loss: 0,
        cut_loss: 0,
    };

    // Of an item that no ground leaves out, and of whose amount so much is not cut.
    #[tactic(auto, using(crate::proofs::Values::adjusted_value_le, crate::proofs::Values::maturity_adjusted_le), unfolding(crate::specs::Valuation::valuation_of, crate::specs::Protection::recognised))]
    pub fn of(amount: u64, uncut: u64, haircut: u64, cover: u64, term: u64) -> Valuation
        requires amount_bound { amount ≤ 1000000000000 }
        requires uncut_le_amount { uncut ≤ amount }
        ensures { result ≡ valuation_of amount uncut haircut cover term }
    {
        let adjusted = volatility_adjusted_value(uncut, haircut);
        let value = maturity_adjusted(adjusted, cover, term);
        let haircut_loss = uncut - adjusted;
        let maturity_loss = adjusted - value;
        let cut_loss = amount - uncut;
        Valuation {
            value,
            haircut_loss,
            maturity_loss,
            cut_loss,
        }
    }
}
