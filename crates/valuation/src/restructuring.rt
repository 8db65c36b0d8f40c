// The amount of a swap that counts where restructuring is no credit event.
ghost use Rattle.std.specs.Prelude.{◌≡◌, ◌≤◌};
ghost use Rattle.valuation.specs.Restructuring.{partially_recognised as partially_recognised_of};

// Percent of the amount that is hedged.
const HEDGED: u64 = 60;

// Rounded down; no more of a swap than the deal's amount is hedged.
#[tactic(auto, unfolding(crate::specs::Restructuring::partially_recognised))]
pub fn partially_recognised(amount: u64, deal_amount: u64) -> u64
    requires { amount ≤ 1000000000000 }
    ensures { result ≡ partially_recognised_of amount deal_amount }
{
    amount.min(deal_amount) * HEDGED / 100
}
