// The ranges of the fields that deals and items share.
ghost use Rattle.std.specs.Prelude.{◌≡◌};
ghost use Rattle.deal.specs.Ranges.{amount_allowed, currency_allowed, days_allowed, days_limit, interval_allowed, step_allowed, condition_allowed};

use crate::deal::Deal;

const LAST_CURRENCY: u64 = 999;

const LONGEST_INTERVAL: u64 = 250;

pub const LAST_STEP: u64 = 6;

// Of a deal or of an item.
pub fn amount_allowed(amount: u64) -> bool
    ensures { result ≡ amount_allowed amount }
{
    amount <= Deal::AMOUNT_LIMIT
}

// An ISO 4217 number.
#[tactic(auto, unfolding(base::specs::Range::within))]
pub fn currency_allowed(currency: u64) -> bool
    ensures { result ≡ currency_allowed currency }
{
    (1..=LAST_CURRENCY).contains(&currency)
}

// Days of life or cover.
#[tactic(auto, unfolding(base::specs::Range::within))]
pub fn days_allowed(days: u64) -> bool
    ensures { result ≡ days_allowed days_limit days }
{
    (1..=Deal::DAYS_LIMIT).contains(&days)
}

// Business days between revaluations.
#[tactic(auto, unfolding(base::specs::Range::within))]
pub fn interval_allowed(interval: u64) -> bool
    ensures { result ≡ interval_allowed interval }
{
    (1..=LONGEST_INTERVAL).contains(&interval)
}

// A rating step, 0 for none.
pub fn step_allowed(step: u64) -> bool
    ensures { result ≡ step_allowed step }
{
    step <= LAST_STEP
}

// Met or not met.
pub fn condition_allowed(condition: u64) -> bool
    ensures { result ≡ condition_allowed condition }
{
    condition <= 1
}
