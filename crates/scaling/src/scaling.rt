// Scaling a haircut by the square root of time.
ghost use Rattle.std.specs.Prelude.{false, ◌≡◌, ◌≤◌};
ghost use Rattle.scaling.specs.Scaling.{scaled, IsScaled};
ghost use Rattle.scaling.specs.Stored.{is_daily};

// More than any scaled haircut within the bounds of `scaled_haircut`.
const ABOVE_ALL: u64 = 16_777_216;

// The least h with 10 * h * h at or above haircut * haircut * period, by bisection: low is too small for it, and
// low + width is not. Rounding up keeps the relief from being too large. No root is taken for a period of daily revaluation.
pub fn scaled_haircut(haircut: u64, period: u64) -> u64
    requires haircut_bound { haircut ≤ 1000000 }
    requires period_bound { period ≤ 2000 }
    requires not_daily { is_daily period ≡ false }
    ensures value { result ≡ scaled haircut period }
    ensures least { IsScaled haircut period result }
{
    let target = haircut * haircut * period;
    if target == 0 {
        return 0;
    }
    let mut low: u64 = 0;
    let mut width: u64 = ABOVE_ALL;
    while width > 1 {
        let half = width / 2;
        let middle = low + half;
        if 10 * middle * middle < target {
            low = middle;
        }
        width -= half;
    }
    low + 1
}
