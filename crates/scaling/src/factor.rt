// Haircuts scaled to one holding period. For the periods of daily revaluation they are stored. For any other the whole is scaled once, by
// bisection; it tells within a unit or two where any other scaled haircut lies.
ghost use Rattle.std.specs.Prelude.{false, ◌&&◌, ◌≡◌, ◌≤◌};
ghost use Rattle.scaling.specs.Scaling.{scaled};
ghost use Rattle.scaling.specs.Stored.{is_daily, is_stored};

use crate::scaling::scaled_haircut;
use crate::stored::{is_daily, over, stored_line, stored_whole};

const WHOLE: u64 = 1_000_000;

// The square-root-of-time factor of a holding period.
#[derive(Clone, Copy, Debug, PartialEq, Eq)]
pub struct TimeFactor {
    pub period: u64,
    // The whole scaled to the period, the square root of period / 10 in millionths, rounded up.
    pub millionths: u64,
    // None is above 269. There is room for more, so that terms that are refused, too, have both their factors wherever they had one.
    pub ghost short: { period ≤ 2000 },
    pub ghost scaled_millionths: { millionths ≡ scaled 1000000 period },
}

impl TimeFactor {
    pub fn of_period(period: u64) -> TimeFactor
        requires { period ≤ 2000 }
        ensures { result.period ≡ period }
    {
        let millionths = if is_daily(period) {
            stored_whole(period)
        } else {
            scaled_haircut(WHOLE, period)
        };
        TimeFactor { period, millionths }
    }

    // The factor of a period, which may be the one at hand.
    pub fn for_period(self, period: u64) -> TimeFactor
        requires { period ≤ 2000 }
        ensures { result.period ≡ period }
    {
        if self.period == period {
            return self;
        }
        TimeFactor::of_period(period)
    }

    // A haircut scaled to the period.
    #[tactic(auto, using(crate::proofs::StoredFigures::taken))]
    pub fn scale(self, haircut: u64) -> u64
        requires { haircut ≤ 1000000 }
        ensures { result ≡ scaled haircut self.period }
    {
        if is_daily(self.period) {
            if let Some(figures) = stored_line(haircut) {
                return over(self.period, figures);
            }
        }
        self.work_out(haircut)
    }

    // What is stored is not worked out.
    fn work_out(self, haircut: u64) -> u64
        requires small { haircut ≤ 1000000 }
        requires not_stored { (is_daily self.period && is_stored haircut) ≡ false }
        ensures { result ≡ scaled haircut self.period }
    {
        let target = haircut * haircut * self.period;
        if target == 0 {
            return 0;
        }
        // The scaled whole less 1 is below the factor, so its share of the haircut is too small. A search from there, of a step or two.
        let mut h = haircut * (self.millionths - 1) / WHOLE + 1;
        while 10 * h * h < target {
            h += 1;
        }
        h
    }
}
