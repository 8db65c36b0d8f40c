// A report's numbers, put into a lent list.
ghost use Rattle.std.specs.Prelude.{◌≤◌, ◌≡◌, length};
ghost use Rattle.base.specs.Writing.{overwrite};
ghost use Rattle.hadlephoga.specs.Reports.{collateral_numbers, guarantee_numbers, outcome_numbers, report_length, report_numbers};

use crate::lent::{Numbered, put_each, put_number, put_numbers};
use deal::deal::Deal;
use relief::collateral::CollateralReport;
use relief::guarantee::GuaranteeReport;
use relief::outcome::Outcome;
use relief::report::Report;

// The numbers of an item's outcome, and of a guarantee's with its portion.
const OUTCOME_WIDTH: usize = 6;

const GUARANTEE_REPORT_WIDTH: usize = OUTCOME_WIDTH + 1;

// The exposure, the places of both lists, the rest and the weighted amount.
pub const REPORT_LENGTH: usize = 1
    + Deal::COLLATERAL_LIMIT * OUTCOME_WIDTH
    + Deal::GUARANTEE_LIMIT * GUARANTEE_REPORT_WIDTH
    + 1
    + 1;

// The value, the ground's number, the losses and the amount left out.
fn outcome_numbers(outcome: Outcome) -> [u64; OUTCOME_WIDTH]
    ensures { result ≡ outcome_numbers outcome }
{
    let valuation = outcome.valuation();
    [
        valuation.value,
        outcome.ground_number(),
        valuation.haircut_loss,
        valuation.maturity_loss,
        valuation.cut_loss,
        outcome.left_out(),
    ]
}

impl Numbered for CollateralReport {
    ghost numbers = { collateral_numbers };

    fn put(self, list: &mut [u64], at: usize) -> usize {
        put_numbers(list, at, &outcome_numbers(self.outcome))
    }
}

// Its outcome, and its portion.
impl Numbered for GuaranteeReport {
    ghost numbers = { guarantee_numbers };

    fn put(self, list: &mut [u64], at: usize) -> usize {
        let next = put_numbers(list, at, &outcome_numbers(self.outcome));
        put_number(list, next, self.portion)
    }
}

// From the front of the list.
pub fn put_report(list: &mut [u64], report: Report)
    requires { report_length ≤ length list.old }
    ensures { list.new ≡ overwrite (report_numbers report) list.old }
{
    let next = put_number(list, 0, report.exposure);
    let pledged = report.collateral;
    let next = put_each(list, next, &pledged);
    let guaranteed = report.guarantees;
    let next = put_each(list, next, &guaranteed);
    let next = put_number(list, next, report.uncovered);
    put_number(list, next, report.rwa);
}
