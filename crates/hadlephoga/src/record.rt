// A deal's record from numbers.
ghost use Rattle.std.specs.Prelude.{◌≡◌, map, length};
ghost use Rattle.deal.specs.Fields.{collateral_in, collateral_width, guarantee_in, guarantee_width};
ghost use Rattle.deal.specs.Lists.{list_limit};
ghost use Rattle.hadlephoga.specs.Records.{collateral_length, deal_in, guarantees_length, slices, record_length};
ghost use Rattle.hadlephoga.specs.Reports.{report_in};

use deal::collateral::{Collateral, CollateralList};
use deal::deal::Deal;
use deal::fields::{
    COLLATERAL_WIDTH, GUARANTEE_WIDTH, TERMS_WIDTH, collateral_in, guarantee_in, terms_in,
};
use deal::guarantee::{Guarantee, GuaranteeList};
use relief::report::Report;
use std::array;

// The numbers of a list's places.
const COLLATERAL_LENGTH: usize = Deal::COLLATERAL_LIMIT * COLLATERAL_WIDTH;

const GUARANTEES_LENGTH: usize = Deal::GUARANTEE_LIMIT * GUARANTEE_WIDTH;

// Where the parts stand: the terms, and behind them each list's count and places.
const COLLATERAL_COUNT: usize = TERMS_WIDTH;

const FIRST_COLLATERAL: usize = COLLATERAL_COUNT + 1;

const GUARANTEE_COUNT: usize = FIRST_COLLATERAL + COLLATERAL_LENGTH;

const FIRST_GUARANTEE: usize = GUARANTEE_COUNT + 1;

pub const RECORD_LENGTH: usize = FIRST_GUARANTEE + GUARANTEES_LENGTH;

// A function for each list: no generic one can hand out an array of a type parameter.
fn collateral_items(numbers: &[u64]) -> [Collateral; Deal::COLLATERAL_LIMIT]
    requires { length numbers.now ≡ collateral_length }
    ensures { result ≡ map collateral_in (slices collateral_width list_limit numbers.now) }
{
    array::from_fn(|i| {
        let at = i * COLLATERAL_WIDTH;
        collateral_in(&numbers[at..at + COLLATERAL_WIDTH])
    })
}

fn guarantee_items(numbers: &[u64]) -> [Guarantee; Deal::GUARANTEE_LIMIT]
    requires { length numbers.now ≡ guarantees_length }
    ensures { result ≡ map guarantee_in (slices guarantee_width list_limit numbers.now) }
{
    array::from_fn(|i| {
        let at = i * GUARANTEE_WIDTH;
        guarantee_in(&numbers[at..at + GUARANTEE_WIDTH])
    })
}

pub fn deal_in(numbers: &[u64]) -> Deal
    requires { length numbers.now ≡ record_length }
    ensures { result ≡ deal_in numbers.now }
{
    Deal {
        terms: terms_in(&numbers[..TERMS_WIDTH]),
        collateral: CollateralList {
            items: collateral_items(&numbers[FIRST_COLLATERAL..GUARANTEE_COUNT]),
            count: numbers[COLLATERAL_COUNT] as usize,
        },
        guarantees: GuaranteeList {
            items: guarantee_items(&numbers[FIRST_GUARANTEE..]),
            count: numbers[GUARANTEE_COUNT] as usize,
        },
    }
}

// The report of the record that these numbers are; where they are no record, the reply to a record that is not accepted.
#[tactic(auto, unfolding(crate::specs::Reports::report_in))]
pub fn report_in(numbers: &[u64]) -> Report
    ensures { result ≡ report_in numbers.now }
{
    if numbers.len() != RECORD_LENGTH {
        return relief::report::refused();
    }
    Report::of(deal_in(numbers))
}
