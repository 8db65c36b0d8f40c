// A record's numbers, put into a lent list.
ghost use Rattle.std.specs.Prelude.{◌≤◌, ◌≡◌, length};
ghost use Rattle.base.specs.Writing.{overwrite};
ghost use Rattle.deal.specs.Fields.{collateral_fields, guarantee_fields};
ghost use Rattle.hadlephoga.specs.Records.{deal_numbers, record_length};

use crate::lent::{Numbered, put_each, put_number, put_numbers};
use deal::collateral::Collateral;
use deal::deal::Deal;
use deal::fields::{collateral_fields, guarantee_fields, terms_fields};
use deal::guarantee::Guarantee;

impl Numbered for Collateral {
    ghost numbers = { collateral_fields };

    fn put(self, list: &mut [u64], at: usize) -> usize {
        put_numbers(list, at, &collateral_fields(self))
    }
}

impl Numbered for Guarantee {
    ghost numbers = { guarantee_fields };

    fn put(self, list: &mut [u64], at: usize) -> usize {
        put_numbers(list, at, &guarantee_fields(self))
    }
}

// From the front of the list.
pub fn put_record(list: &mut [u64], deal: Deal)
    requires { record_length ≤ length list.old }
    ensures { list.new ≡ overwrite (deal_numbers deal) list.old }
{
    let next = put_numbers(list, 0, &terms_fields(deal.terms));
    let pledged = deal.collateral;
    let next = put_number(list, next, pledged.count as u64);
    let next = put_each(list, next, &pledged.items);
    let guaranteed = deal.guarantees;
    let next = put_number(list, next, guaranteed.count as u64);
    put_each(list, next, &guaranteed.items);
}
