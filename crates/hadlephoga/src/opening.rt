// Opening a deal on numbers.
ghost use Rattle.std.specs.Prelude.{◌≡◌, IfOk, length};
ghost use Rattle.base.specs.FirstMet.{first_met};
ghost use Rattle.book.specs.Reply.{line_answer_number};
ghost use Rattle.hadlephoga.specs.Operations.{list_opened, opened_numbers, opening_refusal_of, opening_tests};
ghost use Rattle.hadlephoga.specs.Records.{deal_numbers};

use crate::LIST_TOO_SHORT;
use crate::record::RECORD_LENGTH;
use crate::writing::put_record;
use book::refusal::LineRefusal;
use deal::deal::{Deal, without_protection};
use deal::fields::{TERMS_WIDTH, terms_in};
use deal::terms::Terms;

// The deal that these numbers open, as those of a line do.
fn opened_on(terms: &[u64]) -> Result<Deal, LineRefusal>
    ensures refusal { line_answer_number result ≡ first_met (opening_tests terms.now) }
    ensures opened { IfOk result (λ deal. deal_numbers deal ≡ opened_numbers terms.now) }
{
    if terms.len() != TERMS_WIDTH {
        return Err(LineRefusal::Malformed);
    }
    Ok(Deal::open(terms_in(terms))?)
}

// The number itself, and no `Result`: a record of zeros stands beside a refusal, and the list too short leaves it as it was (`list_opened`).
pub fn open_record(terms: &[u64], record: &mut [u64]) -> u64
    ensures value { result ≡ opening_refusal_of terms.now (length «record».old) }
    ensures record_after { «record».new ≡ list_opened terms.now «record».old }
{
    if record.len() < RECORD_LENGTH {
        return LIST_TOO_SHORT;
    }
    match opened_on(terms) {
        Ok(deal) => {
            put_record(record, deal);
            0
        }
        Err(refusal) => {
            let deal = without_protection(Terms::ZERO);
            put_record(record, deal);
            refusal.number()
        }
    }
}
