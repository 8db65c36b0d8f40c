// Adding an item to a record of numbers.
ghost use Rattle.std.specs.Prelude.{◌≡◌, eqb, length, [], ◌∷◌, not, IfOk, if◌then◌else◌};
ghost use Rattle.base.specs.FirstMet.{◌when◌, first_met};
ghost use Rattle.deal.specs.Answers.{answer_number};
ghost use Rattle.book.specs.Reply.{line_answer_number};
ghost use Rattle.hadlephoga.specs.Operations.{adding_collateral_refusal, adding_guarantee_refusal, adding_swap_refusal, numbers_with_collateral, numbers_with_guarantee, numbers_with_swap};
ghost use Rattle.hadlephoga.specs.Records.{deal_in, deal_numbers, record_length};

use crate::record::{RECORD_LENGTH, deal_in};
use crate::writing::put_record;
use book::refusal::LineRefusal;
use deal::deal::Deal;
use deal::fields::{
    COLLATERAL_WIDTH, SENT_GUARANTEE_WIDTH, SENT_SWAP_WIDTH, collateral_in, guarantee_sent,
};
use deal::list::Added;
use deal::refusal::Refusal;

// The deal to which an item of so many numbers is added.
fn deal_for(numbers: &[u64], item: &[u64], width: usize) -> Result<Deal, LineRefusal>
    ensures refusal { line_answer_number result ≡ first_met (11 when not (eqb (length item.now) width) ∷ 40 when not (eqb (length numbers.now) record_length) ∷ []) }
    ensures read { IfOk result (λ deal. (deal ≡ deal_in numbers.now) × ((length item.now ≡ width) × (length numbers.now ≡ record_length))) }
{
    if item.len() != width {
        return Err(LineRefusal::Malformed);
    }
    if numbers.len() != RECORD_LENGTH {
        return Err(LineRefusal::Refused(Refusal::RecordNotAccepted));
    }
    Ok(deal_in(numbers))
}

// The deal is put where nothing was refused.
fn put_reply(numbers: &mut [u64], reply: Added<Deal>) -> Result<(), LineRefusal>
    requires { length numbers.old ≡ record_length }
    ensures value { line_answer_number result ≡ answer_number reply.answer }
    ensures numbers_after { numbers.new ≡ (if eqb (answer_number reply.answer) 0 then deal_numbers reply.after else numbers.old) }
{
    reply.answer?;
    let deal = reply.after;
    put_record(numbers, deal);
    Ok(())
}

pub fn add_collateral(numbers: &mut [u64], item: &[u64]) -> Result<(), LineRefusal>
    ensures value { line_answer_number result ≡ adding_collateral_refusal numbers.old item.now }
    ensures numbers_after { numbers.new ≡ numbers_with_collateral numbers.old item.now }
{
    let deal = deal_for(numbers, item, COLLATERAL_WIDTH)?;
    put_reply(numbers, deal.add_collateral(collateral_in(item)))
}

pub fn add_guarantee(numbers: &mut [u64], item: &[u64]) -> Result<(), LineRefusal>
    ensures value { line_answer_number result ≡ adding_guarantee_refusal numbers.old item.now }
    ensures numbers_after { numbers.new ≡ numbers_with_guarantee numbers.old item.now }
{
    let deal = deal_for(numbers, item, SENT_GUARANTEE_WIDTH)?;
    put_reply(numbers, deal.add_guarantee(guarantee_sent(item)))
}

pub fn add_swap(numbers: &mut [u64], item: &[u64]) -> Result<(), LineRefusal>
    ensures value { line_answer_number result ≡ adding_swap_refusal numbers.old item.now }
    ensures numbers_after { numbers.new ≡ numbers_with_swap numbers.old item.now }
{
    let deal = deal_for(numbers, item, SENT_SWAP_WIDTH)?;
    let restructuring = item[SENT_GUARANTEE_WIDTH];
    put_reply(numbers, deal.add_swap(guarantee_sent(item), restructuring))
}
