// The proved library for programs in other languages: answering a book, repairing one that came by mail, opening a deal, adding an item to
// it, reporting it, and netting a set of positions. Numbers and slices only, and nothing is asked of the caller's numbers: whatever they are, the answer is a figure or
// a refusal.

#![tactic(auto)]

ghost use Rattle.std.specs.Prelude.{◌≡◌, length};
ghost use Rattle.book.specs.Book.{book_reply, results_after};
ghost use Rattle.book.specs.Reply.{line_answer_number};
ghost use Rattle.mail.specs.Reply.{buffer_after, numbers_after, repair_reply};
ghost use Rattle.hadlephoga.specs.Layout.{layout};
ghost use Rattle.hadlephoga.specs.Netting.{netting_reply};
ghost use Rattle.hadlephoga.specs.Operations.{adding_collateral_refusal, adding_guarantee_refusal, adding_swap_refusal, list_opened, numbers_with_collateral, numbers_with_guarantee, numbers_with_swap, opening_refusal_of};
ghost use Rattle.hadlephoga.specs.Reports.{list_after, reporting_refusal};

mod adding;
mod lent;
mod opening;
mod record;
mod report;
mod sets;
mod writing;

use crate::sets::net_numbers;
use adding::{add_collateral, add_guarantee, add_swap};
use book::answer::answer_book;
use book::refusal::LineRefusal;
use mail::repair_book;
use opening::open_record;
use record::report_in;
use report::{REPORT_LENGTH, put_report};

// What lists of numbers are refused with, as C reads it: a wrong number of fields, and a lent list that is too short.
const MALFORMED: u64 = 11;

const LIST_TOO_SHORT: u64 = 13;

const LAYOUT: u64 = 4;

// The number that an answer is sent as: its refusal's, or 0.
#[tactic(auto, unfolding(book::specs::Reply::line_answer_number))]
fn number(answer: Result<(), LineRefusal>) -> u64
    ensures { result ≡ line_answer_number answer }
{
    match answer {
        Ok(()) => 0,
        Err(refusal) => refusal.number(),
    }
}

// The number of the layout of all lists of numbers below. A caller built for another one must not go on.
pub fn hadlephoga_layout() -> u64
    ensures { result ≡ layout }
{
    LAYOUT
}

// Answering a book: the refusal of the whole book or 0, the count of deals beside it, and four numbers a deal in the list.
pub fn hadlephoga_answer_book(book: &[u8], results: &mut [u64], deals: &mut u64) -> u64
    ensures value { result ≡ (book_reply book.now (length results.old)).refusal }
    ensures deals_after { deals.new ≡ (book_reply book.now (length results.old)).deals }
    ensures results_after { results.new ≡ results_after book.now results.old }
{
    match answer_book(book, results) {
        Ok(count) => {
            *deals = count as u64;
            0
        }
        Err(refusal) => {
            *deals = 0;
            refusal.number()
        }
    }
}

// Repairing a book that came by mail: the refusal or 0, both lengths beside it, the book's bytes in the buffer, and the numbers of its
// altered lines in the list.
pub fn hadlephoga_repair_book(
    book: &[u8],
    repaired: &mut [u8],
    altered: &mut [u64],
    bytes: &mut u64,
    lines: &mut u64,
) -> u64
    ensures value { result ≡ (repair_reply book.now (length repaired.old) (length altered.old)).refusal }
    ensures bytes_after { bytes.new ≡ (repair_reply book.now (length repaired.old) (length altered.old)).bytes }
    ensures lines_after { lines.new ≡ (repair_reply book.now (length repaired.old) (length altered.old)).lines }
    ensures repaired_after { repaired.new ≡ buffer_after book.now repaired.old (length altered.old) }
    ensures altered_after { altered.new ≡ numbers_after book.now (length repaired.old) altered.old }
{
    match repair_book(book, repaired, altered) {
        Ok(sizes) => {
            *bytes = sizes.bytes as u64;
            *lines = sizes.lines as u64;
            0
        }
        Err(refusal) => {
            *bytes = 0;
            *lines = 0;
            refusal.number()
        }
    }
}

// The reply to a netting set, six numbers and seven for each position: 11, the refusal or 0, with E* and the weighted amount beside it.
pub fn hadlephoga_net_set(set: &[u64], exposure: &mut u64, rwa: &mut u64) -> u64
    ensures value { result ≡ (netting_reply set.now).refusal }
    ensures exposure_after { exposure.new ≡ (netting_reply set.now).exposure }
    ensures rwa_after { rwa.new ≡ (netting_reply set.now).rwa }
{
    match net_numbers(set) {
        Ok(amounts) => {
            *exposure = amounts.exposure;
            *rwa = amounts.rwa;
            0
        }
        Err(refusal) => {
            *exposure = 0;
            *rwa = 0;
            refusal.number()
        }
    }
}

// Opening a deal: 13 where the list is too short for a record, otherwise 11, the refusal or 0, and the record's numbers in the list.
pub fn hadlephoga_open_deal(terms: &[u64], record: &mut [u64]) -> u64
    ensures value { result ≡ opening_refusal_of terms.now (length «record».old) }
    ensures record_after { «record».new ≡ list_opened terms.now «record».old }
{
    open_record(terms, record)
}

// Adding an item of collateral: 11, the refusal or 0; the record is changed only with 0.
pub fn hadlephoga_add_collateral(record: &mut [u64], item: &[u64]) -> u64
    ensures value { result ≡ adding_collateral_refusal «record».old item.now }
    ensures record_after { «record».new ≡ numbers_with_collateral «record».old item.now }
{
    number(add_collateral(record, item))
}

// Adding a guarantee, likewise.
pub fn hadlephoga_add_guarantee(record: &mut [u64], item: &[u64]) -> u64
    ensures value { result ≡ adding_guarantee_refusal «record».old item.now }
    ensures record_after { «record».new ≡ numbers_with_guarantee «record».old item.now }
{
    number(add_guarantee(record, item))
}

// Adding a swap, likewise: the numbers of a guarantee, and whether restructuring is a credit event.
pub fn hadlephoga_add_swap(record: &mut [u64], item: &[u64]) -> u64
    ensures value { result ≡ adding_swap_refusal «record».old item.now }
    ensures record_after { «record».new ≡ numbers_with_swap «record».old item.now }
{
    number(add_swap(record, item))
}

// Reporting a deal: 13 where the list is too short for a report, otherwise the refusal or 0, and the report's numbers in the list.
pub fn hadlephoga_report_deal(numbers: &[u64], report: &mut [u64]) -> u64
    ensures value { result ≡ reporting_refusal numbers.now (length report.old) }
    ensures report_after { report.new ≡ list_after numbers.now report.old }
{
    if report.len() < REPORT_LENGTH {
        return LIST_TOO_SHORT;
    }
    let reported = report_in(numbers);
    put_report(report, reported);
    // Of a deal's refusal, where `number` is of a line's.
    match reported.answer {
        Ok(()) => 0,
        Err(refusal) => refusal.number(),
    }
}
