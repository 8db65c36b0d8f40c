// Printing replies and lists. What cannot be written is left out.
ghost use Rattle.std.specs.Prelude.{◌≤◌, length};

use deal::deal::Deal;
use deal::fields::{COLLATERAL_WIDTH, GUARANTEE_WIDTH, TERMS_WIDTH};
use std::fmt::Display;

// What a place holds before it is written.
pub const MARK: u64 = 77_777;

// The parts of a record: the terms, and either list behind its count.
const COLLATERAL: usize = Deal::COLLATERAL_LIMIT * COLLATERAL_WIDTH;

const GUARANTEES: usize = Deal::GUARANTEE_LIMIT * GUARANTEE_WIDTH;

pub const RECORD_LENGTH: usize = TERMS_WIDTH + 1 + COLLATERAL + 1 + GUARANTEES;

// Of an item of collateral a report has the value, the ground, three losses and the amount left out, of a guarantee the portion too.
const OUTCOME_WIDTH: usize = 6;

const COVER_WIDTH: usize = OUTCOME_WIDTH + 1;

const OUTCOMES: usize = Deal::COLLATERAL_LIMIT * OUTCOME_WIDTH;

const COVERS: usize = Deal::GUARANTEE_LIMIT * COVER_WIDTH;

// With places behind the report, which reporting does not write.
pub const REPORT_PLACES: usize = 1 + OUTCOMES + COVERS + 6;

pub fn text(rt: &impl Print, text: &str) {
    let _ = rt.print(text);
}

// A number, behind this label and a space.
pub fn number(rt: &impl Print, label: &str, value: u64) {
    let _ = print!(rt; "{label} {value}");
}

// A row that stands so many times.
fn row<T: Display>(rt: &impl Print, row: &[T], times: u64) {
    if times == 0 {
        return;
    }
    text(rt, " |");
    for value in row {
        let _ = print!(rt; " {value}");
    }
    if times > 1 {
        number(rt, " times", times);
    }
}

// Rows of so many numbers, the last one perhaps of fewer; rows that are the same are shown once.
fn rows<T: Display + PartialEq>(rt: &impl Print, list: &[T], width: usize)
    requires { 1 ≤ width }
{
    let mut last: &[T] = &[];
    let mut times: u64 = 0;
    for chunk in list.chunks(width) {
        if chunk != last {
            row(rt, last, times);
            last = chunk;
            times = 0;
        }
        times = times.wrapping_add(1);
    }
    row(rt, last, times);
}

// The first so many places in rows, as far as the list goes; what stands behind them.
fn part<'a, T: Display + PartialEq>(
    rt: &impl Print,
    list: &'a [T],
    places: usize,
    width: usize,
) -> &'a [T]
    requires { 1 ≤ width }
{
    let (front, rest) = list.split_at(places.min(list.len()));
    rows(rt, front, width);
    rest
}

// A refusal, and the record: terms, either list behind its count, and what stands behind the record.
pub fn record(rt: &impl Print, refusal: u64, list: &[u64]) {
    number(rt, "=", refusal);
    let rest = part(rt, list, TERMS_WIDTH, TERMS_WIDTH);
    let rest = part(rt, rest, 1, 1);
    let rest = part(rt, rest, COLLATERAL, COLLATERAL_WIDTH);
    let rest = part(rt, rest, 1, 1);
    let rest = part(rt, rest, GUARANTEES, GUARANTEE_WIDTH);
    rows(rt, rest, 1);
    text(rt, "\n");
}

// A refusal, and the report: E*, collateral, guarantees, the rest, the weighted amount, and what stands behind them.
pub fn report(rt: &impl Print, refusal: u64, list: &[u64]) {
    number(rt, "=", refusal);
    let rest = part(rt, list, 1, 1);
    let rest = part(rt, rest, OUTCOMES, OUTCOME_WIDTH);
    let rest = part(rt, rest, COVERS, COVER_WIDTH);
    let rest = part(rt, rest, 1, 1);
    let rest = part(rt, rest, 1, 1);
    rows(rt, rest, 1);
    text(rt, "\n");
}

// A number that depends on every place and on their order.
pub fn sum<T: Copy + Into<u64>>(list: &[T]) -> u64 {
    let mut sum: u64 = 0;
    for value in list {
        let value: u64 = (*value).into();
        sum = sum % 1_000_000_007 * 31 + value % 1_000_000_007;
    }
    sum
}

// The ends of a long list, and what tells it from any other.
fn ends<T: Copy + Display + PartialEq + Into<u64>>(rt: &impl Print, list: &[T], width: usize)
    requires { (8 ≤ length list.now) × (1 ≤ width) }
{
    let places = list.len();
    rows(rt, &list[..8], width);
    text(rt, " ..");
    rows(rt, &list[places - 8..], width);
    number(rt, " | places", places as u64);
    number(rt, " sum", sum(list));
}

// A results list, four numbers to a deal; of a long one the ends.
pub fn results(rt: &impl Print, list: &[u64]) {
    if list.len() <= 40 {
        rows(rt, list, 4);
    } else {
        ends(rt, list, 4);
    }
    text(rt, "\n");
}

// A list of which so many places are written: these, and what stands behind them; of a long one the ends.
pub fn written<T: Copy + Display + PartialEq + Into<u64>>(rt: &impl Print, list: &[T], count: u64) {
    if list.len() <= 40 {
        let rest = part(rt, list, count as usize, 8);
        rows(rt, rest, 1);
    } else {
        ends(rt, list, 8);
    }
}
