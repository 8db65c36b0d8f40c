// The operations, on a record and on a book.
use crate::show::{self, number, sum, text};

// With places behind the record, which no operation writes.
pub const PLACES: usize = show::RECORD_LENGTH + 4;

// Room for the deals of the longest book.
const RESULTS: usize = 87_380;

// Room for what is printed for 2,048 deals.
const TEXT: usize = 172_061;

// Opening, or adding: lends so many places, and shows all places.
pub fn change<F: FnOnce(&mut [u64]) -> u64>(
    rt: &impl Print,
    record: &mut [u64; PLACES],
    places: u64,
    operation: F,
)
    requires { F.IsAlwaysCallable operation }
{
    let lent = PLACES.min(places as usize);
    let refusal = operation(&mut record[..lent]);
    show::record(rt, refusal, record);
}

// So many places of the record, reported into so many places.
pub fn report(rt: &impl Print, record: &[u64; PLACES], places: u64, room: u64) {
    let mut list = [show::MARK; show::REPORT_PLACES];
    let lent = PLACES.min(places as usize);
    let into = show::REPORT_PLACES.min(room as usize);
    let refusal = hadlephoga::hadlephoga_report_deal(&record[..lent], &mut list[..into]);
    show::report(rt, refusal, &list[..into]);
}

// Writes the numbers behind the first one, from the place on that it names.
pub fn set(record: &mut [u64; PLACES], numbers: &[u64]) {
    let Some((place, values)) = numbers.split_first() else {
        return;
    };
    let place = PLACES.min(*place as usize);
    for (k, value) in values.iter().enumerate() {
        record[(place + k).min(PLACES - 1)] = *value;
    }
}

// A book, answered into so many places.
pub fn answer(rt: &impl Print, book: &[u8], places: u64) {
    let mut list = [show::MARK; RESULTS];
    let mut deals = show::MARK;
    let lent = RESULTS.min(places as usize);
    let refusal = hadlephoga::hadlephoga_answer_book(book, &mut list[..lent], &mut deals);
    number(rt, "=", refusal);
    number(rt, "", deals);
    number(rt, " of", book.len() as u64);
    text(rt, " bytes");
    show::results(rt, &list[..lent]);
}

// What the program crmbook prints for a book.
pub fn print(rt: &impl Print, book: &[u8]) {
    let mut results = [show::MARK; 8192];
    let mut out = [0u8; TEXT];
    let printed = response::respond(book, &mut results, &mut out);
    number(rt, "= printed", printed as u64);
    number(rt, " sum", sum(&out[..printed]));
    number(rt, " of", book.len() as u64);
    text(rt, " bytes\n");
}
