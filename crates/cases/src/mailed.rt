// A book that came by mail, repaired by the operation and by the program crmrepair.
use crate::front::BYTES;
use crate::show::{self, number, sum, text};

// What a byte of the second buffer holds before it is written.
const BYTE_MARK: u8 = 238;

// Room for more lines than the longest book can have altered.
const LINES: usize = 32_800;

// What crmrepair lends: for the longest book, and for the numbers of as many lines as it has bytes.
const BOOK: usize = 65_536;

const NOTICE: usize = 1_376_285;

// The second buffer and the list are shown whole.
fn repaired(rt: &impl Print, book: &[u8], buffer: &mut [u8], list: &mut [u64]) {
    let mut bytes = show::MARK;
    let mut lines = show::MARK;
    let refusal = hadlephoga::hadlephoga_repair_book(book, buffer, list, &mut bytes, &mut lines);
    number(rt, "=", refusal);
    number(rt, "", bytes);
    number(rt, "", lines);
    number(rt, " of", book.len() as u64);
    text(rt, " bytes buffer");
    show::written(rt, buffer, bytes);
    text(rt, " lines");
    show::written(rt, list, lines);
    text(rt, "\n");
}

// A book, repaired into a buffer of so many bytes and a list of so many places.
pub fn repair(rt: &impl Print, book: &[u8], room: u64, places: u64) {
    let mut buffer = [BYTE_MARK; BYTES];
    let mut list = [show::MARK; LINES];
    let second = BYTES.min(room as usize);
    let lent = LINES.min(places as usize);
    repaired(rt, book, &mut buffer[..second], &mut list[..lent]);
}

// What the program crmrepair writes for a book: the book, and the notice of its altered lines or of the refusal.
pub fn notice(rt: &impl Print, book: &[u8]) {
    let mut buffer = [0u8; BOOK];
    let mut list = [0u64; BOOK];
    let mut notice = [0u8; NOTICE];
    let lengths = repairing::respond(book, &mut buffer, &mut list, &mut notice);
    number(rt, "= written", lengths.book as u64);
    number(rt, " sum", sum(&buffer[..lengths.book]));
    number(rt, " notice", lengths.notice as u64);
    number(rt, " sum", sum(&notice[..lengths.notice]));
    number(rt, " of", book.len() as u64);
    text(rt, " bytes\n");
}
