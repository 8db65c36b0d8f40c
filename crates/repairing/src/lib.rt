// From a book that came by mail to what crmrepair writes.

#![tactic(auto)]

ghost use Rattle.std.specs.Prelude.{◌++◌, ◌≡◌, drop, length};
ghost use Rattle.mail.specs.Reply.{numbers_after};
ghost use Rattle.repairing.specs.Repairing.{book_written, notice_written};

use mail::repair_book;
use result::list::write_list;

#[derive(Clone, Copy, Debug, PartialEq, Eq)]
pub struct Lengths {
    // Of the repaired book.
    pub book: usize,
    // Of the notice: the numbers of the altered lines, or the refusal.
    pub notice: usize,
}

// What is written, each from the front of its buffer, and its length. Buffer and list have room for the longest book, and the notice for the
// numbers of as many lines as it has bytes.
pub fn respond(
    book: &[u8],
    buffer: &mut [u8; 65536],
    list: &mut [u64; 65536],
    notice: &mut [u8; 1376285],
) -> Lengths
    ensures book_printed { let text = book_written book.now in
        (result.book ≡ length text) × (buffer.new ≡ text ++ drop (length text) buffer.old) }
    ensures notice_printed { let text = notice_written book.now in
        (result.notice ≡ length text) × (notice.new ≡ text ++ drop (length text) notice.old) }
    ensures list_after { list.new ≡ numbers_after book.now 65536 list.old }
{
    match repair_book(book, buffer, list) {
        Ok(repaired) => Lengths {
            book: repaired.bytes,
            notice: write_list(0, repaired.lines, list, notice),
        },
        Err(refusal) => Lengths {
            book: 0,
            notice: write_list(refusal.number(), 0, list, notice),
        },
    }
}
