// Repairing a book that came by mail (02: L14): a first pass measures what it becomes, a second one writes it.

#![tactic(auto)]

ghost use Rattle.mail.specs.Reply.{RepairOutcome, refusal_number, reply_sent};
ghost use Rattle.std.specs.Prelude.{◌≡◌};

mod measure;
mod place;
mod write;

use measure::measure;
use text::BOOK_LIMIT;
use write::write;

#[derive(Clone, Copy, Debug, PartialEq, Eq)]
pub enum RepairRefusal {
    TooLong,
    BufferTooShort,
    ListTooShort,
}

impl RepairRefusal {
    // As replies send it. A method and no `From`: docs/TRACE.md names it, and what it gives is a definition's number.
    #[tactic(auto, unfolding(crate::specs::Reply::refusal_number))]
    pub fn number(self) -> u64
        ensures { result ≡ refusal_number self }
    {
        match self {
            RepairRefusal::TooLong => 10,
            RepairRefusal::BufferTooShort => 20,
            RepairRefusal::ListTooShort => 41,
        }
    }
}

#[derive(Clone, Copy, Debug, PartialEq, Eq)]
pub struct Repaired {
    // How many bytes the repaired book has.
    pub bytes: usize,
    // How many lines were altered.
    pub lines: usize,
}

// A mailed book, repaired into the buffer, with the numbers of the altered lines in the list. Both stay as they were where it is refused.
pub fn repair_book(
    book: &[u8],
    buffer: &mut [u8],
    list: &mut [u64],
) -> Result<Repaired, RepairRefusal>
    ensures { RepairOutcome book.now buffer.old list.old (reply_sent result) buffer.new list.new }
{
    if book.len() > BOOK_LIMIT {
        return Err(RepairRefusal::TooLong);
    }
    let sizes = measure(book);
    let bytes = book.len() - sizes.dropped;
    if buffer.len() < bytes {
        return Err(RepairRefusal::BufferTooShort);
    }
    if list.len() < sizes.lines {
        return Err(RepairRefusal::ListTooShort);
    }
    write(book, buffer, list, sizes);
    let lines = sizes.lines;
    Ok(Repaired { bytes, lines })
}
