// What a book as a whole is refused for, and what is found in one that is not.
ghost use Rattle.std.specs.Prelude.{◌≡◌, IfOk, drop, length};
ghost use Rattle.text.specs.Text.{first_line};
ghost use Rattle.book.specs.Book.{book_edition, book_refusal, deals_of};
ghost use Rattle.book.specs.Reply.{book_answer_number, book_refusal_number};

use crate::deals::count_deals;
use crate::heading::read_heading;
use crate::reading::own_line;
use text::{BOOK_LIMIT, line_end};

#[derive(Clone, Copy, Debug, PartialEq, Eq)]
pub enum BookRefusal {
    WrongHeading,
    TooLong,
    NoDealFirst,
    ListTooShort,
}

impl BookRefusal {
    // A method and no `From`: docs/TRACE.md names it, and what it gives is a definition's number.
    #[tactic(auto, unfolding(crate::specs::Reply::book_refusal_number))]
    pub fn number(self) -> u64
        ensures { result ≡ book_refusal_number self }
    {
        match self {
            BookRefusal::WrongHeading => 9,
            BookRefusal::TooLong => 10,
            BookRefusal::NoDealFirst => 12,
            BookRefusal::ListTooShort => 13,
        }
    }
}

// What a book holds that is answered.
#[derive(Clone, Copy, Debug, PartialEq, Eq)]
pub struct Contents {
    pub edition: u64,
    // Where its first deal starts.
    pub start: usize,
    pub deals: usize,
}

// What a book holds, for a results list with so many places.
pub fn examine(book: &[u8], places: usize) -> Result<Contents, BookRefusal>
    ensures refusal { book_answer_number result ≡ book_refusal book.now places }
    ensures found { IfOk result (λ c. (c.edition ≡ book_edition book.now) × ((c.start ≡ length (first_line book.now)) × (c.deals ≡ length (deals_of book.now)))) }
{
    if book.len() > BOOK_LIMIT {
        return Err(BookRefusal::TooLong);
    }
    let start = line_end(book, 0);
    let Some(edition) = read_heading(&book[..start]) else {
        return Err(BookRefusal::WrongHeading);
    };
    if own_line(book, start) {
        return Err(BookRefusal::NoDealFirst);
    }
    let deals = count_deals(&book[start..]);
    if places / 4 < deals {
        return Err(BookRefusal::ListTooShort);
    }
    Ok(Contents {
        edition,
        start,
        deals,
    })
}
