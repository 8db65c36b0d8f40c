// Answering a book.
ghost use Rattle.std.specs.Prelude.{◌≡◌, false, ◌*◌, ◌+◌, ◌≤◌, length};
ghost use Rattle.text.specs.Text.{lines_of};
ghost use Rattle.book.specs.Answers.{answers_from};
ghost use Rattle.book.specs.Book.{book_reply, results_after};
ghost use Rattle.base.specs.Writing.{overwrite};
ghost use Rattle.book.specs.Deals.{deals_from};
ghost use Rattle.book.specs.Reply.{reply_sent};
ghost use Rattle.book.specs.Start.{own_first};

use crate::reading::answer_deal;
use crate::reply::{BookRefusal, examine};
use crate::results::put_answer;
use relief::factors::TimeFactors;

// The answers to the deals among the lines of a book headed by this edition, from the front of the list. By a place: the next deal starts
// where this one's lines end.
fn answer_deals(edition: u64, lines: &[u8], results: &mut [u64])
    requires { (own_first lines.now ≡ false) × ((2 + length lines.now ≤ 65536) × (4 * length (deals_from 2 (lines_of lines.now)) ≤ length results.old)) }
    ensures { results.new ≡ overwrite (answers_from edition 1 (deals_from 2 (lines_of lines.now))) results.old }
{
    let mut at: usize = 0;
    let mut number: u64 = 2;
    let mut factors = TimeFactors::none();
    let mut deals: usize = 0;
    while at < lines.len() {
        let answered = answer_deal(edition, &lines[at..], number, factors);
        let result = answered.result;
        put_answer(results, deals * 4, deals as u64 + 1, result.answer);
        at += result.end;
        number = result.next;
        factors = answered.factors;
        deals += 1;
    }
}

// Answering a book: four numbers a deal, from the front of the list, which stays as it was where the book is refused.
pub fn answer_book(book: &[u8], results: &mut [u64]) -> Result<usize, BookRefusal>
    ensures { (reply_sent result ≡ book_reply book.now (length results.old)) × (results.new ≡ results_after book.now results.old) }
{
    let found = examine(book, results.len())?;
    answer_deals(found.edition, &book[found.start..], results);
    Ok(found.deals)
}
