// From a book to the text of its result.

#![tactic(auto)]

ghost use Rattle.std.specs.Prelude.{◌++◌, ◌≡◌, drop, length};
ghost use Rattle.book.specs.Book.{results_after};
ghost use Rattle.response.specs.Response.{printed};

use book::answer::answer_book;
use result::write_result;

// What is printed for a book, from the front of a buffer, and its length. List and buffer have room for 2,048 deals.
pub fn respond(book: &[u8], results: &mut [u64; 8192], out: &mut [u8; 172061]) -> usize
    ensures text_printed { let text = printed book.now in
        (result ≡ length text) × (out.new ≡ text ++ drop (length text) out.old) }
    ensures results_after { results.new ≡ results_after book.now results.old }
{
    match answer_book(book, results) {
        Ok(deals) => write_result(0, deals, results, out),
        Err(refusal) => write_result(refusal.number(), 0, results, out),
    }
}
