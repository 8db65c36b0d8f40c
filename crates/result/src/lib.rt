// The text of a book's result, written into a buffer that the caller lends (01: The book).

#![tactic(auto)]

ghost use Rattle.std.specs.Prelude.{◌≡◌, ◌++◌, length, drop};
ghost use Rattle.result.specs.Result.{written};

mod buffer;
pub mod list;
mod number;
mod refusal;
mod rows;

use buffer::put_bytes;
use refusal::{LONGEST_REFUSAL, put_refusal};
use rows::put_rows;

// The longest line of a deal: four numbers of 20 digits with a byte behind each.
const LONGEST_ROW: usize = 84;

// The text of a book's result, from the front of a lent buffer, and its length. The refusal is a number, as replies send it; any is written.
// A count beside the list, as `written` takes both, also where the list is too short.
pub fn write_result(refusal: u64, deals: usize, results: &[u64], out: &mut [u8]) -> usize
    ensures { let text = written refusal deals results.now (length out.old) in
        (result ≡ length text) × (out.new ≡ text ++ drop (length text) out.old) }
{
    if out.len() < LONGEST_REFUSAL {
        return 0;
    }
    if (out.len() - LONGEST_REFUSAL) / LONGEST_ROW < deals {
        return 0;
    }
    if results.len() / 4 < deals {
        return 0;
    }
    if refusal == 0 {
        let start = put_bytes(out, 0, b"RESULT\t1\n");
        return put_rows(out, start, results, deals);
    }
    put_refusal(out, refusal)
}
