// The text of a list of numbers, written into a buffer that the caller lends (02: L14).
ghost use Rattle.std.specs.Prelude.{◌≡◌, ◌++◌, ◌+◌, ◌*◌, ◌≤◌, length, drop};
ghost use Rattle.base.specs.Writing.{Placed};
ghost use Rattle.result.specs.List.{number_lines, list_written};

use crate::refusal::{LONGEST_REFUSAL, put_refusal};
use crate::rows::put_field;
use text::LINE_FEED;

// The longest line of a number: 20 digits and a line feed.
const LONGEST_LINE: usize = 21;

// The lines of so many numbers, one behind the other. A count beside the list, as `number_lines` takes both.
fn put_numbers(out: &mut [u8], at: usize, numbers: &[u64], count: usize) -> usize
    requires { (count ≤ length numbers.now) × (at + 21 * count ≤ length out.old) }
    ensures { Placed at (number_lines count numbers.now) out.old out.new result }
{
    let mut place = at;
    for number in &numbers[..count] {
        place = put_field(out, place, *number, LINE_FEED);
    }
    place
}

// The text of a list's numbers, one a line, or of a refusal, from the front of a lent buffer, and its length. The refusal is a number, as replies
// send it; any is written. A count beside the list, as `list_written` takes both, also where the list is too short.
pub fn write_list(refusal: u64, count: usize, numbers: &[u64], out: &mut [u8]) -> usize
    ensures { let text = list_written refusal count numbers.now (length out.old) in
        (result ≡ length text) × (out.new ≡ text ++ drop (length text) out.old) }
{
    if out.len() < LONGEST_REFUSAL {
        return 0;
    }
    if (out.len() - LONGEST_REFUSAL) / LONGEST_LINE < count {
        return 0;
    }
    if numbers.len() < count {
        return 0;
    }
    if refusal == 0 {
        return put_numbers(out, 0, numbers, count);
    }
    put_refusal(out, refusal)
}
