// The text of a refusal.
ghost use Rattle.std.specs.Prelude.{◌≤◌, length};
ghost use Rattle.base.specs.Writing.{Placed};
ghost use Rattle.result.specs.Result.{refused_text};

use crate::buffer::put_bytes;
use crate::rows::put_field;
use text::LINE_FEED;

// The longest one: REFUSED, a tab, 20 digits and a line feed.
pub const LONGEST_REFUSAL: usize = 29;

// It stands alone, from the front of the buffer.
pub fn put_refusal(out: &mut [u8], refusal: u64) -> usize
    requires { 29 ≤ length out.old }
    ensures { Placed 0 (refused_text refusal) out.old out.new result }
{
    let start = put_bytes(out, 0, b"REFUSED\t");
    put_field(out, start, refusal, LINE_FEED)
}
