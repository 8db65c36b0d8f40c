// The lines of deals.
ghost use Rattle.std.specs.Prelude.{◌∷◌, [], ◌++◌, ◌+◌, ◌*◌, ◌≤◌, length, get_or};
ghost use Rattle.result.specs.Numbers.{number_text};
ghost use Rattle.base.specs.Writing.{Placed};
ghost use Rattle.result.specs.Result.{row, rows};

use crate::buffer::put_byte;
use crate::number::put_number;
use text::{LINE_FEED, TAB};

// A number, and the byte that ends it.
#[tactic(auto, using(crate::proofs::Digits::number_short))]
pub fn put_field(out: &mut [u8], at: usize, n: u64, last: u8) -> usize
    requires { at + 21 ≤ length out.old }
    ensures { Placed at (number_text n ++ last ∷ []) out.old out.new result }
{
    let end = put_number(out, at, n);
    put_byte(out, end, last)
}

// The line of a deal, of its four numbers.
#[tactic(auto, using(crate::proofs::Lines::field_short))]
fn put_row(out: &mut [u8], at: usize, numbers: &[u64; 4]) -> usize
    requires { at + 84 ≤ length out.old }
    ensures { Placed at (row (get_or numbers.now 0 0) (get_or numbers.now 1 0) (get_or numbers.now 2 0) (get_or numbers.now 3 0))
        out.old out.new result }
{
    let second = put_field(out, at, numbers[0], TAB);
    let third = put_field(out, second, numbers[1], TAB);
    let fourth = put_field(out, third, numbers[2], TAB);
    put_field(out, fourth, numbers[3], LINE_FEED)
}

// The lines of so many deals, one behind the other. A count beside the list, as `rows` takes both.
pub fn put_rows(out: &mut [u8], at: usize, results: &[u64], deals: usize) -> usize
    requires { (4 * deals ≤ length results.now) × (at + 84 * deals ≤ length out.old) }
    ensures { Placed at (rows deals results.now) out.old out.new result }
{
    let mut place = at;
    let (of_deals, _) = results.as_chunks::<4>();
    for numbers in &of_deals[..deals] {
        place = put_row(out, place, numbers);
    }
    place
}
