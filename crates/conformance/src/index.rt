// The books of the index, each in its turn.
ghost use Rattle.std.specs.Prelude.{◌≤◌, ◌≡◌, length};
ghost use Rattle.text.specs.Text.{lines_of};

use crate::run::run;
use std::rt::Files;
use text::line_end;

#[derive(Clone, Copy, Debug, PartialEq, Eq)]
pub struct Tally {
    pub books: u64,
    // Of these, those whose answer is missing or another.
    pub differ: u64,
}

// Each name ends in a line feed.
pub fn run_all(rt: &(impl Files + Print), names: &[u8]) -> Tally
    ensures { (result.books ≡ length (lines_of names.now)) × (result.differ ≤ result.books) }
{
    let mut books: u64 = 0;
    let mut differ: u64 = 0;
    // By what is left of the names: over any runtime the check refuses a `for` over `split_inclusive`.
    let mut left = names;
    while left.len() > 0 {
        let (line, others) = left.split_at(line_end(left, 0));
        if !run(rt, &line[..line.len() - 1]) {
            differ += 1;
        }
        books += 1;
        left = others;
    }
    Tally { books, differ }
}
