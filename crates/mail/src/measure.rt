// The sizes of what a book is repaired to.
ghost use Rattle.std.specs.Prelude.{◌≤◌, ◌<◌, ◌≡◌, length};
ghost use Rattle.mail.specs.Feeds.{plus_if};
ghost use Rattle.text.specs.Text.{line_feed};
ghost use Rattle.mail.specs.Working.{BytePassed, FourBefore, Measured, Measuring, byte_before};

use crate::place::{Place, SPACE, no_feed_in_four, past_byte, past_feed};
use text::LINE_FEED;

#[derive(Clone, Copy, Debug, PartialEq, Eq)]
pub struct Sizes {
    // Bytes that are dropped.
    pub dropped: usize,
    // Altered lines.
    pub lines: usize,
    // Line feeds.
    pub feeds: usize,
}

// What was found behind a place; its own line is not among the altered ones yet.
#[derive(Clone, Copy, Debug, PartialEq, Eq)]
struct Passed {
    place: Place,
    sizes: Sizes,
}

fn one_more(n: usize, more: bool) -> usize
    requires { n ≤ 65536 }
    ensures { result ≡ plus_if more n }
{
    n + usize::from(more)
}

// Over a byte that is no line feed.
fn pass_byte(b: u8, passed: Passed) -> Passed
    requires { (0 < passed.place.at) × (passed.sizes.dropped ≤ 65536) }
    ensures { BytePassed b passed.place passed.sizes result.place result.sizes }
{
    let place = passed.place;
    let sizes = passed.sizes;
    Passed {
        place: past_byte(b, place),
        sizes: Sizes {
            dropped: one_more(sizes.dropped, (b == SPACE) & place.space),
            lines: sizes.lines,
            feeds: sizes.feeds,
        },
    }
}

// Over a line feed, and the carriage returns in front of it. The book goes along with what is passed, as `Measuring` is said of both.
fn pass_feed(book: &[u8], passed: Passed) -> Passed
    requires { (0 < passed.place.at) × ((byte_before book.now passed.place ≡ line_feed) × Measuring book.now passed.place passed.sizes) }
    ensures { (result.place.at < passed.place.at) × Measuring book.now result.place result.sizes }
{
    let place = passed.place;
    let sizes = passed.sizes;
    let last = place.at - 1;
    let next = past_feed(book, place);
    let returns = last - next.at;
    let dropped = sizes.dropped + returns;
    let lines = one_more(sizes.lines, place.altered);
    let feeds = sizes.feeds + 1;
    Passed {
        place: next,
        sizes: Sizes {
            dropped,
            lines,
            feeds,
        },
    }
}

// Over four bytes, none of them a line feed, so that they share one turn of the loop.
fn pass_four(book: &[u8], passed: Passed) -> Passed
    requires { FourBefore book.now passed.place × Measuring book.now passed.place passed.sizes }
    ensures { (result.place.at < passed.place.at) × Measuring book.now result.place result.sizes }
{
    let at = passed.place.at;
    let first = book[at - 1];
    let second = book[at - 2];
    let third = book[at - 3];
    let fourth = book[at - 4];
    let one = pass_byte(first, passed);
    let two = pass_byte(second, one);
    let three = pass_byte(third, two);
    pass_byte(fourth, three)
}

// One step back, or four.
fn pass(book: &[u8], passed: Passed) -> Passed
    requires { (0 < passed.place.at) × Measuring book.now passed.place passed.sizes }
    ensures { (result.place.at < passed.place.at) × Measuring book.now result.place result.sizes }
{
    let at = passed.place.at;
    if no_feed_in_four(book, at) {
        return pass_four(book, passed);
    }
    let last = at - 1;
    let b = book[last];
    if b == LINE_FEED {
        return pass_feed(book, passed);
    }
    pass_byte(b, passed)
}

// By a place, from the end: a turn passes one byte, four of them, or a run of carriage returns with its line feed.
pub fn measure(book: &[u8]) -> Sizes
    requires { length book.now ≤ 65536 }
    ensures { Measured book.now result }
{
    let mut passed = Passed {
        place: Place {
            at: book.len(),
            space: false,
            altered: false,
        },
        sizes: Sizes {
            dropped: 0,
            lines: 0,
            feeds: 0,
        },
    };
    while passed.place.at > 0 {
        passed = pass(book, passed);
    }
    Sizes {
        dropped: passed.sizes.dropped,
        lines: one_more(passed.sizes.lines, passed.place.altered),
        feeds: passed.sizes.feeds,
    }
}
