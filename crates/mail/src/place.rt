// A place in a book, and what stands behind it. Both passes go from the book's end to its start, so that what decides about a byte is known
// when it is met, and no run is gone over again.
ghost use Rattle.std.specs.Prelude.{◌-◌, ◌≤◌, ◌<◌, ◌≡◌, length, get_or};
ghost use Rattle.text.specs.Text.{line_feed};
ghost use Rattle.mail.specs.Working.{Ahead, PastByte, Returns, Stepped, no_feed_in_four};

use text::LINE_FEED;

pub const SPACE: u8 = 32;

const CARRIAGE_RETURN: u8 = 13;

#[derive(Clone, Copy, Debug, PartialEq, Eq)]
pub struct Place {
    pub at: usize,
    // Whether a space stands behind it.
    pub space: bool,
    // Whether anything is altered in what is left of its line.
    pub altered: bool,
}

// Where the run of carriage returns starts that ends here.
fn returns_start(book: &[u8], end: usize) -> usize
    requires { end ≤ length book.now }
    ensures { Returns book.now result end }
{
    for before in (0..end).rev() {
        if book[before] != CARRIAGE_RETURN {
            return before + 1;
        }
    }
    0
}

// The place in front of a line feed and of the carriage returns of the run that ends at it, which are dropped.
pub fn past_feed(book: &[u8], place: Place) -> Place
    requires { (0 < place.at) × ((get_or book.now (place.at - 1) 0 ≡ line_feed) × Ahead book.now place) }
    ensures { Stepped book.now line_feed place result }
{
    let last = place.at - 1;
    let start = returns_start(book, last);
    Place {
        at: start,
        space: false,
        altered: start < last,
    }
}

// The place in front of another byte.
pub fn past_byte(b: u8, place: Place) -> Place
    requires { 0 < place.at }
    ensures { PastByte b place result }
{
    let last = place.at - 1;
    let space = b == SPACE;
    Place {
        at: last,
        space,
        altered: space | place.altered,
    }
}

// Whether there are four bytes before this place, and none is a line feed. They are compared at once, without branches.
#[tactic(auto, unfolding(crate::specs::Working::no_feed_in_four))]
pub fn no_feed_in_four(book: &[u8], at: usize) -> bool
    requires { at ≤ length book.now }
    ensures { result ≡ no_feed_in_four book.now at }
{
    if at < 4 {
        return false;
    }
    (book[at - 1] != LINE_FEED)
        & (book[at - 2] != LINE_FEED)
        & (book[at - 3] != LINE_FEED)
        & (book[at - 4] != LINE_FEED)
}
