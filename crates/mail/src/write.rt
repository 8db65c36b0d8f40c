// The repaired book and the numbers of its altered lines, each list from its end to its front.
ghost use Rattle.std.specs.Prelude.{◌<◌, ◌≡◌, not, ◌&&◌, eqb};
ghost use Rattle.base.specs.Writing.{overwrite};
ghost use Rattle.text.specs.Text.{line_feed};
ghost use Rattle.mail.specs.Mail.{space};
ghost use Rattle.mail.specs.Bytewise.{bytewise, numbers_of, tabbed as tabbed_of};
ghost use Rattle.mail.specs.Feeds.{plus_if};
ghost use Rattle.mail.specs.Working.{BytePut, Fillable, FourBefore, FourFillable, FourPut, Placeable, Pushed, PutOver, Ready, Refilled, Room, RoomForByte, SomeIf, byte_before};

use crate::measure::Sizes;
use crate::place::{Place, SPACE, no_feed_in_four, past_byte, past_feed};
use text::{LINE_FEED, TAB};

// What stands behind a place is written.
#[derive(Clone, Copy, Debug, PartialEq, Eq)]
struct Filled {
    place: Place,
    // Where it starts in the buffer.
    bytes: usize,
    // Where the numbers of altered lines start in the list; that of the place's own line is not among them yet.
    lines: usize,
    // The number of the place's line.
    line: u64,
}

// The byte that stands for one that stays.
#[tactic(auto, unfolding(crate::specs::Bytewise::tabbed))]
fn tabbed(b: u8) -> u8
    ensures { result ≡ tabbed_of b }
{
    if b == SPACE {
        return TAB;
    }
    b
}

fn one_less(n: usize, less: bool) -> usize
    requires { SomeIf less n }
    ensures { n ≡ plus_if less result }
{
    n - usize::from(less)
}

// A byte in front of those that the buffer holds from `at` on, and where they start then. A space with a space behind it is left out: the
// tab that stands there is written again, which spares a branch.
fn put_byte(buffer: &mut [u8], at: usize, b: u8, spaced: bool) -> usize
    requires { RoomForByte (eqb b space && spaced) at buffer.old }
    ensures { Pushed (eqb b space && spaced) (tabbed_of b) at buffer.old buffer.new result }
{
    let place = one_less(at, !((b == SPACE) & spaced));
    buffer[place] = tabbed(b);
    place
}

// A line's number in front of those that the list holds from `at` on, if the line was altered, and where they start then.
fn put_line(list: &mut [u64], at: usize, line: u64, altered: bool) -> usize
    requires { Room (not altered) at list.old }
    ensures { Pushed (not altered) line at list.old list.new result }
{
    if !altered {
        return at;
    }
    let place = at - 1;
    list[place] = line;
    place
}

// Over a byte that is no line feed.
fn put_one(buffer: &mut [u8], b: u8, filled: Filled) -> Filled
    requires { (0 < filled.place.at) × RoomForByte (eqb b space && filled.place.space) filled.bytes buffer.old }
    ensures { BytePut b filled result buffer.old buffer.new }
{
    let place = filled.place;
    Filled {
        place: past_byte(b, place),
        bytes: put_byte(buffer, filled.bytes, b, place.space),
        lines: filled.lines,
        line: filled.line,
    }
}

// Over a line feed, and the carriage returns in front of it.
fn put_feed(book: &[u8], buffer: &mut [u8], list: &mut [u64], filled: Filled) -> Filled
    requires { (byte_before book.now filled.place ≡ line_feed) × Placeable book.now buffer.old list.old filled }
    ensures { PutOver book.now filled result buffer.old buffer.new list.old list.new }
{
    let place = filled.place;
    let bytes = filled.bytes - 1;
    buffer[bytes] = LINE_FEED;
    let lines = put_line(list, filled.lines, filled.line, place.altered);
    let line = filled.line - 1;
    Filled {
        place: past_feed(book, place),
        bytes,
        lines,
        line,
    }
}

// Over four bytes, none of them a line feed, so that they share one turn of the loop.
fn put_four(book: &[u8], buffer: &mut [u8], filled: Filled) -> Filled
    requires { FourBefore book.now filled.place × FourFillable book.now buffer.old filled }
    ensures { FourPut book.now filled result buffer.old buffer.new }
{
    let at = filled.place.at;
    let first = book[at - 1];
    let second = book[at - 2];
    let third = book[at - 3];
    let fourth = book[at - 4];
    let one = put_one(buffer, first, filled);
    let two = put_one(buffer, second, one);
    let three = put_one(buffer, third, two);
    put_one(buffer, fourth, three)
}

// One step back, or four.
fn put(book: &[u8], buffer: &mut [u8], list: &mut [u64], filled: Filled) -> Filled
    requires { (0 < filled.place.at) × Fillable book.now buffer.old list.old filled }
    ensures { Refilled book.now filled result buffer.old buffer.new list.old list.new }
{
    let at = filled.place.at;
    if no_feed_in_four(book, at) {
        return put_four(book, buffer, filled);
    }
    let last = at - 1;
    let b = book[last];
    if b == LINE_FEED {
        return put_feed(book, buffer, list, filled);
    }
    put_one(buffer, b, filled)
}

// By a place, from the end, as `measure`.
pub fn write(book: &[u8], buffer: &mut [u8], list: &mut [u64], sizes: Sizes)
    requires { Ready book.now buffer.old list.old sizes }
    ensures { (buffer.new ≡ overwrite (bytewise book.now) buffer.old)
        × (list.new ≡ overwrite (numbers_of 1 book.now) list.old) }
{
    let bytes = book.len() - sizes.dropped;
    let line = sizes.feeds as u64 + 1;
    let mut filled = Filled {
        place: Place {
            at: book.len(),
            space: false,
            altered: false,
        },
        bytes,
        lines: sizes.lines,
        line,
    };
    while filled.place.at > 0 {
        filled = put(book, buffer, list, filled);
    }
    put_line(list, filled.lines, filled.line, filled.place.altered);
}
