// A text's bytes, and the lines they make.

#![tactic(auto)]

ghost use Rattle.std.specs.Prelude.{◌≡◌, ◌+◌, ◌≤◌, drop, length};
ghost use Rattle.text.specs.Text.{first_line, same_bytes, starts_with};
ghost use Rattle.text.specs.NoFeeds.{no_feeds};
ghost use Rattle.text.specs.WithinLine.{Near};

pub const TAB: u8 = 9;

pub const LINE_FEED: u8 = 10;

// The longest book, in bytes.
pub const BOOK_LIMIT: usize = 65_536;

// Whether a text starts with these bytes.
#[tactic(auto, using(crate::proofs::Equal::starts_told))]
pub fn starts_with(text: &[u8], prefix: &[u8]) -> bool
    ensures { result ≡ starts_with prefix.now text.now }
{
    text.starts_with(prefix)
}

// Whether two texts are the same, byte for byte.
#[tactic(auto, using(crate::proofs::Equal::same_told))]
pub fn same(first: &[u8], second: &[u8]) -> bool
    ensures { result ≡ same_bytes first.now second.now }
{
    first == second
}

// Whether none of the eight bytes from here on is a line feed. Without branches, so that they are compared at once.
#[tactic(auto, unfolding(crate::specs::NoFeeds::no_feeds))]
fn no_feed_in_eight(text: &[u8], at: usize) -> bool
    requires { at + 8 ≤ length text.now }
    ensures { result ≡ no_feeds 8 text.now at }
{
    (text[at] != LINE_FEED)
        & (text[at + 1] != LINE_FEED)
        & (text[at + 2] != LINE_FEED)
        & (text[at + 3] != LINE_FEED)
        & (text[at + 4] != LINE_FEED)
        & (text[at + 5] != LINE_FEED)
        & (text[at + 6] != LINE_FEED)
        & (text[at + 7] != LINE_FEED)
}

// A place in the line that starts here, near its end. By an index: eight bytes are passed at once, for speed, and their place is the answer.
fn near_end(text: &[u8], start: usize) -> usize
    requires { start ≤ length text.now }
    ensures { Near text.now start result }
{
    let mut at: usize = start;
    while text.len() - at >= 8 {
        if !no_feed_in_eight(text, at) {
            return at;
        }
        at += 8;
    }
    at
}

// Where the line that starts here ends: behind its line feed, or else where the text ends. By a place, so that a line of a byte or two costs little.
pub fn line_end(text: &[u8], start: usize) -> usize
    requires { start ≤ length text.now }
    ensures { result ≡ start + length (first_line (drop start text.now)) }
{
    for at in near_end(text, start)..text.len() {
        if text[at] == LINE_FEED {
            return at + 1;
        }
    }
    text.len()
}
