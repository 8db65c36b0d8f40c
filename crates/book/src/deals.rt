// The deals of a book: which lines open one.
ghost use Rattle.std.specs.Prelude.{◌≡◌, length};
ghost use Rattle.text.specs.Text.{lines_of};
ghost use Rattle.book.specs.Deals.{deals_from, opens_deal};

use text::line_end;

// Whether the line that a text starts with opens a deal. By a pattern, so that most lines are told by their first byte.
#[tactic(auto, unfolding(text::specs::Text::starts_with))]
pub fn opens_deal(text: &[u8]) -> bool
    ensures { result ≡ opens_deal text.now }
{
    matches!(text, [b'D', b'\t', ..])
}

// How many of the lines open a deal. By a place: the next line starts where this one ends.
pub fn count_deals(lines: &[u8]) -> usize
    ensures { result ≡ length (deals_from 2 (lines_of lines.now)) }
{
    let mut deals: usize = 0;
    let mut at: usize = 0;
    while at < lines.len() {
        if opens_deal(&lines[at..]) {
            deals += 1;
        }
        at = line_end(lines, at);
    }
    deals
}
