// Reading a deal: its lines up to the next deal's first one, and its answer. The whole text and a place in it go along, and no rest of it: the
// places and numbers that come out are promised of that text (`LinesRead`).
ghost use Rattle.std.specs.Prelude.{true, ◌≡◌, ◌+◌, ◌≤◌, drop, length};
ghost use Rattle.text.specs.Text.{lines_of};
ghost use Rattle.deal.specs.Opening.{opened_deal};
ghost use Rattle.book.specs.Answers.{deal_answer, lines_answer, refused_at};
ghost use Rattle.book.specs.Deals.{opens_deal, own_lines};
ghost use Rattle.book.specs.Start.{first_deal, own_first};
ghost use Rattle.book.specs.Reading.{DealRead, LinesRead};
ghost use Rattle.book.specs.Items.{item_refusal, with_item};
ghost use Rattle.book.specs.Reply.{answer_sent, line_answer_number, line_refusal_number};

use crate::deals::opens_deal;
use crate::refusal::{LineRefusal, opening};
use deal::collateral::CollateralList;
use deal::guarantee::GuaranteeList;
use lines::line::{Line, read_line};
use relief::bare::Amounts;
use relief::factors::{AcceptedTerms, TimeFactors};
use relief::report::full_report;
use text::line_end;

// A line of a deal that is refused, and why.
#[derive(Clone, Copy, Debug, PartialEq, Eq)]
pub struct RefusedLine {
    pub number: u64,
    pub refusal: LineRefusal,
}

#[derive(Clone, Copy, Debug, PartialEq, Eq)]
pub struct DealResult {
    pub answer: Result<Amounts, RefusedLine>,
    // Where the deal's lines end, and the number of the line there.
    pub end: usize,
    pub next: u64,
}

// A deal's answer, and the time factors of its periods, which the next deal may share.
#[derive(Clone, Copy, Debug, PartialEq, Eq)]
pub struct ResultAndFactors {
    pub result: DealResult,
    pub factors: TimeFactors,
}

// The items of a deal while its lines are read.
#[derive(Clone, Copy, Debug, PartialEq, Eq)]
struct Items {
    collateral: CollateralList,
    guarantees: GuaranteeList,
}

impl Items {
    // The item on a line, if it has one, behind those held; a refused line leaves them as they were.
    #[tactic(auto, unfolding(deal::specs::Answers::answer_number, crate::specs::Items::item_refusal, crate::specs::Items::with_item, crate::specs::Reply::line_answer_number, crate::specs::Reply::line_refusal_number))]
    fn add(&mut self, line: Line) -> Result<(), LineRefusal>
        ensures refusal { line_answer_number result ≡ item_refusal self.old line }
        ensures items_after { self.new ≡ with_item self.old line }
    {
        match line {
            Line::CollateralLine(item) => {
                let added = self.collateral.add(item);
                self.collateral = added.after;
                added.answer?;
            }
            Line::GuaranteeLine(item) => {
                let added = self.guarantees.add(item);
                self.guarantees = added.after;
                added.answer?;
            }
            Line::DealLine(_) | Line::Malformed => return Err(LineRefusal::Malformed),
        }
        Ok(())
    }
}

// Whether a line starts here that opens no other deal.
pub fn own_line(text: &[u8], at: usize) -> bool
    requires { at ≤ length text.now }
    ensures { result ≡ own_first (drop at text.now) }
{
    at < text.len() && !opens_deal(&text[at..])
}

// A deal that is refused at the line with this number. The lines behind that one are only counted. By a place: the next line starts where
// this one ends.
fn refused(text: &[u8], start: usize, number: u64, refusal: LineRefusal) -> DealResult
    requires { (start ≤ length text.now) × (number + length text.now ≤ 65536 + start) }
    ensures answer { answer_sent result.answer ≡ refused_at (line_refusal_number refusal) number }
    ensures lines_read { LinesRead text.now start (number + 1) result.end result.next }
{
    let mut at = start;
    let mut next = number + 1;
    while own_line(text, at) {
        at = line_end(text, at);
        next += 1;
    }
    DealResult {
        answer: Err(RefusedLine { number, refusal }),
        end: at,
        next,
    }
}

// A deal opened on these terms by the line with this number, from its further lines on. Each goes into its list as adding does it. By a place,
// as above.
fn with_items(text: &[u8], start: usize, number: u64, deal: &AcceptedTerms) -> DealResult
    requires { (start ≤ length text.now) × (number + 1 + length text.now ≤ 65536 + start) }
    ensures lines_read { LinesRead text.now start (number + 1) result.end result.next }
    ensures text_value { lines_answer number (number + 1) (opened_deal deal.now.timed.terms) (own_lines (lines_of (drop start text.now))) ≡ answer_sent result.answer }
{
    let mut items = Items {
        collateral: CollateralList::empty(),
        guarantees: GuaranteeList::empty(),
    };
    let mut at = start;
    let mut next = number + 1;
    while own_line(text, at) {
        let end = line_end(text, at);
        let line = read_line(deal.timed.terms.edition, &text[at..end]);
        if let Err(refusal) = items.add(line) {
            return refused(text, end, next, refusal);
        }
        at = end;
        next += 1;
    }
    let collateral = items.collateral;
    let guarantees = items.guarantees;
    let report = full_report(
        deal,
        &collateral.items[..collateral.count],
        &guarantees.items[..guarantees.count],
    );
    DealResult {
        answer: Ok(Amounts {
            exposure: report.exposure,
            rwa: report.rwa,
        }),
        end: at,
        next,
    }
}

// The same, where the deal may have no further line: its amounts then need no list.
fn opened(text: &[u8], start: usize, number: u64, deal: &AcceptedTerms) -> DealResult
    requires { (start ≤ length text.now) × (number + 1 + length text.now ≤ 65536 + start) }
    ensures lines_read { LinesRead text.now start (number + 1) result.end result.next }
    ensures text_value { lines_answer number (number + 1) (opened_deal deal.now.timed.terms) (own_lines (lines_of (drop start text.now))) ≡ answer_sent result.answer }
{
    if own_line(text, start) {
        return with_items(text, start, number, deal);
    }
    DealResult {
        answer: Ok(deal.bare_amounts()),
        end: start,
        next: number + 1,
    }
}

// The answer to the deal that a text starts with, in a book headed by this edition, given some time factors.
pub fn answer_deal(edition: u64, text: &[u8], number: u64, factors: TimeFactors) -> ResultAndFactors
    requires { (opens_deal text.now ≡ true) × (number + length text.now ≤ 65536) }
    ensures deal_read { DealRead number text.now result.result.end result.result.next }
    ensures answered { deal_answer edition (first_deal number text.now) ≡ answer_sent result.result.answer }
{
    let end = line_end(text, 0);
    match opening(read_line(edition, &text[..end])) {
        Err(refusal) => ResultAndFactors {
            result: refused(text, end, number, refusal),
            factors,
        },
        Ok(terms) => {
            let deal = factors.for_terms(terms);
            ResultAndFactors {
                result: opened(text, end, number, &deal),
                factors: deal.timed.factors,
            }
        }
    }
}
