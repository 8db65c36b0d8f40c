// What a line says.
ghost use Rattle.std.specs.Prelude.{◌≡◌, ◌∷◌, unwrap_or};
ghost use Rattle.lines.specs.Lines.{collateral_line, deal_line, guarantee_line, line_of, swap_line};
ghost use Rattle.lines.specs.declared.line.Line.TheVariants.{Malformed};

use crate::fields::{MOST_FIELDS, read_fields};
use crate::sovereign::{width_under, with_sovereign};
use deal::collateral::Collateral;
use deal::fields::{
    COLLATERAL_WIDTH, SENT_GUARANTEE_WIDTH, SENT_SWAP_WIDTH, TERMS_WIDTH, collateral_in,
    guarantee_sent, swap_sent, terms_under,
};
use deal::guarantee::Guarantee;
use deal::terms::Terms;

// An enum of its own, and no `Option` of three kinds: that a line is malformed is one of the paper's answers, which theorems name.
#[derive(Clone, Copy, Debug, PartialEq, Eq)]
pub enum Line {
    DealLine(Terms),
    CollateralLine(Collateral),
    // Of a guarantee or a swap.
    GuaranteeLine(Guarantee),
    Malformed,
}

// Of a line D, which leaves the edition out.
const DEAL_WIDTH: usize = TERMS_WIDTH - 1;

#[tactic(auto, using(crate::proofs::LineLaws::whole_terms), unfolding(crate::specs::Lines::deal_line))]
fn deal_line(edition: u64, fields: [u64; MOST_FIELDS]) -> Line
    ensures { result ≡ deal_line edition fields }
{
    Line::DealLine(terms_under(edition, &with_sovereign(edition, fields)))
}

#[tactic(auto, unfolding(crate::specs::Lines::collateral_line))]
fn collateral_line(fields: [u64; MOST_FIELDS]) -> Line
    ensures { result ≡ collateral_line fields }
{
    Line::CollateralLine(collateral_in(&fields))
}

#[tactic(auto, using(crate::proofs::LineLaws::whole_guarantee), unfolding(crate::specs::Lines::guarantee_line))]
fn guarantee_line(edition: u64, fields: [u64; MOST_FIELDS]) -> Line
    ensures { result ≡ guarantee_line edition fields }
{
    Line::GuaranteeLine(guarantee_sent(&with_sovereign(edition, fields)))
}

#[tactic(auto, using(crate::proofs::LineLaws::whole_swap), unfolding(crate::specs::Lines::swap_line))]
fn swap_line(edition: u64, fields: [u64; MOST_FIELDS]) -> Line
    ensures { result ≡ swap_line edition fields }
{
    Line::GuaranteeLine(swap_sent(&with_sovereign(edition, fields)))
}

// What a line says behind its letter, if it can be read.
fn read_behind(edition: u64, letter: u8, rest: &[u8]) -> Option<Line>
    ensures { unwrap_or result Malformed ≡ line_of edition (letter ∷ rest.now) }
{
    match letter {
        b'D' => {
            let fields = read_fields(rest, width_under(edition, DEAL_WIDTH))?;
            Some(deal_line(edition, fields))
        }
        b'C' => {
            let fields = read_fields(rest, COLLATERAL_WIDTH)?;
            Some(collateral_line(fields))
        }
        b'G' => {
            let fields = read_fields(rest, width_under(edition, SENT_GUARANTEE_WIDTH))?;
            Some(guarantee_line(edition, fields))
        }
        b'S' => {
            let fields = read_fields(rest, width_under(edition, SENT_SWAP_WIDTH))?;
            Some(swap_line(edition, fields))
        }
        _ => None,
    }
}

// A line, with its line feed, if it has one, of a book headed by this edition.
pub fn read_line(edition: u64, line: &[u8]) -> Line
    ensures { result ≡ line_of edition line.now }
{
    let Some((letter, rest)) = line.split_first() else {
        return Line::Malformed;
    };
    read_behind(edition, *letter, rest).unwrap_or(Line::Malformed)
}
