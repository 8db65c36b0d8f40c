// What a line of a deal is refused for, and what the line that opens one says.
ghost use Rattle.std.specs.Prelude.{◌≡◌, IfOk};
ghost use Rattle.deal.specs.declared.refusal.Refusal.{Refusal};
ghost use Rattle.book.specs.Answers.{opening_refusal};
ghost use Rattle.book.specs.Opening.{opening_terms};
ghost use Rattle.book.specs.Reply.{line_answer_number, line_refusal_number};
ghost use Rattle.book.specs.declared.refusal.LineRefusal.TheVariants.{Refused};

use deal::refusal::Refusal;
use deal::terms::Terms;
use lines::line::Line;

#[derive(Clone, Copy, Debug, PartialEq, Eq)]
pub enum LineRefusal {
    // It cannot be read, or not at this place.
    Malformed,
    // By the operation that it asks for.
    Refused(Refusal),
}

impl LineRefusal {
    // A method and no `From`: docs/TRACE.md names it, and what it gives is a definition's number.
    #[tactic(auto, unfolding(crate::specs::Reply::line_refusal_number))]
    pub fn number(self) -> u64
        ensures { result ≡ line_refusal_number self }
    {
        match self {
            LineRefusal::Malformed => 11,
            LineRefusal::Refused(refusal) => refusal.number(),
        }
    }
}

impl From<Refusal> for LineRefusal {
    ghost from_gives = { λ refusal result. result ≡ Refused refusal };

    fn from(refusal: Refusal) -> LineRefusal {
        LineRefusal::Refused(refusal)
    }
}

// The terms on the line that opens a deal.
#[tactic(auto, unfolding(deal::specs::Answers::answer_number, crate::specs::Answers::opening_refusal, crate::specs::Opening::opening_terms, crate::specs::Reply::line_answer_number, crate::specs::Reply::line_refusal_number))]
pub fn opening(line: Line) -> Result<Terms, LineRefusal>
    ensures refusal { line_answer_number result ≡ opening_refusal line }
    ensures terms { IfOk result (λ terms. terms ≡ opening_terms line) }
{
    let Line::DealLine(terms) = line else {
        return Err(LineRefusal::Malformed);
    };
    terms.check()?;
    Ok(terms)
}
