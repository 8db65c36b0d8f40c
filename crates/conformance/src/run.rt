// One book of the set.
ghost use Rattle.std.specs.Prelude.{◌≡◌};
ghost use Rattle.response.specs.Response.{printed};
ghost use Rattle.text.specs.Text.{same_bytes};

use crate::file::read_file;
use response::respond;
use std::fmt::{self, Display, Formatter, Write};
use std::rt::Files;
use text::same;

// What a book's answer is, beside the one that is known; missing where either cannot be read.
#[derive(Clone, Copy, Debug, PartialEq, Eq)]
enum Verdict {
    Same,
    Differs,
    Missing,
}

impl Display for Verdict {
    fn fmt<W: Write>(&self, f: &mut Formatter<W>) -> fmt::Result {
        f.write_str(match self {
            Verdict::Same => "same",
            Verdict::Differs => "differs",
            Verdict::Missing => "missing",
        })
    }
}

// Whether a book's answer is this one.
fn answered(book: &[u8], answer: &[u8]) -> bool
    ensures { result ≡ same_bytes (printed book.now) answer.now }
{
    let mut results = [0u64; 8192];
    let mut out = [0u8; 172061];
    let length = respond(book, &mut results, &mut out);
    same(&out[..length], answer)
}

// Runs the book of this name. Either buffer has a byte more than the longest text, so that a longer one shows.
fn judge(rt: &impl Files, name: &[u8]) -> Verdict {
    let mut book = [0u8; 65537];
    let mut answer = [0u8; 172062];
    let asked = read_file(rt, name, b".book", &mut book);
    let known = read_file(rt, name, b".answer", &mut answer);
    let (Some(asked), Some(known)) = (asked, known) else {
        return Verdict::Missing;
    };
    if answered(&book[..asked], &answer[..known]) {
        Verdict::Same
    } else {
        Verdict::Differs
    }
}

// Runs the book of this name and prints its line; whether the answer is the same. What cannot be written is left out.
pub fn run(rt: &(impl Files + Print), name: &[u8]) -> bool {
    let verdict = judge(rt, name);
    let _ = rt.write_all(name);
    let _ = println!(rt; "\t{verdict}");
    verdict == Verdict::Same
}
