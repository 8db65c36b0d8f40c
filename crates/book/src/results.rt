// The results list: four numbers a deal.
ghost use Rattle.std.specs.Prelude.{◌≡◌, [], ◌++◌, ◌∷◌, ◌+◌, ◌≤◌, drop, length, take};
ghost use Rattle.book.specs.Reply.{answer_sent};

use crate::reading::RefusedLine;
use relief::bare::Amounts;

#[tactic(auto, unfolding(crate::specs::Reply::answer_sent, crate::specs::Answers::refused_at))]
fn numbers(serial: u64, answer: Result<Amounts, RefusedLine>) -> [u64; 4]
    ensures { result ≡ serial ∷ answer_sent answer }
{
    match answer {
        Ok(amounts) => [serial, 0, amounts.exposure, amounts.rwa],
        Err(line) => [serial, line.refusal.number(), line.number, 0],
    }
}

// A deal's answer, put into its place behind its serial.
pub fn put_answer(results: &mut [u64], at: usize, serial: u64, answer: Result<Amounts, RefusedLine>)
    requires { at + 4 ≤ length results.old }
    ensures { results.new ≡ take at results.old ++ (serial ∷ answer_sent answer) ++ drop (at + 4) results.old }
{
    let numbers = numbers(serial, answer);
    results[at..at + 4].copy_from_slice(&numbers);
}
