// Numbers in decimal, without leading zeros.
ghost use Rattle.std.specs.Prelude.{◌≡◌, ◌+◌, ◌≤◌, length};
ghost use Rattle.result.specs.Numbers.{number_text};
ghost use Rattle.base.specs.Writing.{Placed};

// How many digits a number has.
fn digit_count(n: u64) -> usize
    ensures { result ≡ length (number_text n) }
{
    n.max(1).ilog10() as usize + 1
}

// The digits are written from the last one to the first. By hand: `write!` wants a writer and a formatter, and here each digit is stored once.
#[tactic(auto, using(crate::proofs::Digits::number_short))]
pub fn put_number(out: &mut [u8], at: usize, n: u64) -> usize
    requires { at + 20 ≤ length out.old }
    ensures { Placed at (number_text n) out.old out.new result }
{
    let end = at + digit_count(n);
    let mut rest = n;
    for place in (at..end).rev() {
        out[place] = b'0' + (rest % 10) as u8;
        rest /= 10;
    }
    end
}
