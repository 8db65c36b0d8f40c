// A number in a line.
ghost use Rattle.std.specs.Prelude.{◌≡◌, ◌≤◌, length, take};
ghost use Rattle.lines.specs.Numbers.{number_of, number_read};

const MOST_DIGITS: usize = 13;

#[derive(Clone, Copy, Debug, PartialEq, Eq)]
pub struct Number {
    pub value: u64,
    // How many it has.
    pub digits: usize,
}

// The number that a text starts with. It ends before the first byte that is no digit. By hand: `parse` takes a sign and leading zeros, and wants
// the end known.
#[tactic(auto, using(crate::proofs::NumberLaws::none_passed, crate::proofs::NumberLaws::fits))]
pub fn read_number(text: &[u8]) -> Option<Number>
    ensures { result ≡ number_of text.now }
{
    let mut value = 0;
    for (digits, byte) in text.iter().enumerate() {
        if !byte.is_ascii_digit() {
            return ended(text, value, digits);
        }
        if digits >= MOST_DIGITS {
            return None;
        }
        value = value * 10 + u64::from(*byte - b'0');
    }
    ended(text, value, text.len())
}

// What so many digits at the start of a text are, where they have this value.
#[tactic(auto, using(crate::proofs::NumberLaws::no_digit, crate::proofs::NumberLaws::zero_led, crate::proofs::NumberLaws::one_digit, crate::proofs::NumberLaws::led))]
fn ended(text: &[u8], value: u64, digits: usize) -> Option<Number>
    requires { (digits ≤ length text.now) × (digits ≤ 13) }
    ensures { result ≡ number_read (take digits text.now) value digits }
{
    if digits == 0 {
        return None;
    }
    if digits > 1 && text[0] == b'0' {
        return None;
    }
    Some(Number { value, digits })
}
