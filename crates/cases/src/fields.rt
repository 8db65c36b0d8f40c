// What a line says behind its word: numbers, or a number and a text.
ghost use Rattle.std.specs.Prelude.{◌≤◌, length};

// Room for the word, and more numbers than any operation takes.
pub const ROOM: usize = 256;

fn is_space(byte: &u8) -> bool {
    *byte == b' '
}

// A number's digits; spaces are passed over. Numbers of 64 bits are read as they are.
fn number(field: &[u8]) -> u64 {
    field
        .iter()
        .filter(|byte| **byte != b' ')
        .fold(0, |number, byte| {
            (number % 1_844_674_407_370_955_162 * 10).wrapping_add(u64::from(*byte) % 16)
        })
}

// The numbers behind a line's word, each behind a space. The last place takes all that is left of a longer line.
pub fn numbers<'a>(line: &[u8], places: &'a mut [u64; ROOM]) -> &'a [u64]
    ensures { length result.now ≤ 255 }
{
    for (place, field) in places.iter_mut().zip(line.splitn(ROOM, is_space)) {
        *place = number(field);
    }
    let spaces = line.iter().filter(|byte| is_space(*byte)).count();
    &places[1..=spaces.min(ROOM - 1)]
}

// What the bytes of a line have come to.
#[derive(Clone, Copy, Debug, PartialEq, Eq)]
pub enum Reading {
    Word,
    Number,
    Text,
    Escape,
    Digit(u8),
    Byte(u8),
}

fn hex(digit: u8) -> u8 {
    digit % 16 + digit / 64 * 9
}

impl Reading {
    // The word and the number end in a space. In the text a space stands for a tab, as in document 01; behind a backslash an n is a line
    // feed, and two digits are a byte.
    pub fn next(self, byte: u8) -> Reading {
        match (self, byte) {
            (Reading::Word, b' ') => Reading::Number,
            (Reading::Word, _) => Reading::Word,
            (Reading::Number, b' ') => Reading::Text,
            (Reading::Number, _) => Reading::Number,
            (Reading::Escape, b'n') => Reading::Byte(b'\n'),
            (Reading::Escape, high) => Reading::Digit(high),
            (Reading::Digit(high), low) => Reading::Byte(hex(high) % 16 * 16 + hex(low) % 16),
            (_, b'\\') => Reading::Escape,
            (_, b' ') => Reading::Byte(b'\t'),
            (_, plain) => Reading::Byte(plain),
        }
    }
}
