// The fields of a line, behind its letter.
ghost use Rattle.std.specs.Prelude.{◌≡◌, ◌≤◌};
ghost use Rattle.lines.specs.Fields.{field_of, fields_held, fields_of, is_end, most_fields};

use crate::number::{Number, read_number};
use deal::fields::COLLATERAL_WIDTH;

// Of the longest lines, C, and D and S with the sovereign's step.
pub const MOST_FIELDS: usize = COLLATERAL_WIDTH;

// The field that the rest of a line starts with.
fn read_field(rest: &[u8]) -> Option<Number>
    ensures { result ≡ field_of rest.now }
{
    read_number(rest.strip_prefix(b"\t")?)
}

// Whether the rest of a line is its line feed.
#[tactic(auto, using(crate::proofs::FieldLaws::end_told))]
fn is_end(rest: &[u8]) -> bool
    ensures { result ≡ is_end rest.now }
{
    rest == b"\n".as_slice()
}

// So many fields, which have to be the whole rest of a line up to its line feed, and zeros behind them.
pub fn read_fields(line: &[u8], count: usize) -> Option<[u64; MOST_FIELDS]>
    requires { count ≤ most_fields }
    ensures { result ≡ fields_held (fields_of count line.now) }
{
    let mut values = [0; MOST_FIELDS];
    let mut rest = line;
    for value in values[..count].iter_mut() {
        let field = read_field(rest)?;
        *value = field.value;
        rest = &rest[1 + field.digits..];
    }
    if !is_end(rest) {
        return None;
    }
    Some(values)
}
