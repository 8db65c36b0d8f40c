// A set's terms and its positions from numbers, in the order in which they are sent.
ghost use Rattle.std.specs.Prelude.{◌≡◌, ◌≤◌, length};
ghost use Rattle.netting.specs.Fields.{position_in, position_width, set_terms_in, set_terms_width};

use crate::position::Position;
use crate::terms::SetTerms;
use deal::asset::Asset;
use deal::fields::party_in;

// How many numbers there are of each.
pub const SET_TERMS_WIDTH: usize = 6;

pub const POSITION_WIDTH: usize = 7;

pub fn set_terms_in(fields: &[u64]) -> SetTerms
    requires { set_terms_width ≤ length fields.now }
    ensures { result ≡ set_terms_in fields.now }
{
    SetTerms {
        table: fields[0],
        counterparty: party_in(fields),
        settlement: fields[4],
        interval: fields[5],
    }
}

pub fn position_in(fields: &[u64]) -> Position
    requires { position_width ≤ length fields.now }
    ensures { result ≡ position_in fields.now }
{
    Position {
        side: fields[0],
        amount: fields[1],
        security: fields[2],
        asset: Asset {
            goods: fields[3],
            step: fields[4],
            life: fields[5],
        },
        currency: fields[6],
    }
}
