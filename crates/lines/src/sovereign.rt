// The sovereign's step in a line, which books headed 1 leave out.
ghost use Rattle.std.specs.Prelude.{◌≡◌, ◌≤◌, take};
ghost use Rattle.lines.specs.Fields.{most_fields};
ghost use Rattle.lines.specs.Sovereign.{leaves_out_sovereign, width_under, with_sovereign};

use crate::fields::MOST_FIELDS;

fn leaves_out_sovereign(edition: u64) -> bool
    ensures { result ≡ leaves_out_sovereign edition }
{
    edition == 1
}

// How many fields a line has, of so many with the sovereign's step.
#[tactic(auto, unfolding(crate::specs::Sovereign::width_under))]
pub fn width_under(edition: u64, width: usize) -> usize
    requires { 1 ≤ width }
    ensures { result ≡ width_under edition width }
{
    if leaves_out_sovereign(edition) {
        return width - 1;
    }
    width
}

// A line's fields with the sovereign's step in its place, 0 where the line leaves it out.
#[tactic(auto, using(crate::proofs::SovereignLaws::all_there, crate::proofs::SovereignLaws::put_in))]
pub fn with_sovereign(edition: u64, fields: [u64; MOST_FIELDS]) -> [u64; MOST_FIELDS]
    ensures { result ≡ take most_fields (with_sovereign edition fields) }
{
    if !leaves_out_sovereign(edition) {
        return fields;
    }
    [
        fields[0], fields[1], fields[2], 0, fields[3], fields[4], fields[5], fields[6], fields[7],
        fields[8], fields[9],
    ]
}
