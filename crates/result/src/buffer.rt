// Bytes written into a lent buffer. Each answer is the place behind what was written: by a place beside the buffer, so that each contract is one
// `Placed` of what the caller lends.
ghost use Rattle.std.specs.Prelude.{◌∷◌, [], ◌+◌, ◌≤◌, ◌<◌, length};
ghost use Rattle.base.specs.Writing.{Placed};

#[tactic(auto, using(base::proofs::Writing::placed_byte))]
pub fn put_byte(out: &mut [u8], at: usize, byte: u8) -> usize
    requires { at < length out.old }
    ensures { Placed at (byte ∷ []) out.old out.new result }
{
    out[at] = byte;
    at + 1
}

pub fn put_bytes(out: &mut [u8], at: usize, bytes: &[u8]) -> usize
    requires { at + length bytes.now ≤ length out.old }
    ensures { Placed at bytes.now out.old out.new result }
{
    let end = at + bytes.len();
    out[at..end].copy_from_slice(bytes);
    end
}
