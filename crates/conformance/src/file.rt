// Files by name and ending.
ghost use Rattle.std.specs.Prelude.{◌+◌, ◌≤◌, ◌≡◌, IfSome, length};
ghost use Rattle.io.specs.Counts.{IsPrefixLen};

use input::read_full;
use std::fs::File;
use std::rt::Files;

const LONGEST_NAME: usize = 80;

const LONGEST_ENDING: usize = 16;

// These bytes, put here; where they end.
fn put(path: &mut [u8], at: usize, bytes: &[u8]) -> usize
    requires { at + length bytes.now ≤ length path.old }
    ensures { (result ≡ at + length bytes.now) × IsPrefixLen result path.new }
{
    let end = at + bytes.len();
    path[at..end].copy_from_slice(bytes);
    end
}

// Opens the file, if it is there and its name is text.
fn open<R: Files>(rt: &R, name: &[u8], ending: &[u8]) -> Option<R::File> {
    if name.len() > LONGEST_NAME || ending.len() > LONGEST_ENDING {
        return None;
    }
    let mut path = [0u8; LONGEST_NAME + LONGEST_ENDING];
    let middle = put(&mut path, 0, name);
    let end = put(&mut path, middle, ending);
    let path = str::from_utf8(&path[..end]).ok()?;
    File::open(rt, path).ok()
}

// Reads the file, if it is there, from its start, as far as there is room. How many bytes of the buffer are its own.
pub fn read_file<R: Files>(rt: &R, name: &[u8], ending: &[u8], buffer: &mut [u8]) -> Option<usize>
    ensures { IfSome result (λ count. IsPrefixLen count buffer.new) }
{
    let mut file = open(rt, name, ending)?;
    Some(read_full(&mut file, buffer).unwrap_or_else(|cut| cut.count))
}
