// Numbers put into a lent list. Each answer is the place behind what was put: by a place beside the list, so that each contract is one `Placed`
// of what the caller lends. Those of bytes are `put_byte` and `put_bytes` of result: `Placed` is of lists of numbers, and no list over a type
// parameter is one.
ghost use Rattle.std.specs.Prelude.{◌+◌, ◌≤◌, ◌≡◌, ◌∷◌, [], ℕ, List, length};
ghost use Rattle.base.specs.Writing.{Placed};
ghost use Rattle.hadlephoga.specs.Records.{in_order};

#[tactic(auto, using(base::proofs::Writing::placed_byte))]
pub fn put_number(list: &mut [u64], at: usize, number: u64) -> usize
    requires { at + 1 ≤ length list.old }
    ensures { Placed at (number ∷ []) list.old list.new result }
{
    list[at] = number;
    at + 1
}

pub fn put_numbers(list: &mut [u64], at: usize, numbers: &[u64]) -> usize
    requires { at + length numbers.now ≤ length list.old }
    ensures { Placed at numbers.now list.old list.new result }
{
    let end = at + numbers.len();
    list[at..end].copy_from_slice(numbers);
    end
}

// An item of a list, as its numbers.
pub trait Numbered: Copy {
    ghost numbers: { Self → List ℕ };

    fn put(self, list: &mut [u64], at: usize) -> usize
        requires { at + length (numbers self) ≤ length list.old }
        ensures { Placed at (numbers self) list.old list.new result };
}

// The numbers of each item, one behind the other.
pub fn put_each<T: Numbered>(list: &mut [u64], at: usize, items: &[T]) -> usize
    requires { at + length (in_order T.numbers items.now) ≤ length list.old }
    ensures { Placed at (in_order T.numbers items.now) list.old list.new result }
{
    let mut place = at;
    for item in items {
        place = item.put(list, place);
    }
    place
}
