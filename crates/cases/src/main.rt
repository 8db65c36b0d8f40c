// The program cases: runs the lines of its files through opening, adding, reporting, answering, repairing and netting, and prints
// each reply whole. The file stdout beside src/ holds what documents 01 and 02 give.

#![tactic(auto)]

ghost use Rattle.std.specs.Prelude.{◌<◌, IfSome, length};
ghost use Rattle.io.specs.Counts.{IsPrefixLen};

mod fields;
mod front;
mod mailed;
mod netted;
mod operations;
mod show;

use fields::ROOM;
use front::Front;
use input::read_full;
use operations::PLACES;
use std::fs::File;
use std::rt::Files;

// Reads a file, if it is there, from its start, as far as there is room.
fn content<R: Files>(rt: &R, name: &[u8], buffer: &mut [u8]) -> Option<usize>
    ensures { IfSome result (λ count. IsPrefixLen count buffer.new) }
{
    let path = str::from_utf8(name).ok()?;
    let mut file = File::open(rt, path).ok()?;
    Some(read_full(&mut file, buffer).unwrap_or_else(|cut| cut.count))
}

// The same; of a file that is missing, nothing. One that is missing, or may be longer, shows.
fn read(rt: &(impl Files + Print), name: &[u8], buffer: &mut [u8]) -> usize
    ensures { IsPrefixLen result buffer.new }
{
    let count = content(rt, name, buffer).unwrap_or(0);
    if count == 0 || count == buffer.len() {
        show::text(rt, "not read whole: ");
        let _ = rt.write_all(name);
        show::text(rt, "\n");
    }
    count
}

// What lasts for a file: the record, how many places are lent of it or of a list of altered lines, and of a list for a report, and the
// bytes in front of a book.
#[derive(Drop)]
struct Held {
    record: [u64; PLACES],
    lent: u64,
    room: u64,
    front: Front,
}

impl Held {
    fn new() -> Held {
        Held {
            record: [show::MARK; PLACES],
            lent: show::RECORD_LENGTH as u64,
            room: show::REPORT_PLACES as u64,
            front: Front::new(),
        }
    }
}

// Runs a line. The first letter of its word says which operation it is; two begin with n, `net` and `notice`.
fn run(rt: &impl Print, line: &[u8], held: &mut Held) {
    let _ = rt.write_all(line);
    show::text(rt, "\n");
    let mut places = [0u64; ROOM];
    let numbers = fields::numbers(line, &mut places);
    let first = numbers.first().copied().unwrap_or(0);
    let second = numbers.get(1).copied().unwrap_or(0);
    match line {
        [b'o', ..] => operations::change(rt, &mut held.record, held.lent, |record| {
            hadlephoga::hadlephoga_open_deal(numbers, record)
        }),
        [b'c', ..] => operations::change(rt, &mut held.record, held.lent, |record| {
            hadlephoga::hadlephoga_add_collateral(record, numbers)
        }),
        [b'g', ..] => operations::change(rt, &mut held.record, held.lent, |record| {
            hadlephoga::hadlephoga_add_guarantee(record, numbers)
        }),
        [b'd', ..] => operations::change(rt, &mut held.record, held.lent, |record| {
            hadlephoga::hadlephoga_add_swap(record, numbers)
        }),
        [b'r', ..] => operations::report(rt, &held.record, held.lent, held.room),
        [b'l', ..] => {
            held.lent = first;
            held.room = second;
        }
        [b's', ..] => operations::set(&mut held.record, numbers),
        [b't', ..] => held.front.repeat(first, line),
        [b'b', ..] => operations::answer(rt, held.front.with(line), first),
        [b'p', ..] => operations::print(rt, held.front.bytes()),
        [b'm', ..] => mailed::repair(rt, held.front.with(line), first, held.lent),
        [b'n', b'e', ..] => netted::net(rt, numbers),
        [b'n', ..] => mailed::notice(rt, held.front.bytes()),
        [b'e', ..] => held.front.clear(),
        _ => {}
    }
}

// The first line, without its line feed, and what stands behind it; none where there is no line feed. Lines are cut so, one by one: over any
// runtime the check refuses a `for` over `split`.
fn cut_line(text: &[u8]) -> Option<(&[u8], &[u8])>
    ensures { IfSome result (λ cut. length cut.1.now < length text.now) }
{
    let end = text.iter().position(|byte| *byte == b'\n')?;
    Some((&text[..end], &text[end + 1..]))
}

fn run_lines(rt: &impl Print, lines: &[u8]) {
    let mut held = Held::new();
    let mut left = lines;
    while let Some((line, others)) = cut_line(left) {
        run(rt, line, &mut held);
        left = others;
    }
}

fn run_file(rt: &(impl Files + Print), name: &[u8]) {
    let mut lines = [0u8; 65536];
    let count = read(rt, name, &mut lines);
    run_lines(rt, &lines[..count]);
}

fn run_files(rt: &(impl Files + Print), names: &[u8]) {
    let mut left = names;
    while let Some((name, others)) = cut_line(left) {
        run_file(rt, name);
        left = others;
    }
}

fn main(rt: HostRuntime) {
    let mut names = [0u8; 4096];
    let count = read(&rt, b"index", &mut names);
    run_files(&rt, &names[..count]);
}
