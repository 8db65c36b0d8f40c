// The program conformance: answers every book of the set and compares each answer, byte for byte.

#![tactic(auto)]

mod file;
mod index;
mod run;

use file::read_file;
use index::run_all;

fn main(rt: HostRuntime) {
    // Room for 809 of the longest names.
    let mut names = [0u8; 65536];
    let Some(count) = read_file(&rt, b"index", b"", &mut names) else {
        let _ = eprintln!(rt; "conformance: there is no index");
        return;
    };
    let tally = run_all(&rt, &names[..count]);
    let _ = println!(rt; "{} books, {} differ", tally.books, tally.differ);
}
