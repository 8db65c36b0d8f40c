// The program crmrepair: reads a book that came by mail on standard input, writes the repaired book on standard output and the numbers of
// the altered lines on standard error, or only its refusal there.

#![tactic(auto)]

use input::read_input;
use repairing::respond;

fn main(rt: HostRuntime) {
    let mut bytes = [0u8; 65537];
    let Ok(count) = read_input(&mut rt.stdin(), &mut bytes) else {
        let _ = eprintln!(rt; "crmrepair: standard input cannot be read");
        return;
    };
    // For the longest book: its bytes, a number for each of as many lines, and room for their text, whatever the numbers.
    let mut buffer = [0u8; 65536];
    let mut list = [0u64; 65536];
    let mut notice = [0u8; 1376285];
    let lengths = respond(&bytes[..count], &mut buffer, &mut list, &mut notice);
    if rt.write_all(&buffer[..lengths.book]).is_err() {
        let _ = eprintln!(rt; "crmrepair: the book cannot be written");
        return;
    }
    let _ = rt.stderr().write_all(&notice[..lengths.notice]);
}
