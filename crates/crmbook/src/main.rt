// The program crmbook: reads a book on standard input and writes its result on standard output.

#![tactic(auto)]

use input::read_input;
use response::respond;

fn main(rt: HostRuntime) {
    let mut buffer = [0u8; 65537];
    let Ok(count) = read_input(&mut rt.stdin(), &mut buffer) else {
        let _ = eprintln!(rt; "crmbook: standard input cannot be read");
        return;
    };
    // Four numbers for each of 2,048 deals, and room for their text, whatever the numbers.
    let mut results = [0u64; 8192];
    let mut text = [0u8; 172061];
    let length = respond(&buffer[..count], &mut results, &mut text);
    if rt.write_all(&text[..length]).is_err() {
        let _ = eprintln!(rt; "crmbook: the result cannot be written");
    }
}
