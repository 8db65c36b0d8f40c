// The bytes that stand in front of a book's text.
use crate::fields::Reading;

// Room for more than the longest book.
pub const BYTES: usize = 65_600;

// An array and a count: there is no heap.
#[derive(Drop)]
pub struct Front {
    bytes: [u8; BYTES],
    count: usize,
}

impl Front {
    pub fn new() -> Front {
        Front {
            bytes: [0; BYTES],
            count: 0,
        }
    }

    pub fn bytes(&self) -> &[u8] {
        &self.bytes[..self.count.min(BYTES)]
    }

    // One more, if there is room.
    fn push(&mut self, byte: u8) {
        if self.count < BYTES {
            self.bytes[self.count] = byte;
            self.count += 1;
        }
    }

    // The text behind a line's number.
    fn put(&mut self, line: &[u8]) {
        let mut reading = Reading::Word;
        for byte in line {
            reading = reading.next(*byte);
            if let Reading::Byte(read) = reading {
                self.push(read);
            }
        }
    }

    // The same so many times.
    pub fn repeat(&mut self, times: u64, line: &[u8]) {
        for _ in 0..times {
            self.put(line);
        }
    }

    // These bytes and a line's text behind them, which is not kept.
    pub fn with(&mut self, line: &[u8]) -> &[u8] {
        let count = self.count;
        self.put(line);
        let end = self.count.min(BYTES);
        self.count = count;
        &self.bytes[..end]
    }

    pub fn clear(&mut self) {
        self.count = 0;
    }
}
