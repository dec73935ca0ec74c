//! A digest of results.

use std::io;
use std::io::Write;

/// A digest of numbers and bytes in their order.
#[derive(Clone, Copy)]
pub struct Digest {
    state: u64,
}

impl Digest {
    pub fn new() -> Self {
        Digest {
            state: 0x243F_6A88_85A3_08D3,
        }
    }

    /// The digest of all that was added.
    pub fn get(&self) -> u64 {
        self.state ^ (self.state >> 32)
    }

    /// Adds a number.
    pub fn add(&mut self, number: u64) {
        self.state = (self.state.rotate_left(23) ^ number).wrapping_mul(0x9E37_79B9_7F4A_7C15);
    }

    /// Adds a number, and that there is one; or that there is none.
    pub fn add_option(&mut self, number: Option<u64>) {
        match number {
            Some(number) => self.add(number.wrapping_add(1)),
            None => self.add(0),
        }
    }

    /// Adds bytes, and how many there are.
    pub fn add_bytes(&mut self, bytes: &[u8]) {
        self.add(bytes.len() as u64);
        let (words, rest) = bytes.as_chunks::<8>();
        for word in words {
            self.add(u64::from_le_bytes(*word));
        }
        let mut last = 0u64;
        for byte in rest {
            last = (last << 8) ^ u64::from(*byte);
        }
        self.add(last);
    }
}

/// A writer that keeps the digest of all that is written, however it is cut.
#[derive(Drop)]
pub struct DigestWriter {
    digest: Digest,
    // The bytes that fill no word yet, from the lowest on, and how many there are.
    word: u64,
    filled: u32,
}

impl DigestWriter {
    pub fn new() -> Self {
        DigestWriter {
            digest: Digest::new(),
            word: 0,
            filled: 0,
        }
    }

    /// The digest of all that was written.
    pub fn finish(&mut self) -> u64 {
        self.digest.add(self.word);
        self.digest.add(u64::from(self.filled));
        self.digest.get()
    }

    fn add_byte(&mut self, byte: u8) {
        self.word = (self.word << 8) ^ u64::from(byte);
        self.filled = self.filled.wrapping_add(1) % 8;
        if self.filled == 0 {
            self.digest.add(self.word);
            self.word = 0;
        }
    }

    // Adds a word of bytes, the first one lowest.
    fn add_word(&mut self, word: [u8; 8]) {
        let number = u64::from_be_bytes(word);
        let shift = self.filled % 8 * 8;
        if shift == 0 {
            self.digest.add(number);
            return;
        }
        self.digest
            .add((self.word << (64 - shift)) ^ (number >> shift));
        self.word = number & ((1 << shift) - 1);
    }
}

impl Write for DigestWriter {
    fn write(&mut self, buf: &[u8]) -> io::Result<usize> {
        let (words, rest) = buf.as_chunks::<8>();
        for word in words {
            self.add_word(*word);
        }
        for byte in rest {
            self.add_byte(*byte);
        }
        Ok(buf.len())
    }

    fn flush(&mut self) -> io::Result<()> {
        Ok(())
    }
}
