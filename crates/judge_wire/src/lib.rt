// The bytes of a script and of its answers (docs/ORACLE.md): numbers of one to eight bytes, least first. Past the end of
// what is read stand zeros, and past the end of what is written nothing is written.
#![tactic(auto)]

ghost use Rattle.std.specs.Prelude.{◌≡◌};
ghost use Rattle.std.specs.Result.{result_unwrap_or};

use refusals::{Refusal, Refused};

// What is read: each method takes what it answers from the front.
#[derive(Clone, Copy)]
pub struct Fields<'a> {
    rest: &'a [u8],
}

impl<'a> Fields<'a> {
    pub fn new(bytes: &'a [u8]) -> Self {
        Fields { rest: bytes }
    }

    pub fn byte(&mut self) -> u8 {
        let Some((first, rest)) = self.rest.split_first() else {
            return 0;
        };
        self.rest = rest;
        *first
    }

    pub fn flag(&mut self) -> bool {
        self.byte() != 0
    }

    // Stays: all at once where they are there, else byte by byte, which takes twice as long.
    pub fn bytes<const N: usize>(&mut self) -> [u8; N] {
        if let Some((bytes, rest)) = self.rest.split_first_chunk() {
            self.rest = rest;
            return *bytes;
        }
        let mut bytes = [0; N];
        for b in bytes.iter_mut() {
            *b = self.byte();
        }
        bytes
    }

    pub fn half(&mut self) -> u16 {
        u16::from_le_bytes(self.bytes())
    }

    pub fn word(&mut self) -> u32 {
        u32::from_le_bytes(self.bytes())
    }

    pub fn eight(&mut self) -> u64 {
        u64::from_le_bytes(self.bytes())
    }

    // A float by its bits.
    pub fn float(&mut self) -> f32 {
        numbers::f32_from_bits(self.word())
    }

    pub fn floats<const N: usize>(&mut self) -> [f32; N] {
        let mut floats = [0.0; N];
        for x in floats.iter_mut() {
            *x = self.float();
        }
        floats
    }

    // So many bytes; none where there are fewer.
    pub fn part(&mut self, size: usize) -> &'a [u8] {
        if self.rest.len() < size {
            return &self.rest[..0];
        }
        let (part, rest) = self.rest.split_at(size);
        self.rest = rest;
        part
    }

    // A slice, its length in two bytes first.
    pub fn slice(&mut self) -> &'a [u8] {
        let size = self.half();
        self.part(size as usize)
    }
}

// What is written: each method puts its argument behind what stands there.
#[derive(Drop)]
pub struct Answer<'a> {
    out: &'a mut [u8],
    at: usize,
}

impl<'a> Answer<'a> {
    pub fn new(out: &'a mut [u8]) -> Self {
        Answer { out, at: 0 }
    }

    pub fn byte(&mut self, b: u8) {
        if self.at < self.out.len() {
            self.out[self.at] = b;
            self.at += 1;
        }
    }

    // 1 for true and 0 for false.
    pub fn flag(&mut self, b: bool) {
        self.byte(u8::from(b));
    }

    // Stays: all at once where there is room for all, as above.
    pub fn bytes(&mut self, bytes: &[u8]) {
        let end = self.at.saturating_add(bytes.len());
        if let Some(room) = self.out.get_mut(self.at..end) {
            if room.len() == bytes.len() {
                room.copy_from_slice(bytes);
                self.at = end;
                return;
            }
        }
        for b in bytes {
            self.byte(*b);
        }
    }

    pub fn word(&mut self, n: u32) {
        self.bytes(&n.to_le_bytes());
    }

    pub fn eight(&mut self, n: u64) {
        self.bytes(&n.to_le_bytes());
    }

    // A float's bits.
    pub fn float(&mut self, x: f32) {
        self.word(numbers::f32_to_bits(x));
    }

    pub fn floats(&mut self, floats: &[f32]) {
        for x in floats {
            self.float(*x);
        }
    }

    // The length of a slice, in two bytes.
    pub fn length(&mut self, n: usize) {
        self.bytes(&((n % 65536) as u16).to_le_bytes());
    }

    // A slice, its length first.
    pub fn slice(&mut self, bytes: &[u8]) {
        self.length(bytes.len());
        self.bytes(bytes);
    }

    // The number of an answer, 0 for one that is no refusal; the answer is the state that a caller goes on with.
    pub fn told<T>(&mut self, done: Result<T, Refused<T>>) -> T {
        match done {
            Ok(state) => {
                self.byte(0);
                state
            }
            Err(refused) => {
                self.byte(refused.refusal.number());
                refused.state
            }
        }
    }

    // The number of an answer likewise; the answer is its value, or zeros in its place.
    pub fn value<T: Copy>(&mut self, done: Result<T, Refusal>, zeros: T) -> T
        ensures { result ≡ result_unwrap_or done zeros }
    {
        match done {
            Ok(value) => {
                self.byte(0);
                value
            }
            Err(refusal) => {
                self.byte(refusal.number());
                zeros
            }
        }
    }

    // How many bytes were written.
    pub fn size(&self) -> usize {
        self.at
    }
}
