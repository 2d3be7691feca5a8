// Refusals: why an entry gives no answer, its number and its words. Added by us: no Rust file. An entry that is given a
// state hands it back in a refusal. `text` writes a number's words, `refused 13: wrong checksum`, as bytes at the start
// of a lent buffer: it promises the definition's text for every number, and that what stood behind it stays.
#![tactic(auto)]

ghost use Rattle.std.specs.Prelude.{◌≡◌, ◌+◌, ◌≤◌, length, Some};
ghost use Rattle.refusals.specs.Answer.{number_of, place_of};
ghost use Rattle.refusals.specs.Refusals.{Begins, decimal, letters, refusal, words_of};
ghost use Rattle.refusals.specs.Refusals.{digit as Refusals·digit};
ghost use Rattle.refusals.specs.Refusals.{Put};

use std::error::Error;
use std::fmt;

// Why an entry gives no answer. 3 and 4 name the operator at which a row cannot go on.
#[derive(Clone, Copy, Debug, PartialEq, Eq, Hash)]
pub enum Refusal {
    ShortPatch,
    WrongTable,
    NoRenderer(u8),
    UnsetBuffer(u8),
    SampleRate,
    Field,
    Parameter,
    BlockLength,
    ForeignState,
    WrongLength,
    FrameByte,
    HighByte,
    Checksum,
}

impl Refusal {
    // The number by which documents, scripts and hosts know it.
    pub fn number(self) -> u8
        ensures { result ≡ number_of self }
    {
        match self {
            Refusal::ShortPatch => 1,
            Refusal::WrongTable => 2,
            Refusal::NoRenderer(_) => 3,
            Refusal::UnsetBuffer(_) => 4,
            Refusal::SampleRate => 5,
            Refusal::Field => 6,
            Refusal::Parameter => 7,
            Refusal::BlockLength => 8,
            Refusal::ForeignState => 9,
            Refusal::WrongLength => 10,
            Refusal::FrameByte => 11,
            Refusal::HighByte => 12,
            Refusal::Checksum => 13,
        }
    }

    // The operator that 3 and 4 name; 0 with every other number.
    pub fn place(self) -> u8
        ensures { result ≡ place_of self }
    {
        match self {
            Refusal::NoRenderer(at) | Refusal::UnsetBuffer(at) => at,
            _ => 0,
        }
    }

    // What it says.
    pub fn words(self) -> &'static str
        ensures { result.now ≡ letters (words_of (number_of self)) }
    {
        sentence(self.number())
    }
}

// The words of a number; 0 refuses nothing.
fn sentence(number: u8) -> &'static str
    ensures { result.now ≡ letters (words_of number) }
{
    match number {
        0 => "nothing",
        1 => "patch shorter than 128 bytes",
        2 => "wrong number of operators, table, row or slot",
        3 => "a call has no renderer",
        4 => "a call reads or adds to an unset buffer",
        5 => "sample rate outside 8,000 to 192,000",
        6 => "a field above its largest number",
        7 => "a parameter outside its range",
        8 => "block of a wrong length",
        9 => "a state that no call has left",
        10 => "wrong length",
        11 => "wrong frame byte",
        12 => "data byte above 127",
        13 => "wrong checksum",
        _ => "no such number",
    }
}

// The text that programs print. It promises the words that `text` writes.
impl fmt::Display for Refusal {
    ghost output = { λ r. Some (refusal (number_of r)) };

    fn fmt<W: fmt::Write>(&self, f: &mut fmt::Formatter<W>) -> fmt::Result {
        let number = self.number();
        let words = self.words();
        write!(f, "refused {number}: {words}")
    }
}

impl Error for Refusal {}

// A refusal of an entry that was given a state, and that state as it came.
#[derive(Clone, Copy, Debug)]
pub struct Refused<T> {
    pub refusal: Refusal,
    pub state: T,
}

// For `?` where the state is let go.
impl<T: Copy> From<Refused<T>> for Refusal {
    ghost from_gives = { λ r e. e ≡ r.refusal };

    fn from(r: Refused<T>) -> Refusal {
        r.refusal
    }
}

// The bytes that a text takes at most, with room to spare.
pub const ROOM: usize = 64;

fn digit(n: u8) -> u8
    ensures { result ≡ Refusals·digit n }
{
    48 + n % 10
}

// A piece of text at a place; the answer is the place behind it.
fn put(out: &mut [u8; ROOM], at: usize, piece: &[u8]) -> usize
    requires { at + length piece.now ≤ 64 }
    ensures { Put out.old at piece.now out.new result }
{
    let end = at + piece.len();
    out[at..end].copy_from_slice(piece);
    end
}

fn put_number(out: &mut [u8; ROOM], at: usize, n: u8) -> usize
    requires { at + 3 ≤ 64 }
    ensures { Put out.old at (decimal n) out.new result }
{
    let ones = digit(n);
    if n < 10 {
        return put(out, at, &[ones]);
    }
    let tens = digit(n / 10);
    if n < 100 {
        return put(out, at, &[tens, ones]);
    }
    let hundreds = digit(n / 100);
    put(out, at, &[hundreds, tens, ones])
}

// The text of a refusal; the answer is its length. Any number has one, also those that refuse nothing.
pub fn text(number: u8, out: &mut [u8; ROOM]) -> usize
    ensures { Begins out.old (refusal number) out.new result }
{
    let a = put(out, 0, b"refused ");
    let b = put_number(out, a, number);
    let c = put(out, b, b": ");
    put(out, c, sentence(number).as_bytes())
}
