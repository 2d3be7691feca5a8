// What programs share at their edge: a line put together in a buffer and then written by one call, the columns that lead
// the line of a patch, and a window over what is read. Results go to standard output and what is wrong to standard
// error. No contract can say what is read or written: these functions are proved safe and ending, and need nothing of
// their callers.
#![tactic(auto)]

ghost use Rattle.std.specs.Prelude.{◌≤◌, length, IfOk};

use refusals::Refusal;
use std::fmt::Display;
use std::io::{Read, Stderr, Stdout, Write};
use std::{fmt, io};

// Room for a line: a file's name, and what follows it.
const LINE: usize = 4352;

// Where a program's lines go.
#[derive(Clone, Copy)]
pub struct Streams {
    pub out: Stdout,
    pub err: Stderr,
}

// A line as it is put together; what has no room is left out.
#[derive(Drop)]
pub struct Line {
    bytes: [u8; LINE],
    size: usize,
    ghost fits: { size ≤ 4352 },
}

impl Line {
    // A line that a file's name leads, with a tab behind it; standard input has no name.
    pub fn led_by(name: &[u8]) -> Self {
        let mut line = Line {
            bytes: [0; LINE],
            size: 0,
        };
        if !name.is_empty() {
            line.push(name);
            line.push(b"\t");
        }
        line
    }

    pub fn push(&mut self, piece: &[u8]) {
        let n = piece.len().min(LINE - self.size);
        let end = self.size + n;
        self.bytes[self.size..end].copy_from_slice(&piece[..n]);
        self.size = end;
    }

    pub fn put<D: Display + Drop>(&mut self, text: D) {
        let mut rest: &mut [u8] = &mut self.bytes[self.size..];
        let _ = rest.write_fmt(text);
        let left = rest.len();
        self.size = LINE.saturating_sub(left);
    }

    // Why a call failed, up to where the system's number stands behind its words.
    pub fn put_reason(&mut self, error: &io::Error) {
        let mut text = [0u8; 256];
        let mut rest: &mut [u8] = &mut text;
        let _ = rest.write_fmt(*error);
        let left = rest.len();
        let end = text.len().saturating_sub(left);
        let words = str::from_utf8(&text[..end]).unwrap_or("");
        self.put(
            words
                .split_once(" (os error ")
                .map_or(words, |(before, _)| before),
        );
    }

    // To standard output, by one call, so that the lines of several processes do not mix. It is empty afterwards, for
    // the next line, whose room need not be cleared again.
    pub fn print(&mut self, to: Streams) -> io::Result<()> {
        self.push(b"\n");
        let size = self.size;
        self.size = 0;
        to.out.write_all(&self.bytes[..size])
    }

    // To standard error, likewise. Where that fails there is nowhere to tell it.
    pub fn tell(&mut self, to: Streams) {
        self.push(b"\n");
        let size = self.size;
        self.size = 0;
        let _ = to.err.write_all(&self.bytes[..size]);
    }
}

// A line to standard output, led by a name.
pub fn print_line<D: Display + Drop>(to: Streams, name: &[u8], text: D) -> io::Result<()> {
    let mut line = Line::led_by(name);
    line.put(text);
    line.print(to)
}

// A line to standard error, likewise.
pub fn tell_line<D: Display + Drop>(to: Streams, name: &[u8], text: D) {
    let mut line = Line::led_by(name);
    line.put(text);
    line.tell(to);
}

// What failed with a named file, and why.
pub fn tell_why(to: Streams, name: &[u8], what: &[u8], error: &io::Error) {
    let mut line = Line::led_by(name);
    line.push(what);
    line.push(b": ");
    line.put_reason(error);
    line.tell(to);
}

// What failed, and why.
pub fn fail(to: Streams, what: &[u8], error: &io::Error) {
    tell_why(to, b"", what, error);
}

// A refusal of what begins at a byte of a file; standard input has no places.
pub fn tell_refusal_at(to: Streams, name: &[u8], refusal: Refusal, place: u64) {
    if name.is_empty() {
        tell_line(to, name, refusal);
    } else {
        tell_line(to, name, format_args!("{refusal}, at byte {place}"));
    }
}

// The first two columns of a patch's line: the slot's last two digits and the name, each with a space behind it.
#[derive(Clone, Copy)]
pub struct Columns {
    pub slot: usize,
    pub name: [u8; 10],
}

// A letter as it is printed: '.' for one outside 20 to 7E.
fn printable(letter: u8) -> char {
    if (0x20..=0x7e).contains(&letter) {
        char::from(letter)
    } else {
        '.'
    }
}

impl fmt::Display for Columns {
    fn fmt<W: fmt::Write>(&self, f: &mut fmt::Formatter<W>) -> fmt::Result {
        write!(f, "{:02} ", self.slot % 100)?;
        for letter in &self.name {
            f.write_char(printable(*letter))?;
        }
        f.write_char(' ')
    }
}

// A window over what is read: the bytes from `at` up to `end` of its buffer wait. `ended` says that no more will
// come.
#[derive(Clone, Copy, Default)]
pub struct Window {
    pub at: usize,
    pub end: usize,
    pub ended: bool,
}

impl Window {
    // The bytes that wait.
    pub fn waiting<'a>(&self, buffer: &'a [u8]) -> &'a [u8] {
        let end = self.end.min(buffer.len());
        let at = self.at.min(end);
        &buffer[at..end]
    }

    // One read behind the bytes that wait, which it moves to the buffer's start. A full buffer ends the window.
    pub fn refill<R: Read>(&self, from: &mut R, buffer: &mut [u8]) -> io::Result<Window>
        ensures { IfOk result (λ next. next.end ≤ length buffer.new) }
    {
        let end = self.end.min(buffer.len());
        let at = self.at.min(end);
        buffer.copy_within(at..end, 0);
        let held = end - at;
        let more = from.read(&mut buffer[held..])?;
        Ok(Window {
            at: 0,
            end: held + more,
            ended: more == 0,
        })
    }
}

// Reads until a buffer is full or no more comes; the answer is how many bytes it put at the buffer's start.
pub fn read_full<R: Read>(from: &mut R, buffer: &mut [u8]) -> io::Result<usize>
    ensures { IfOk result (λ n. n ≤ length buffer.new) }
{
    let mut held = 0usize;
    while held < buffer.len() {
        let more = from.read(&mut buffer[held..])?;
        if more == 0 {
            break;
        }
        held += more;
    }
    Ok(held)
}
