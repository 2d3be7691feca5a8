// A file is read through a window, whatever its length, and cut into messages. Their lines stand in the file's order.
use crate::messages::Found;
use crate::{lines, messages};
use refusals::Refusal;
use std::io;
use std::io::Read;
use streams::{Streams, Window};

// A dump of 32 patches and a byte more: with as many waiting, a dump is seen whole, and whether it is all.
const NEEDED: usize = 4105;

// How many bytes wait.
fn waiting(w: Window) -> usize {
    w.end.saturating_sub(w.at)
}

// Whether more is to be read before the bytes that wait are looked at.
fn is_short(w: Window) -> bool {
    !w.ended && waiting(w) < NEEDED
}

// That a read failed.
fn tell_unread(to: Streams, name: &[u8], error: &io::Error) {
    if name.is_empty() {
        streams::fail(to, b"standard input", error);
    } else {
        streams::tell_why(to, name, b"cannot be read", error);
    }
}

// One read more. One that failed is told, and gives no window.
fn filled<R: Read>(
    from: &mut R,
    to: Streams,
    name: &[u8],
    buffer: &mut [u8],
    w: Window,
) -> Option<Window> {
    match w.refill(from, buffer) {
        Ok(more) => Some(more),
        Err(error) => {
            tell_unread(to, name, &error);
            None
        }
    }
}

// The window at a file's start; none where a read failed. Nothing says that a file ends, so the turns of this and of
// the other loops over files are counted, up to a number that no run comes to.
pub fn begin<R: Read>(from: &mut R, to: Streams, name: &[u8], buffer: &mut [u8]) -> Option<Window> {
    let mut w = Window::default();
    for _ in 0..u64::MAX {
        if !is_short(w) {
            break;
        }
        w = filled(from, to, name, buffer, w)?;
    }
    Some(w)
}

// Reads to the end, or up to a read that fails.
pub fn drain<R: Read>(from: &mut R) {
    let mut rest = [0u8; 4096];
    for _ in 0..u64::MAX {
        if !matches!(streams::read_full(from, &mut rest), Ok(4096)) {
            return;
        }
    }
}

// What the bytes before a place leave open: a message that is no dump, or so many bytes that begin no message.
#[derive(Clone, Copy)]
enum Open {
    Nothing,
    Message,
    Stray(u64),
}

// A walk through a file: the window, the place in the file of the first byte that waits, what is open there, and
// whether the walk is over.
#[derive(Drop)]
struct Walk<'a> {
    to: Streams,
    name: &'a [u8],
    window: Window,
    place: u64,
    open: Open,
    over: bool,
}

impl Walk<'_> {
    // On by some of the bytes that wait.
    fn pass(&mut self, size: usize) {
        self.window.at = self.window.at.wrapping_add(size);
        self.place = self.place.wrapping_add(size as u64);
    }

    // The bytes before this place that begin no message.
    fn tell_stray(&mut self, count: u64) {
        lines::tell_stray(self.to, self.name, self.place.wrapping_sub(count), count);
    }

    fn pass_message(&mut self, bytes: &[u8]) {
        let end = messages::message_end(bytes);
        self.pass(end.unwrap_or(bytes.len()));
        self.open = match end {
            Some(_) => Open::Nothing,
            None => Open::Message,
        };
    }

    fn pass_stray(&mut self, before: u64, bytes: &[u8]) {
        let end = messages::stray_end(bytes);
        let size = end.unwrap_or(bytes.len());
        let count = before.wrapping_add(size as u64);
        self.pass(size);
        self.open = match end {
            Some(_) => {
                self.tell_stray(count);
                Open::Nothing
            }
            None => Open::Stray(count),
        };
    }

    fn pass_bank(&mut self, bytes: &[u8]) -> io::Result<()> {
        let dump = bytes.get(..bank::DUMP_SIZE).unwrap_or(bytes);
        lines::print_dump(self.to, self.name, dump, self.place)?;
        self.pass(dump.len());
        Ok(())
    }

    fn pass_single(&mut self, bytes: &[u8]) -> io::Result<()> {
        let dump = bytes.get(..single::DUMP_SIZE).unwrap_or(bytes);
        lines::print_single(self.to, self.name, dump, self.place)?;
        self.pass(dump.len());
        Ok(())
    }

    // A message that is no dump has the wrong length for one.
    fn refuse_message(&mut self) {
        streams::tell_refusal_at(self.to, self.name, Refusal::WrongLength, self.place);
        self.pass(1);
        self.open = Open::Message;
    }

    // The end of a file.
    fn finish(&mut self) {
        if let Open::Stray(count) = self.open {
            self.tell_stray(count);
        }
        self.over = true;
    }

    // What begins at the first byte that waits.
    fn pass_next(&mut self, bytes: &[u8]) -> io::Result<()> {
        match messages::beginning(bytes) {
            Found::Bank => self.pass_bank(bytes)?,
            Found::Single => self.pass_single(bytes)?,
            Found::Message => self.refuse_message(),
            Found::Nothing => self.pass_stray(0, bytes),
        }
        Ok(())
    }

    // One step through the bytes that wait.
    fn step(&mut self, bytes: &[u8]) -> io::Result<()> {
        if bytes.is_empty() {
            self.finish();
            return Ok(());
        }
        match self.open {
            Open::Message => self.pass_message(bytes),
            Open::Stray(before) => self.pass_stray(before, bytes),
            Open::Nothing => self.pass_next(bytes)?,
        }
        Ok(())
    }

    // One read more. The walk is over where it failed.
    fn read<R: Read>(&mut self, from: &mut R, buffer: &mut [u8]) {
        match filled(from, self.to, self.name, buffer, self.window) {
            Some(more) => self.window = more,
            None => self.over = true,
        }
    }
}

// Whether a file of this length is one patch or one dump of either kind, or too short for all.
fn is_whole(size: usize) -> bool {
    size <= patch::SYX_SIZE || size == single::DUMP_SIZE || size == bank::DUMP_SIZE
}

// The lines of a file.
pub fn print_file<R: Read>(from: &mut R, to: Streams, name: &[u8]) -> io::Result<()> {
    let mut buffer = [0u8; 65536];
    let Some(window) = begin(from, to, name, &mut buffer) else {
        return Ok(());
    };
    if window.ended && is_whole(waiting(window)) {
        return lines::print_whole(to, name, window.waiting(&buffer));
    }
    let mut walk = Walk {
        to,
        name,
        window,
        place: 0,
        open: Open::Nothing,
        over: false,
    };
    for _ in 0..u64::MAX {
        if walk.over {
            break;
        }
        let window = walk.window;
        if is_short(window) {
            walk.read(from, &mut buffer);
        } else {
            walk.step(window.waiting(&buffer))?;
        }
    }
    Ok(())
}
