// The text of every number's refusal, and of numbers that have none.
use crate::heading;
use std::io;
use streams::{Line, Streams};

fn text(to: Streams, number: u8) -> io::Result<()> {
    let mut out = [0u8; refusals::ROOM];
    let size = refusals::text(number, &mut out);
    let mut line = Line::led_by(b"");
    line.push(out.get(..size).unwrap_or(&[]));
    line.print(to)
}

pub fn run(to: Streams) -> io::Result<()> {
    heading(to, "texts of refusals")?;
    for number in 0..15 {
        text(to, number)?;
    }
    text(to, 99)?;
    text(to, 255)
}
