// The plan printer on many rows: examples, refused rows, wrong lengths, and rows of both built-in
// tables. Each text ends in the line of its own that the printer ends it with.
use crate::heading;
use std::io;
use std::io::Write;
use streams::Streams;

fn show(to: Streams, bytes: &[u8]) -> io::Result<()> {
    let mut out = [0u8; 160];
    let size = plan_text::print(bytes, &mut out);
    to.out.write_all(out.get(..size).unwrap_or(&[]))
}

// Four operators: a row, refused rows, and every algorithm.
fn four(to: Streams) -> io::Result<()> {
    show(to, &[0x71, 0x14, 0x01, 0x14])?;
    show(to, &[0x31, 0x11, 0x54, 0x04])?;
    show(to, &[0x11, 0x01, 0x11, 0x14])?;
    for row in algorithms_opcodes::opcodes_4_8().chunks(4) {
        show(to, row)?;
    }
    Ok(())
}

// Six operators: a chain of three, and every algorithm.
fn six(to: Streams) -> io::Result<()> {
    show(to, &[0x31, 0x11, 0x54, 0x01, 0x11, 0x14])?;
    for row in algorithms_opcodes::opcodes_6_32().chunks(6) {
        show(to, row)?;
    }
    Ok(())
}

fn wrong_lengths(to: Streams) -> io::Result<()> {
    let bytes = [0x71u8, 0x14, 0x01, 0x14, 0x04, 0x04, 0x04];
    show(to, &bytes[..0])?;
    show(to, &bytes[..1])?;
    show(to, &bytes[..3])?;
    show(to, &bytes[..5])?;
    show(to, &bytes[..7])
}

// The add flag on an unset buffer, a buffer read before it is set by the same call, scratch 3, a refusal behind the
// first call, and the bits that are ignored.
fn odd(to: Streams) -> io::Result<()> {
    show(to, &[0x05, 0x01, 0x11, 0x14])?;
    show(to, &[0x01, 0x11, 0x25, 0x14])?;
    show(to, &[0x03, 0x07, 0x34, 0x04])?;
    show(to, &[0x04, 0x30, 0x04, 0x04])?;
    show(to, &[0xf9, 0x9c, 0x89, 0x9c])
}

pub fn run(to: Streams) -> io::Result<()> {
    heading(to, "plans")?;
    four(to)?;
    six(to)?;
    wrong_lengths(to)?;
    odd(to)
}
