// Conversions: level 100 is refused with 6, pitch level 18 is -1 and 82 slightly above 1. A field is refused before a
// parameter.
use crate::heading;
use refusals::Refusal;
use std::{fmt, io};
use streams::Streams;

// A float in millionths, cut; a NaN by name.
#[derive(Clone, Copy)]
struct Millionths(f32);

impl fmt::Display for Millionths {
    fn fmt<W: fmt::Write>(&self, f: &mut fmt::Formatter<W>) -> fmt::Result {
        let x = self.0;
        if x.is_nan() {
            return f.write_str("NaN");
        }
        let sign = if x < 0.0 { "-" } else { "" };
        let n = numbers::f32_as_u32(numbers::f32_abs(x) * 1000000.0);
        write!(f, "{sign}{n} millionths")
    }
}

// What is given, and the answer to it.
fn answered<D: fmt::Display + Drop, A: fmt::Display + Drop>(
    to: Streams,
    given: D,
    answer: Result<A, Refusal>,
) -> io::Result<()> {
    match answer {
        Ok(value) => streams::print_line(to, b"", format_args!("{given} is {value}")),
        Err(refusal) => {
            let number = refusal.number();
            streams::print_line(to, b"", format_args!("{given} is refused with {number}"))
        }
    }
}

fn level(to: Streams, n: u8) -> io::Result<()> {
    answered(to, format_args!("level {n}"), dx_units::operator_level(n))
}

fn octaves(to: Streams, n: u8) -> io::Result<()> {
    answered(
        to,
        format_args!("pitch level {n}"),
        dx_units::pitch_envelope_level(n).map(Millionths),
    )
}

fn scaling(to: Streams, n: u8, note: f32) -> io::Result<()> {
    let millionths = Millionths(note);
    answered(
        to,
        format_args!("rate scaling {n} at note {millionths}"),
        dx_units::rate_scaling(note, n).map(Millionths),
    )
}

pub fn run(to: Streams) -> io::Result<()> {
    heading(to, "conversions")?;
    level(to, 99)?;
    level(to, 100)?;
    octaves(to, 18)?;
    octaves(to, 50)?;
    octaves(to, 82)?;
    scaling(to, 0, 127.0)?;
    scaling(to, 0, 127.5)?;
    scaling(to, 0, f32::NAN)?;
    scaling(to, 8, f32::NAN)
}
