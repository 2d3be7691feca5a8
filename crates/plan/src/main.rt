// The plan printer: reads one raw row of 4 or 6 bytes from standard input and prints its plan, or the line of its
// refusal, which standard error gets in words. Two bytes more than a row are read at most: more input than a row is a
// wrong length.
#![tactic(auto)]

use refusals::Refusal;
use std::io;
use std::io::Write;
use streams::Streams;

// The refusal in words. 3 and 4 name their operator, 2 names none.
fn tell_if_refused(to: Streams, row: &[u8]) {
    match algorithms::compile_row(row.len(), algorithms::six_bytes(row)) {
        Ok(_) => {}
        Err(Refusal::WrongTable) => streams::tell_line(to, b"", Refusal::WrongTable),
        Err(refusal) => {
            let operator = refusal.place();
            streams::tell_line(to, b"", format_args!("{refusal}, at operator {operator}"));
        }
    }
}

// The plan of a row, and in words why it is refused.
fn print(to: Streams, row: &[u8]) -> io::Result<()> {
    let mut out = [0u8; 160];
    let n = plan_text::print(row, &mut out);
    to.out.write_all(out.get(..n).unwrap_or(&[]))?;
    tell_if_refused(to, row);
    Ok(())
}

fn main(rt: HostRuntime) {
    let to = Streams {
        out: rt.stdout(),
        err: rt.stderr(),
    };
    let mut bytes = [0u8; 8];
    match streams::read_full(&mut rt.stdin(), &mut bytes) {
        Ok(got) => {
            if let Err(error) = print(to, &bytes[..got]) {
                streams::fail(to, b"standard output", &error);
            }
        }
        Err(error) => streams::fail(to, b"standard input", &error),
    }
}
