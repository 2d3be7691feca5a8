// The library's cases that are run and not proved, topic by topic, and the registry's old fault, shown gone. Each
// topic has a heading and a line for each case: what was given, and what came back.
#![tactic(auto)]

mod conversions;
mod lfos;
mod patches;
mod plans;
mod texts;
mod voices;

use std::io;
use streams::Streams;

// What was given, and a number that came back.
fn line(to: Streams, text: &str, n: u64) -> io::Result<()> {
    streams::print_line(to, b"", format_args!("{text}{n}"))
}

fn heading(to: Streams, text: &str) -> io::Result<()> {
    streams::print_line(to, b"", format_args!("# {text}"))
}

fn run(to: Streams) -> io::Result<()> {
    patches::run(to)?;
    conversions::run(to)?;
    plans::run(to)?;
    lfos::run(to)?;
    voices::run(to)?;
    texts::run(to)
}

fn main(rt: HostRuntime) {
    let to = Streams {
        out: rt.stdout(),
        err: rt.stderr(),
    };
    if let Err(error) = run(to) {
        streams::fail(to, b"standard output", &error);
    }
}
