// Prints the chart of levels as a page: ten rows of ten, from the very numbers that an operator's level is looked up
// in. The page docs/LEVELS.md is this program's stored output, so page and code cannot come apart.

#![tactic(auto)]

use std::io;
use streams::{Line, Streams};

const WORDS: [&str; 8] = [
    "# The level chart",
    "",
    "The level of an operator, or of a stage of its envelope, from 0 to 99, in steps of 0.75 dB: 0 is the softest",
    "and 127 the loudest. A row's level and a column's are added: level 47, in row 40 under +7, has 75 steps.",
    "`./run chart` prints this page from the numbers in which the engine looks a level up.",
    "",
    "| level |  +0 |  +1 |  +2 |  +3 |  +4 |  +5 |  +6 |  +7 |  +8 |  +9 |",
    "|------:|----:|----:|----:|----:|----:|----:|----:|----:|----:|----:|",
];

// A row: the first of its levels, and the steps of all ten. The line is empty before and after.
fn print_row(to: Streams, line: &mut Line, level: usize, steps: &[u8]) -> io::Result<()> {
    line.put(format_args!("|   {level:3}"));
    for n in steps {
        line.put(format_args!(" | {n:3}"));
    }
    line.push(b" |");
    line.print(to)
}

fn print(to: Streams) -> io::Result<()> {
    let mut line = Line::led_by(b"");
    for words in WORDS {
        line.put(words);
        line.print(to)?;
    }
    let chart = dx_units_inner::level_chart();
    for (row, steps) in chart.chunks(10).enumerate() {
        print_row(to, &mut line, row * 10, steps)?;
    }
    Ok(())
}

fn main(rt: HostRuntime) {
    let to = Streams {
        out: rt.stdout(),
        err: rt.stderr(),
    };
    if let Err(error) = print(to) {
        streams::fail(to, b"standard output", &error);
    }
}
