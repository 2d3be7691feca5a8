// Receives a bank over a slow line. Standard input is read as it comes, and each patch has its line on standard output
// as soon as its bytes are there: its slot, its name, and that it is provisional. The end of the input is the end of
// the dump: a last line says that it was sound and on which channel, or standard error that it is refused.
// docs/PROGRAMS.md has the lines.
#![tactic(auto)]

use bank_pieces::Receiver;
use std::io::Stdin;
use std::{array, io};
use streams::{Columns, Streams, Window};

// How far a run has come: the window over standard input, the reader of the dump, and whether it goes on.
#[derive(Clone, Copy)]
struct Run {
    window: Window,
    receiver: Receiver,
    going: bool,
}

// The name of a packed patch, its letters as they stand.
fn name(p: &[u8; 128]) -> [u8; 10] {
    array::from_fn(|k| p[118 + k])
}

// The line of the patch that is complete, if one is.
fn print_if_complete(to: Streams, complete: Option<u8>, patch: &[u8; 128]) -> io::Result<()> {
    let Some(slot) = complete else {
        return Ok(());
    };
    let columns = Columns {
        slot: slot as usize,
        name: name(patch),
    };
    streams::print_line(to, b"", format_args!("{columns}provisional"))
}

// What waits, up to the end of the patch at hand. The reader has not ended, so it is not refused, and takes at least a
// byte.
fn take(to: Streams, buffer: &[u8], patch: &mut [u8; 128], run: &mut Run) -> io::Result<()> {
    match bank_pieces::take(run.receiver, run.window.waiting(buffer), patch) {
        Ok(t) => {
            run.window.at = run.window.at.saturating_add(t.taken);
            run.receiver = t.receiver;
            print_if_complete(to, t.complete, patch)
        }
        Err(_) => Ok(()),
    }
}

// Whether the dump was sound.
fn say_end(to: Streams, receiver: Receiver) -> io::Result<()> {
    match bank_pieces::end(receiver) {
        Ok(ended) => {
            let channel = ended.channel;
            streams::print_line(to, b"", format_args!("sound, channel {channel}"))
        }
        Err(refused) => {
            streams::tell_line(to, b"", refused.refusal);
            Ok(())
        }
    }
}

// One read. A failed one is told, and where nothing more came the dump is over.
fn read(from: &mut Stdin, to: Streams, buffer: &mut [u8], run: &mut Run) -> io::Result<()> {
    match run.window.refill(from, buffer) {
        Ok(window) => {
            run.window = window;
            if window.ended {
                run.going = false;
                return say_end(to, run.receiver);
            }
        }
        Err(error) => {
            streams::fail(to, b"standard input", &error);
            run.going = false;
        }
    }
    Ok(())
}

// Turns until the dump is over: a patch of what waits, or a read where nothing does. Nothing says that the input ends,
// so turns are counted, up to a number that no run comes to.
fn receive(from: &mut Stdin, to: Streams) -> io::Result<()> {
    let mut buffer = [0u8; 4096];
    let mut patch = [0u8; 128];
    let mut run = Run {
        window: Window::default(),
        receiver: bank_pieces::open(),
        going: true,
    };
    for _ in 0..u64::MAX {
        if !run.going {
            break;
        }
        if run.window.at < run.window.end {
            take(to, &buffer, &mut patch, &mut run)?;
        } else {
            read(from, to, &mut buffer, &mut run)?;
        }
    }
    Ok(())
}

fn main(rt: HostRuntime) {
    let to = Streams {
        out: rt.stdout(),
        err: rt.stderr(),
    };
    if let Err(error) = receive(&mut rt.stdin(), to) {
        streams::fail(to, b"standard output", &error);
    }
}
