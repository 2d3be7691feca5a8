// Reads a script of calls from standard input and writes every answer to standard output, in the format of
// docs/ORACLE.md. The last line says how the script ended, and standard error gets that line too where it did not end
// behind a whole call. The script is streamed: what is held is one buffer of it and one of answers.
#![tactic(auto)]

ghost use Rattle.std.specs.Prelude.{◌≤◌, length};

use calls::{Outcome, Registers};
use std::io::{Stdin, Write};
use std::{fmt, io};
use streams::{Streams, Window};

mod calls;

// Every answer fits in this many bytes.
const ROOM: usize = 24576;

// How far a run has come: the window over the script, the calls answered, and whether it goes on.
#[derive(Clone, Copy)]
struct Run {
    window: Window,
    calls: u64,
    going: bool,
}

// What was answered of a buffer: the bytes taken, the bytes of the answers, the calls answered up
// to now, and the byte of the next call where it names no entry.
#[derive(Clone, Copy)]
struct Progress {
    at: usize,
    put: usize,
    calls: u64,
    unknown: Option<u8>,
}

// Answers the whole calls of the script while the answers have room.
fn answer_all(script: &[u8], registers: &mut Registers, answers: &mut [u8], before: u64) -> Progress
    ensures { (result.at ≤ length script.now) × (result.put ≤ length answers.old) }
{
    let mut at: usize = 0;
    let mut put: usize = 0;
    let mut calls = before;
    while at < script.len() && ROOM <= answers.len() - put {
        match calls::answer(&script[at..], registers, &mut answers[put..]) {
            Outcome::Answered { read, wrote } => {
                at += read.clamp(1, script.len() - at);
                put += wrote.min(answers.len() - put);
                calls = calls.wrapping_add(1);
            }
            Outcome::CutShort => break,
            Outcome::Unknown(entry) => {
                return Progress {
                    at,
                    put,
                    calls,
                    unknown: Some(entry),
                };
            }
        }
    }
    Progress {
        at,
        put,
        calls,
        unknown: None,
    }
}

// How a script ended that should not have.
#[derive(Clone, Copy)]
enum Wrong {
    UnknownEntry { entry: u8, call: u64 },
    CutShort { call: u64 },
}

impl fmt::Display for Wrong {
    fn fmt<W: fmt::Write>(&self, f: &mut fmt::Formatter<W>) -> fmt::Result {
        match self {
            Wrong::UnknownEntry { entry, call } => {
                write!(f, "script names unknown entry {entry} in call {call}")
            }
            Wrong::CutShort { call } => write!(f, "script cut short in call {call}"),
        }
    }
}

// The last line of such a script, on both streams.
fn say_wrong(to: Streams, wrong: Wrong) -> io::Result<()> {
    streams::print_line(to, b"", wrong)?;
    streams::tell_line(to, b"", wrong);
    Ok(())
}

// Whether the run is over, which is then said: the next call names no entry, or nothing more was read and either
// nothing is left or what is left is no whole call.
fn is_over(to: Streams, script: &[u8], done: Progress, more: bool) -> io::Result<bool> {
    let calls = done.calls;
    let call = calls.wrapping_add(1);
    if let Some(entry) = done.unknown {
        say_wrong(to, Wrong::UnknownEntry { entry, call })?;
        return Ok(true);
    }
    if more {
        return Ok(false);
    }
    if done.at == script.len() {
        streams::print_line(to, b"", format_args!("script ended after {calls} calls"))?;
        return Ok(true);
    }
    if done.at == 0 {
        say_wrong(to, Wrong::CutShort { call })?;
        return Ok(true);
    }
    Ok(false)
}

// Answers the whole calls of what was read, and sends the answers.
fn answer_window(
    to: Streams,
    script: &[u8],
    registers: &mut Registers,
    answers: &mut [u8],
    run: &mut Run,
) -> io::Result<()> {
    let done = answer_all(script, registers, answers, run.calls);
    to.out.write_all(answers.get(..done.put).unwrap_or(&[]))?;
    run.going = !is_over(to, script, done, !run.window.ended)?;
    run.window.at = done.at;
    run.calls = done.calls;
    Ok(())
}

// Reads what there is, answers its whole calls and keeps the rest. A read that fails is told and ends the run.
fn turn(
    from: &mut Stdin,
    to: Streams,
    script: &mut [u8],
    registers: &mut Registers,
    answers: &mut [u8],
    run: &mut Run,
) -> io::Result<()> {
    match run.window.refill(from, script) {
        Ok(window) => {
            run.window = window;
            let held = script.get(..window.end).unwrap_or(&[]);
            answer_window(to, held, registers, answers, run)
        }
        Err(error) => {
            streams::fail(to, b"standard input", &error);
            run.going = false;
            Ok(())
        }
    }
}

// Turns until the script is over. Nothing says that the input ends, so turns are counted, up to a number that no run
// comes to.
fn replay(from: &mut Stdin, to: Streams) -> io::Result<()> {
    let mut script = [0u8; 65536];
    let mut answers = [0u8; 65536];
    let mut registers = Registers::new();
    let mut run = Run {
        window: Window::default(),
        calls: 0,
        going: true,
    };
    for _ in 0..u64::MAX {
        if !run.going {
            break;
        }
        turn(
            from,
            to,
            &mut script,
            &mut registers,
            &mut answers,
            &mut run,
        )?;
    }
    Ok(())
}

fn main(rt: HostRuntime) {
    let to = Streams {
        out: rt.stdout(),
        err: rt.stderr(),
    };
    if let Err(error) = replay(&mut rt.stdin(), to) {
        streams::fail(to, b"standard output", &error);
    }
}
