// Prints the identifiers of the patches on standard input or in the files that its words name. Standard input holds
// one packed patch of 128 bytes, one single-voice dump of 163 or one dump of 32; a file may also hold several dumps. A
// line for each patch goes to standard output: its slot, its name and its identifier. What is refused or cannot be
// read has a line on standard error. docs/PROGRAMS.md has both.
#![tactic(auto)]

use std::env::FillError;
use std::io::Stdin;
use std::rt::{Env, Files};
use std::{fs, io};
use streams::Streams;

mod files;
mod lines;
mod messages;

// Standard input holds one patch or one dump: what is longer is read to its end and has the wrong length however long
// it is.
fn standard_input(from: &mut Stdin, to: Streams) -> io::Result<()> {
    let mut buffer = [0u8; 65536];
    let Some(w) = files::begin(from, to, b"", &mut buffer) else {
        return Ok(());
    };
    if !w.ended {
        files::drain(from);
    }
    lines::print_whole(to, b"", w.waiting(&buffer))
}

// The file of a name. One that is no text cannot be opened.
fn opened<R: Files>(rt: &R, name: &[u8]) -> io::Result<R::File> {
    match str::from_utf8(name) {
        Ok(path) => fs::open(rt, path),
        Err(_) => Err(io::Error::from(io::ErrorKind::InvalidFilename)),
    }
}

// The lines of a named file.
fn file<R: Files>(rt: &R, to: Streams, name: &[u8]) -> io::Result<()> {
    match opened(rt, name) {
        Ok(mut from) => files::print_file(&mut from, to, name),
        Err(error) => {
            streams::tell_why(to, name, b"cannot be opened", &error);
            Ok(())
        }
    }
}

// The file of each word, from the first on.
fn each_file<R: Files + Env>(rt: &R, to: Streams) -> io::Result<()> {
    let mut path = [0u8; 4096];
    for word in 1..usize::MAX {
        match rt.arg(word, &mut path) {
            Ok(n) => file(rt, to, &path[..n])?,
            Err(FillError::TooLong) => {
                streams::tell_line(to, b"", "a file's name: File name too long");
            }
            Err(FillError::NotPresent) => break,
        }
    }
    Ok(())
}

// Whether the program was given a word.
fn has_words<R: Env>(rt: &R) -> bool {
    let mut word = [0u8; 1];
    !matches!(rt.arg(1, &mut word), Err(FillError::NotPresent))
}

fn main(rt: HostRuntime) {
    let to = Streams {
        out: rt.stdout(),
        err: rt.stderr(),
    };
    let done = if has_words(&rt) {
        each_file(&rt, to)
    } else {
        standard_input(&mut rt.stdin(), to)
    };
    if let Err(error) = done {
        streams::fail(to, b"standard output", &error);
    }
}
