// The judge's entries 98 to 9a (hex, docs/ORACLE.md): the crate `bank_pieces`. The reader and the buffer that is lent
// to it are the register's; no answer writes them.
#![tactic(auto)]

use bank_pieces::{Receiver, Taken};
use judge_wire::{Answer, Fields};

// The reader of a bank in pieces, and the buffer that goes with it.
#[derive(Clone, Copy)]
pub struct Reading {
    pub receiver: Receiver,
    pub buffer: [u8; 128],
}

impl Reading {
    // What stands in a register of zeros: a reader before the first byte.
    pub fn new() -> Self {
        Reading {
            receiver: bank_pieces::open(),
            buffer: [0; 128],
        }
    }
}

// The length of the call whose fields these are, its entry's byte included; 0 for no entry of this crate.
pub fn length(entry: u8, mut fields: Fields<'_>) -> usize {
    match entry {
        0x98 | 0x9a => 1,
        0x99 => 3 + fields.half() as usize,
        _ => 0,
    }
}

// Writes what the call answers.
pub fn answer(entry: u8, fields: &mut Fields<'_>, reading: &mut Reading, out: &mut Answer<'_>) {
    match entry {
        0x98 => *reading = Reading::new(),
        0x99 => take(fields.slice(), reading, out),
        _ => end(&mut reading.receiver, out),
    }
}

// A patch is written as zeros where none is complete.
fn take(piece: &[u8], reading: &mut Reading, out: &mut Answer<'_>) {
    let (number, done) = match bank_pieces::take(reading.receiver, piece, &mut reading.buffer) {
        Ok(done) => (0, done),
        Err(refused) => (
            refused.refusal.number(),
            Taken {
                receiver: refused.state,
                taken: 0,
                complete: None,
            },
        ),
    };
    reading.receiver = done.receiver;
    out.byte(number);
    out.word((done.taken % 0x1_0000_0000) as u32);
    out.flag(done.complete.is_some());
    out.byte(done.complete.unwrap_or(0));
    let patch = if done.complete.is_some() {
        reading.buffer
    } else {
        [0; 128]
    };
    out.bytes(&patch);
}

fn end(receiver: &mut Receiver, out: &mut Answer<'_>) {
    match bank_pieces::end(*receiver) {
        Ok(ended) => {
            *receiver = ended.receiver;
            out.bytes(&[0, ended.channel]);
        }
        Err(refused) => {
            *receiver = refused.state;
            out.bytes(&[refused.refusal.number(), 0]);
        }
    }
}
