// One call of a script: its length, and its answer, which the crate of its group writes.
use envelope_inner::Envelope;
use judge_pieces::Reading;
use judge_wire::{Answer, Fields};
use lfo_inner::Motion;
use patch::Patch;
use voice::Voice;

// What stands before an answer: the entry's byte, and how many bytes follow, in four.
const HEAD: usize = 5;

// The states that live between calls.
#[derive(Clone, Copy)]
pub struct Registers {
    patch: Patch,
    envelope: Envelope,
    lfo: Motion,
    voice: Voice,
    reading: Reading,
}

impl Registers {
    // At the start all is zero but the generator's number, which is the Rust's first one.
    pub fn new() -> Self {
        let zeros = [0; 1024];
        let lfo = judge_lfos::read_lfo(&mut Fields::new(&zeros));
        Registers {
            patch: Patch::new(),
            envelope: judge_envelopes::read_envelope(&mut Fields::new(&zeros)),
            lfo: Motion { lfo, state: 0x21 },
            voice: judge_voices::read_voice(&mut Fields::new(&zeros)),
            reading: Reading::new(),
        }
    }
}

// What became of the call at the start of a script.
#[derive(Clone, Copy)]
pub enum Outcome {
    // The bytes that it took, and those of its answer.
    Answered { read: usize, wrote: usize },
    // The script ends inside it.
    CutShort,
    // Its byte names no entry.
    Unknown(u8),
}

// The length of the call whose fields these are, by its entry; 0 for no entry.
fn call_length(entry: u8, fields: Fields<'_>) -> usize {
    match entry {
        0x24..=0x28 | 0x2a => judge_banks::length(entry, fields),
        0x20..=0x2f => judge_patches::length(entry, fields),
        0x50..=0x57 | 0x70..=0x72 => judge_rows::length(entry, fields),
        0x58..=0x5f | 0x74..=0x77 => judge_envelopes::length(entry),
        0x60..=0x6f => judge_lfos::length(entry),
        0x80..=0x8f => judge_voices::length(entry, fields),
        0x90..=0x93 => judge_single::length(entry, fields),
        0x98..=0x9a => judge_pieces::length(entry, fields),
        _ => judge_units::length(entry),
    }
}

// Writes what the call answers.
fn put_body(entry: u8, fields: &mut Fields<'_>, registers: &mut Registers, out: &mut Answer<'_>) {
    let r = registers;
    match entry {
        0x24..=0x28 | 0x2a => judge_banks::answer(entry, fields, out),
        0x20..=0x2f => judge_patches::answer(entry, fields, &mut r.patch, out),
        0x50..=0x57 | 0x70..=0x72 => judge_rows::answer(entry, fields, out),
        0x58..=0x5f | 0x74..=0x77 => judge_envelopes::answer(entry, fields, &mut r.envelope, out),
        0x60..=0x6f => judge_lfos::answer(entry, fields, &mut r.lfo, out),
        0x80..=0x8f => judge_voices::answer(entry, fields, &mut r.voice, out),
        0x90..=0x93 => judge_single::answer(entry, fields, &mut r.patch, out),
        0x98..=0x9a => judge_pieces::answer(entry, fields, &mut r.reading, out),
        _ => judge_units::answer(entry, fields, out),
    }
}

// Writes the answer of the call at the script's start to the start of out.
pub fn answer(script: &[u8], registers: &mut Registers, out: &mut [u8]) -> Outcome {
    let mut fields = Fields::new(script);
    let entry = fields.byte();
    let length = call_length(entry, fields);
    if length == 0 {
        return Outcome::Unknown(entry);
    }
    if script.len() < length || out.len() < HEAD {
        return Outcome::CutShort;
    }
    let (head, body) = out.split_at_mut(HEAD);
    let mut answer = Answer::new(body);
    put_body(entry, &mut fields, registers, &mut answer);
    let size = answer.size();
    let mut before = Answer::new(head);
    before.byte(entry);
    before.word((size % 0x1_0000_0000) as u32);
    Outcome::Answered {
        read: length,
        wrote: HEAD.saturating_add(size),
    }
}
