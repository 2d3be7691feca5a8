// The judge's entries 90 to 93 (hex, docs/ORACLE.md): the crate `single`. The patch is the register's.
#![tactic(auto)]

use judge_wire::{Answer, Fields};
use patch::Patch;
use single::Repacked;

// The length of the call whose fields these are, its entry's byte included; 0 for no entry of this crate.
pub fn length(entry: u8, mut fields: Fields<'_>) -> usize {
    match entry {
        0x90 | 0x93 => 3 + fields.half() as usize,
        0x91 => 2,
        0x92 => 4 + fields.half() as usize,
        _ => 0,
    }
}

// Writes what the call answers.
pub fn answer(entry: u8, fields: &mut Fields<'_>, patch: &mut Patch, out: &mut Answer<'_>) {
    match entry {
        0x90 => read(fields.slice(), patch, out),
        0x91 => write(*patch, fields.byte(), out),
        0x92 => from_packed(fields.slice(), fields.byte(), out),
        _ => to_packed(fields.slice(), out),
    }
}

fn read(dump: &[u8], patch: &mut Patch, out: &mut Answer<'_>) {
    let (number, channel) = match single::read(*patch, dump) {
        Ok(parsed) => {
            *patch = parsed.patch;
            (0, parsed.channel)
        }
        Err(refused) => (refused.refusal.number(), 0),
    };
    out.bytes(&[number, channel]);
    judge_patches::put_patch(out, patch);
}

fn write(patch: Patch, channel: u8, out: &mut Answer<'_>) {
    let bytes = out.value(single::write(patch, channel), [0; 163]);
    out.bytes(&bytes);
}

// No patch is refused with 14 yet: its place is 0.
fn from_packed(packed: &[u8], channel: u8, out: &mut Answer<'_>) {
    let bytes = out.value(single::from_packed(packed, channel), [0; 163]);
    out.byte(0);
    out.bytes(&bytes);
}

fn to_packed(dump: &[u8], out: &mut Answer<'_>) {
    let zeros = Repacked {
        channel: 0,
        bytes: [0; 128],
    };
    let done = out.value(single::to_packed(dump), zeros);
    out.byte(done.channel);
    out.bytes(&done.bytes);
}
