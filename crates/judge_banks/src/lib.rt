// The judge's entries 24 to 28 and 2a (hex, docs/ORACLE.md), of the group patches: the crates `dump` and `bank`.
#![tactic(auto)]

use judge_wire::{Answer, Fields};
use refusals::Refusal;

// The length of the call whose fields these are, its entry's byte included; 0 for no entry of this crate.
pub fn length(entry: u8, mut fields: Fields<'_>) -> usize {
    match entry {
        0x24 | 0x28 | 0x2a => 3 + fields.half() as usize,
        0x25..=0x27 => 7 + fields.half() as usize,
        _ => 0,
    }
}

// Writes what the call answers.
pub fn answer(entry: u8, fields: &mut Fields<'_>, out: &mut Answer<'_>) {
    let bytes = fields.slice();
    let slot = fields.word() as usize;
    match entry {
        0x24 => out.byte(dump::checksum(bytes)),
        0x25 => out.byte(told(bank::check(bytes, slot).err())),
        0x26 => {
            let part = bank::part(bytes, slot);
            out.byte(told(part.err()));
            out.slice(part.unwrap_or(&[]));
        }
        0x27 => out.slice(bank::read(bytes, slot).unwrap_or(&[])),
        0x28 => out.byte(told(bank::validate(bytes).err())),
        _ => {
            let channel = bank::channel(bytes);
            out.bytes(&[told(channel.err()), channel.unwrap_or(0)]);
        }
    }
}

// The number of a refusal; 0 for none.
fn told(refusal: Option<Refusal>) -> u8 {
    refusal.map_or(0, |r| r.number())
}
