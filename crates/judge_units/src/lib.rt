// The judge's entries 01 to 1f and 30 to 4f (hex, docs/ORACLE.md): numbers, conversions, tables, sine, ratio and draws.
// None has a state.
#![tactic(auto)]

use judge_wire::{Answer, Fields};

mod converted;
mod leaves;

pub use converted::{put_mark, put_ratio};

// The length of a call of the entry; 0 for no entry of these groups.
pub fn length(entry: u8) -> usize {
    if entry < 0x20 {
        return leaves::length(entry);
    }
    converted::length(entry)
}

// Writes what the call answers.
pub fn answer(entry: u8, fields: &mut Fields<'_>, out: &mut Answer<'_>) {
    if entry < 0x20 {
        leaves::answer(entry, fields, out);
    } else {
        converted::answer(entry, fields, out);
    }
}
