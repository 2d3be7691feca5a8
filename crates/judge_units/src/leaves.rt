// The entries 01 to 13 (hex): the crate `numbers`. Each takes one or two words and answers one.
use judge_wire::{Answer, Fields};

// The length of a call of the entry, one or two words behind its byte; 0 for no entry of this group.
pub fn length(entry: u8) -> usize {
    match entry {
        0x06..=0x0b | 0x0e | 0x0f => 9,
        0x01..=0x05 | 0x0c | 0x0d | 0x10..=0x13 => 5,
        _ => 0,
    }
}

// Entries of one word take theirs from a, the others from a and b.
pub fn answer(entry: u8, fields: &mut Fields<'_>, out: &mut Answer<'_>) {
    let a = fields.word();
    let b = fields.word();
    match entry {
        0x01 => out.word(numbers::f32_as_u32(float(a))),
        0x02 => put_signed(out, numbers::f32_as_i32(float(a))),
        0x03 => out.eight(numbers::f32_as_usize(float(a)) as u64),
        0x04 => out.float(numbers::u32_as_f32(a)),
        0x05 => out.float(numbers::i32_as_f32(signed(a))),
        0x06 => out.word(numbers::wrapping_add_u32(a, b)),
        0x07 => out.word(numbers::wrapping_sub_u32(a, b)),
        0x08 => out.word(numbers::wrapping_mul_u32(a, b)),
        0x09 => out.word(numbers::wrapping_shl_u32(a, b)),
        _ => answer_more(entry, a, b, out),
    }
}

fn answer_more(entry: u8, a: u32, b: u32, out: &mut Answer<'_>) {
    match entry {
        0x0a => put_signed(out, numbers::wrapping_add_i32(signed(a), signed(b))),
        0x0b => put_signed(out, numbers::wrapping_sub_i32(signed(a), signed(b))),
        0x0c => out.word(numbers::i32_as_u32(signed(a))),
        0x0d => put_signed(out, signed(a)),
        0x0e => out.float(numbers::f32_min(float(a), float(b))),
        0x0f => out.float(numbers::f32_max(float(a), float(b))),
        0x10 => out.float(numbers::f32_abs(float(a))),
        0x11 => out.float(numbers::f32_clamp_unit(float(a))),
        0x12 => out.word(numbers::f32_to_bits(float(a))),
        _ => out.float(numbers::f32_from_bits(a)),
    }
}

fn float(bits: u32) -> f32 {
    numbers::f32_from_bits(bits)
}

fn signed(bits: u32) -> i32 {
    numbers::u32_as_i32(bits)
}

fn put_signed(out: &mut Answer<'_>, n: i32) {
    out.word(numbers::i32_as_u32(n));
}
