// The judge's entries 60 to 6f (hex, docs/ORACLE.md): the crate `lfo`. The LFO and the generator's number are the
// register's. On the wire an LFO is ten floats, its waveform, a bool and a signed number; the generator's number follows
// where it may have changed.
#![tactic(auto)]

use judge_wire::{Answer, Fields};
use lfo::{Lfo, Motion, Waveform};
use refusals::{Refusal, Refused};

// The length of a call of the entry; 0 for no entry of this crate.
pub fn length(entry: u8) -> usize {
    match entry {
        0x60 => 51,
        0x61 | 0x64 | 0x65 | 0x6a | 0x6b => 5,
        0x62 => 8,
        0x63 | 0x66..=0x69 | 0x6c => 1,
        _ => 0,
    }
}

// Writes what the call answers.
pub fn answer(entry: u8, fields: &mut Fields<'_>, kept: &mut Motion, out: &mut Answer<'_>) {
    match entry {
        0x60 => {
            kept.lfo = read_lfo(fields);
            kept.state = fields.word();
            put_motion(out, kept);
        }
        0x61 => keep_lfo(lfo::init(fields.float()), kept, out),
        0x62 => {
            let modulations = judge_patches::read_modulations(fields);
            keep_lfo(lfo::set(kept.lfo, modulations), kept, out);
        }
        0x63 => keep_lfo(lfo::reset(kept.lfo), kept, out),
        0x64 => keep(lfo::step(*kept, fields.float()), kept, out),
        0x65 => keep(lfo::scrub(*kept, fields.float()), kept, out),
        0x66 => put_read(out, lfo::value(kept.lfo)),
        0x67 => put_read(out, lfo::delay_ramp(kept.lfo)),
        0x68 => put_read(out, lfo::pitch_mod(kept.lfo)),
        0x69 => put_read(out, lfo::amp_mod(kept.lfo)),
        0x6a => keep(step_with(*kept, fields.float()), kept, out),
        0x6b => keep(scrub_with(*kept, fields.float()), kept, out),
        _ => put_read(out, value_with(kept.lfo)),
    }
}

// Stays: a function for each call that is lent the sine's table, since a function clears the room of its tables at its
// start, whichever arm it takes; in one function every entry paid for three.
#[inline(never)]
fn step_with(motion: Motion, scale: f32) -> Result<Motion, Refused<Motion>> {
    let lut = sine::lut_sine();
    lfo::step_with(&lut, motion, scale)
}

#[inline(never)]
fn scrub_with(motion: Motion, sample: f32) -> Result<Motion, Refused<Motion>> {
    let lut = sine::lut_sine();
    lfo::scrub_with(&lut, motion, sample)
}

#[inline(never)]
fn value_with(lfo: Lfo) -> Result<f32, Refusal> {
    let lut = sine::lut_sine();
    lfo::value_with(&lut, lfo)
}

// An LFO that was made, set or reset: the generator's number stays.
fn keep_lfo(done: Result<Lfo, Refused<Lfo>>, kept: &mut Motion, out: &mut Answer<'_>) {
    kept.lfo = out.told(done);
    put_motion(out, kept);
}

fn keep(done: Result<Motion, Refused<Motion>>, kept: &mut Motion, out: &mut Answer<'_>) {
    *kept = out.told(done);
    put_motion(out, kept);
}

fn put_read(out: &mut Answer<'_>, done: Result<f32, Refusal>) {
    let value = out.value(done, 0.0);
    out.float(value);
}

pub fn read_lfo(fields: &mut Fields<'_>) -> Lfo {
    Lfo {
        phase: fields.float(),
        frequency: fields.float(),
        delay_phase: fields.float(),
        delay_increment: fields.floats(),
        value: fields.float(),
        random_value: fields.float(),
        one_hz: fields.float(),
        amp_mod_depth: fields.float(),
        pitch_mod_depth: fields.float(),
        waveform: Waveform::from(fields.byte()),
        reset_phase: fields.flag(),
        phase_integral: numbers::u32_as_i32(fields.word()),
    }
}

fn put_motion(out: &mut Answer<'_>, kept: &Motion) {
    put_lfo(out, &kept.lfo);
    out.word(kept.state);
}

fn put_lfo(out: &mut Answer<'_>, x: &Lfo) {
    out.floats(&[x.phase, x.frequency, x.delay_phase]);
    out.floats(&x.delay_increment);
    out.floats(&[x.value, x.random_value, x.one_hz]);
    out.floats(&[x.amp_mod_depth, x.pitch_mod_depth]);
    out.byte(x.waveform as u8);
    out.flag(x.reset_phase);
    out.word(numbers::i32_as_u32(x.phase_integral));
}
