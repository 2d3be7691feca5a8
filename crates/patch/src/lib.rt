// A DX7 patch from its 128 packed bytes, after patch.rs. Each entry is what specs/Packed derives from the one table of
// specs/Layout, for accepted and refused input alike. Number given back: 1 fewer than 128 bytes.
#![tactic(auto)]

ghost use Rattle.std.specs.Prelude.{◌≡◌, ◌+◌, ◌≤◌, ◌<◌, ◌/◌, ◌%◌, min, length, get_or};
ghost use Rattle.patch.specs.Layout.{later, envelope_field, scaling_field, operator_field, lfo_field, field_of};
ghost use Rattle.patch.specs.Layout.{patch_sensitivity};
ghost use Rattle.patch.specs.Form.{envelope_with, scaling_with, operator_with, modulations_with, name_with, zero_patch};
ghost use Rattle.patch.specs.Packed.{read_in, unpacked, unpack_of};

use refusals::{Refusal, Refused};
use std::array;

pub mod largest;

pub const SYX_SIZE: usize = 128;

#[derive(Clone, Copy, Default)]
pub struct Patch {
    pub op: [Operator; 6],
    pub pitch_envelope: Envelope,
    pub algorithm: u8,
    pub feedback: u8,
    pub reset_phase: u8,
    pub modulations: ModulationParameters,
    pub transpose: u8,
    pub name: [u8; 10],
    pub active_operators: u8,
}

#[derive(Clone, Copy, Default)]
pub struct Envelope {
    pub rate: [u8; 4],
    pub level: [u8; 4],
}

#[derive(Clone, Copy, Default)]
pub struct KeyboardScaling {
    pub left_depth: u8,
    pub right_depth: u8,
    pub left_curve: u8,
    pub right_curve: u8,
    pub break_point: u8,
}

#[derive(Clone, Copy, Default)]
pub struct Operator {
    pub envelope: Envelope,
    pub keyboard_scaling: KeyboardScaling,
    pub rate_scaling: u8,
    pub amp_mod_sensitivity: u8,
    pub velocity_sensitivity: u8,
    pub level: u8,
    pub mode: u8,
    pub coarse: u8,
    pub fine: u8,
    pub detune: u8,
}

#[derive(Clone, Copy, Default)]
pub struct ModulationParameters {
    pub delay: u8,
    pub rate: u8,
    pub pitch_mod_depth: u8,
    pub amp_mod_depth: u8,
    pub reset_phase: u8,
    pub waveform: u8,
    pub pitch_mod_sensitivity: u8,
}

impl Patch {
    // The patch of zeros.
    pub fn new() -> Patch
        ensures { result ≡ zero_patch }
    {
        Patch::default()
    }
}

// A field of a byte: its bits from the lowest on (`unit`, a power of two), as many as its width (`size` numbers), at
// most `largest`.
fn field(b: u8, unit: u8, size: u8, largest: u8) -> u8
    requires { (0 < unit) × (0 < size) }
    ensures { result ≡ min (b / unit % size) largest }
{
    (b / unit % size).min(largest)
}

// A number with a byte for itself.
fn whole(s: &[u8], i: usize) -> u8
    requires { i < length s.now }
    ensures { result ≡ min (get_or s.now i 0 / 1 % 128) 99 }
{
    field(s[i], 1, 128, largest::WHOLE)
}

// The keyboard scaling of the operator whose first byte stands at `at`.
fn unpack_scaling(s: &[u8], at: usize) -> KeyboardScaling
    requires { at + 17 ≤ length s.now }
    ensures { result ≡ scaling_with (λ n. read_in s.now (later at (scaling_field n))) }
{
    let curves = s[at + 11];
    KeyboardScaling {
        left_depth: whole(s, at + 9),
        right_depth: whole(s, at + 10),
        left_curve: field(curves, 1, 4, largest::CURVE),
        right_curve: field(curves, 4, 4, largest::CURVE),
        break_point: whole(s, at + 8),
    }
}

// An operator with the envelope whose first byte stands at `at`. Each number is stored by itself: an envelope that is
// handed on as a value would be put together in a register, bit by bit, where eight bytes can be clamped as one.
fn unpack_stages(s: &[u8], at: usize) -> Operator
    requires { at + 8 ≤ length s.now }
    ensures { result.envelope ≡ envelope_with (λ n. read_in s.now (later at (envelope_field n))) }
{
    let mut o = Operator::default();
    let mut e = o.envelope;
    e.rate[0] = whole(s, at);
    e.rate[1] = whole(s, at + 1);
    e.rate[2] = whole(s, at + 2);
    e.rate[3] = whole(s, at + 3);
    e.level[0] = whole(s, at + 4);
    e.level[1] = whole(s, at + 5);
    e.level[2] = whole(s, at + 6);
    e.level[3] = whole(s, at + 7);
    o.envelope = e;
    o
}

// The operator whose first byte stands at `at`.
fn unpack_operator(s: &[u8], at: usize) -> Operator
    requires { at + 17 ≤ length s.now }
    ensures { result ≡ operator_with (λ n. read_in s.now (later at (operator_field n))) }
{
    let rates = s[at + 12];
    let sensitivities = s[at + 13];
    let tuning = s[at + 15];
    let mut o = unpack_stages(s, at);
    let scaling = unpack_scaling(s, at);
    o.keyboard_scaling = scaling;
    o.rate_scaling = field(rates, 1, 8, largest::RATE_SCALING);
    o.amp_mod_sensitivity = field(sensitivities, 1, 4, largest::AMP_MOD_SENSITIVITY);
    o.velocity_sensitivity = field(sensitivities, 4, 8, largest::VELOCITY_SENSITIVITY);
    o.level = whole(s, at + 14);
    o.mode = field(tuning, 1, 2, largest::MODE);
    o.coarse = field(tuning, 2, 32, largest::COARSE);
    o.fine = whole(s, at + 16);
    o.detune = field(rates, 8, 16, largest::DETUNE);
    o
}

// The LFO's numbers. The pitch sensitivity is all that byte 116 has above its waveform, four bits and no mask, as in
// the Rust: a byte above 127, which Yamaha does not write, gives 8 to 15. A patch may hold these; an LFO refuses them.
fn unpack_modulations(s: &[u8]) -> ModulationParameters
    requires { 128 ≤ length s.now }
    ensures { result ≡ modulations_with (λ n. read_in s.now (lfo_field patch_sensitivity n)) }
{
    let shape = s[116];
    ModulationParameters {
        delay: whole(s, 113),
        rate: whole(s, 112),
        pitch_mod_depth: whole(s, 114),
        amp_mod_depth: whole(s, 115),
        reset_phase: field(shape, 1, 2, largest::RESET_PHASE),
        waveform: field(shape, 2, 8, largest::WAVEFORM),
        pitch_mod_sensitivity: field(shape, 16, 16, largest::PATCH_SENSITIVITY),
    }
}

fn unpack_name(s: &[u8]) -> [u8; 10]
    requires { 128 ≤ length s.now }
    ensures { result ≡ name_with (λ n. read_in s.now (field_of n)) }
{
    array::from_fn(|i| field(s[118 + i], 1, 128, largest::LETTER))
}

// Stays: as `array::from_fn(|k| unpack_operator(s, 17 * k))` it got no proof, from structs of 21 numbers.
fn unpack_operators(s: &[u8]) -> [Operator; 6]
    requires { 128 ≤ length s.now }
    ensures { result ≡ (unpacked s.now).op }
{
    [
        unpack_operator(s, 0),
        unpack_operator(s, 17),
        unpack_operator(s, 34),
        unpack_operator(s, 51),
        unpack_operator(s, 68),
        unpack_operator(s, 85),
    ]
}

fn unpack_whole(s: &[u8]) -> Patch
    requires { 128 ≤ length s.now }
    ensures { result ≡ unpacked s.now }
{
    let op = unpack_operators(s);
    let pitch = unpack_stages(s, 102);
    let pitch_envelope = pitch.envelope;
    let modulations = unpack_modulations(s);
    let name = unpack_name(s);
    Patch {
        op,
        pitch_envelope,
        algorithm: field(s[110], 1, 32, largest::ALGORITHM),
        feedback: field(s[111], 1, 8, largest::FEEDBACK),
        reset_phase: field(s[111], 8, 2, largest::RESET_PHASE),
        modulations,
        transpose: field(s[117], 1, 128, largest::TRANSPOSE),
        name,
        active_operators: 63,
    }
}

// The patch in the first 128 bytes; for fewer, 1 and the patch as it was.
pub fn unpack(patch: Patch, data: &[u8]) -> Result<Patch, Refused<Patch>>
    ensures { result ≡ unpack_of patch «data».now }
{
    let is_short = data.len() < SYX_SIZE;
    if is_short {
        return Err(Refused {
            refusal: Refusal::ShortPatch,
            state: patch,
        });
    }
    Ok(unpack_whole(data))
}
