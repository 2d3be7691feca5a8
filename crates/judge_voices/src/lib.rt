// The judge's entries 80 to 8f (hex, docs/ORACLE.md): the crates `voice` and `voice_render`. The voice is the
// register's. On the wire it is its fields in the struct's order, 667 bytes: a ratio is its kind (0 to the note, 1 to
// 1 Hz) and a float.
#![tactic(auto)]

ghost use Rattle.std.specs.Prelude.{◌<◌};

use dx_units_inner::Ratio;
use judge_wire::{Answer, Fields};
use operator::{Feedback, Operator};
use patch::Patch;
use refusals::{Refusal, Refused};
use voice::Voice;
use voice_render::{Rendered, VoiceParameters};

// The bytes of a voice, and the numbers of the longest block.
const SIZE: usize = 667;

const LONGEST: usize = 4352;

// The length of the call whose fields these are, its entry's byte included; 0 for no entry of this crate.
pub fn length(entry: u8, fields: Fields<'_>) -> usize {
    match entry {
        0x80 => 9,
        0x81 => 159 + behind(156, fields),
        0x82 => 130,
        0x83 => 135,
        0x84 | 0x85 | 0x8b | 0x8c => 1,
        0x8a => 2,
        0x86 => 8,
        0x87 => 29 + 4 * behind(26, fields),
        0x88 | 0x89 => 35,
        _ => 0,
    }
}

// The two bytes behind so many, as a number.
fn behind(size: usize, mut fields: Fields<'_>) -> usize
    ensures { result < 65536 }
{
    for _ in 0..size {
        let _passed = fields.byte();
    }
    fields.half() as usize
}

// Writes what the call answers.
pub fn answer(entry: u8, fields: &mut Fields<'_>, kept: &mut Voice, out: &mut Answer<'_>) {
    match entry {
        0x80 | 0x84 | 0x8a => prepare(entry, fields, kept, out),
        0x81..=0x83 => set(entry, fields, kept, out),
        0x85 => put_voice(out, kept),
        0x86 => bend(fields, kept, out),
        0x8b => set_up(kept, out),
        0x8c => tell_patch(*kept, out),
        _ => render(entry, fields, kept, out),
    }
}

// The voice that a caller goes on with, and the refusal if it is one.
fn parted(done: Result<Voice, Refused<Voice>>) -> (Voice, Option<Refusal>) {
    match done {
        Ok(v) => (v, None),
        Err(e) => (e.state, Some(e.refusal)),
    }
}

// 0 for an answer that is no refusal.
fn number_of(refusal: Option<Refusal>) -> u8 {
    refusal.map_or(0, |r| r.number())
}

fn prepare(entry: u8, fields: &mut Fields<'_>, kept: &mut Voice, out: &mut Answer<'_>) {
    let (v, refusal) = parted(prepared(entry, fields, *kept));
    *kept = v;
    out.byte(number_of(refusal));
    put_voice(out, kept);
}

fn prepared(entry: u8, fields: &mut Fields<'_>, v: Voice) -> Result<Voice, Refused<Voice>> {
    match entry {
        0x80 => voice::init(fields.word() as usize, fields.float()),
        0x8a => voice::set_transposing(v, fields.flag()),
        _ => voice::take_patch(v),
    }
}

fn set(entry: u8, fields: &mut Fields<'_>, kept: &mut Voice, out: &mut Answer<'_>) {
    let (v, refusal) = parted(loaded(entry, fields, *kept));
    *kept = v;
    out.byte(number_of(refusal));
    out.byte(refusal.map_or(0, |r| r.place()));
    put_voice(out, kept);
}

// The patch's fields and a table; packed bytes and a stored table; packed bytes and a row, which is a table of its own.
fn loaded(entry: u8, fields: &mut Fields<'_>, v: Voice) -> Result<Voice, Refused<Voice>> {
    match entry {
        0x81 => voice::set_patch(v, judge_patches::read_patch(fields), fields.slice()),
        0x82 => set_stored(v, unpacked(fields.part(128)), fields.byte()),
        _ => {
            let patch = unpacked(fields.part(128));
            let row = fields.part(6);
            voice::set_patch(v, patch, row.get(..v.operators).unwrap_or(&[]))
        }
    }
}

fn unpacked(bytes: &[u8]) -> Patch {
    patch::unpack(Patch::new(), bytes).unwrap_or(Patch::new())
}

// The Rust's table for so many operators, 0 for the voice's own number; an empty one for another number.
fn set_stored(v: Voice, p: Patch, which: u8) -> Result<Voice, Refused<Voice>> {
    let operators = if which == 0 {
        v.operators
    } else {
        which as usize
    };
    match operators {
        4 => voice::set_patch(v, p, &algorithms_opcodes::opcodes_4_8()),
        6 => voice::set_patch(v, p, &algorithms_opcodes::opcodes_6_32()),
        _ => voice::set_patch(v, p, &[]),
    }
}

// One byte of the voice changed, and then the entry that `way` names; the register keeps it only where the call says
// so.
fn bend(fields: &mut Fields<'_>, kept: &mut Voice, out: &mut Answer<'_>) {
    let place = fields.word() as usize % SIZE;
    let byte = fields.byte();
    let way = fields.byte();
    let keeps = fields.flag();
    let mut bytes = written(kept);
    bytes[place] = byte;
    let (v, refusal) = parted(tried(way, read_voice(&mut Fields::new(&bytes))));
    out.byte(number_of(refusal));
    put_voice(out, &v);
    if keeps {
        *kept = v;
    }
}

fn tried(way: u8, v: Voice) -> Result<Voice, Refused<Voice>> {
    match way {
        0 => set_stored(v, unpacked(&[0u8; 128]), 0),
        1 => voice::take_patch(v),
        _ => tried_block(v),
    }
}

// Four samples at a gate.
fn tried_block(v: Voice) -> Result<Voice, Refused<Voice>> {
    let mut block = [0.0f32; 16];
    let p = VoiceParameters {
        sustain: false,
        gate: true,
        note: 60.0,
        velocity: 1.0,
        brightness: 0.5,
        envelope_control: 0.5,
        pitch_mod: 0.0,
        amp_mod: 0.0,
    };
    Ok(voice_render::render(v, p, &mut block)?.voice)
}

fn set_up(kept: &mut Voice, out: &mut Answer<'_>) {
    match voice_render::setup(*kept) {
        Ok(r) => {
            *kept = r.voice;
            out.byte(0);
            out.flag(r.was_dirty);
        }
        Err(e) => {
            *kept = e.state;
            out.byte(e.refusal.number());
            out.flag(false);
        }
    }
    put_voice(out, kept);
}

// Whether there is a patch, and it; the zero patch where there is none.
fn tell_patch(v: Voice, out: &mut Answer<'_>) {
    let (patch, refusal) = match voice::patch(v) {
        Ok(patch) => (patch, None),
        Err(refusal) => (None, Some(refusal)),
    };
    out.byte(number_of(refusal));
    out.flag(patch.is_some());
    judge_patches::put_patch(out, &patch.unwrap_or(Patch::new()));
}

// Renders in the first part of a block, as long as the call says or as there is room.
fn render(entry: u8, fields: &mut Fields<'_>, kept: &mut Voice, out: &mut Answer<'_>) {
    let mut room = [0.0f32; LONGEST];
    let p = read_parameters(fields);
    let given = entry == 0x87;
    let size = if given {
        fields.half() as usize
    } else {
        fields.word() as usize
    };
    let block = &mut room[..size.min(LONGEST)];
    if given {
        fill_given(block, fields);
    } else {
        fill_seeded(block, fields.word());
    }
    put_number_and_marks(rendered(given, *kept, p, block), kept, out);
    if entry == 0x89 {
        out.eight(digest(block, &written(kept)));
    } else {
        out.length(block.len());
        out.floats(block);
        put_voice(out, kept);
    }
}

fn put_number_and_marks(
    done: Result<Rendered, Refused<Voice>>,
    kept: &mut Voice,
    out: &mut Answer<'_>,
) {
    match done {
        Ok(r) => {
            *kept = r.voice;
            out.byte(0);
        }
        Err(e) => {
            *kept = e.state;
            out.byte(e.refusal.number());
        }
    }
    for mark in &voice_render::marks_told(&done) {
        judge_units::put_mark(out, *mark);
    }
}

// The call's own samples.
fn fill_given(block: &mut [f32], fields: &mut Fields<'_>) {
    for x in block.iter_mut() {
        *x = fields.float();
    }
}

// Draws between -0.5 and 0.5; what stands there at seed 0.
fn fill_seeded(block: &mut [f32], seed: u32) {
    if seed == 0 {
        return;
    }
    let mut state = seed;
    for x in block.iter_mut() {
        state = random::get_word(state);
        *x = numbers::u32_as_f32(state / 256) / 16777216.0 - 0.5;
    }
}

fn read_parameters(fields: &mut Fields<'_>) -> VoiceParameters {
    VoiceParameters {
        sustain: fields.flag(),
        gate: fields.flag(),
        note: fields.float(),
        velocity: fields.float(),
        brightness: fields.float(),
        envelope_control: fields.float(),
        pitch_mod: fields.float(),
        amp_mod: fields.float(),
    }
}

// Given blocks are rendered by the entry that makes its tables, seeded ones by that which is lent them.
fn rendered(
    given: bool,
    v: Voice,
    p: VoiceParameters,
    block: &mut [f32],
) -> Result<Rendered, Refused<Voice>> {
    if given {
        return voice_render::render(v, p, block);
    }
    let pairs = sine::sine_pairs();
    let high = units::lut_pitch_ratio_high();
    let low = units::lut_pitch_ratio_low();
    voice_render::render_with(&pairs, &high, &low, v, p, block)
}

// FNV-1a with 64 bits, a step for the bits of each sample and then one for each byte of the voice.
fn digest(block: &[f32], voice: &[u8]) -> u64 {
    let mut sum = 0xcbf2_9ce4_8422_2325;
    for x in block {
        sum = mixed(sum, numbers::f32_to_bits(*x));
    }
    for b in voice {
        sum = mixed(sum, u32::from(*b));
    }
    sum
}

// One step: the exclusive or, times 2^40 + 435 modulo 2^64.
fn mixed(sum: u64, bits: u32) -> u64 {
    (sum ^ u64::from(bits)).wrapping_mul(0x0000_0100_0000_01b3)
}

// The voice's bytes.
fn written(v: &Voice) -> [u8; SIZE] {
    let mut bytes = [0; SIZE];
    put_voice(&mut Answer::new(&mut bytes), v);
    bytes
}

pub fn read_voice(fields: &mut Fields<'_>) -> Voice {
    let mut v = read_start(fields);
    for e in v.operator_envelope.iter_mut() {
        *e = judge_envelopes::read_envelope(fields);
    }
    v.pitch_envelope = judge_envelopes::read_envelope(fields);
    v.normalized_velocity = fields.float();
    v.note = fields.float();
    for ratio in v.ratios.iter_mut() {
        *ratio = read_ratio(fields);
    }
    v.level_headroom = fields.floats();
    v.feedback_state = Feedback {
        previous_0: fields.float(),
        previous_1: fields.float(),
    };
    v.has_patch = fields.flag();
    v.patch = judge_patches::read_patch(fields);
    v.row = fields.bytes();
    v.plan = judge_rows::read_plan(fields);
    v.dirty = fields.flag();
    v.transposing = fields.flag();
    v
}

// What stands before the envelopes, in a voice that is as a refused start leaves it.
fn read_start(fields: &mut Fields<'_>) -> Voice {
    let (mut v, _refusal) = parted(voice::init(0, 0.0));
    v.operators = fields.word() as usize;
    v.sample_rate = fields.float();
    v.one_hz = fields.float();
    v.a0 = fields.float();
    v.gate = fields.flag();
    for o in v.operator.iter_mut() {
        *o = read_operator(fields);
    }
    v
}

fn read_operator(fields: &mut Fields<'_>) -> Operator {
    Operator {
        phase: fields.word(),
        amplitude: fields.float(),
    }
}

fn read_ratio(fields: &mut Fields<'_>) -> Ratio {
    let hertz = fields.flag();
    let x = fields.float();
    if hertz {
        Ratio::Hertz(x)
    } else {
        Ratio::Note(x)
    }
}

pub fn put_voice(out: &mut Answer<'_>, v: &Voice) {
    put_start(out, v);
    for e in &v.operator_envelope {
        judge_envelopes::put_envelope(out, e);
    }
    judge_envelopes::put_envelope(out, &v.pitch_envelope);
    out.floats(&[v.normalized_velocity, v.note]);
    for ratio in &v.ratios {
        judge_units::put_ratio(out, *ratio);
    }
    out.floats(&v.level_headroom);
    out.floats(&[v.feedback_state.previous_0, v.feedback_state.previous_1]);
    out.flag(v.has_patch);
    judge_patches::put_patch(out, &v.patch);
    out.bytes(&v.row);
    judge_rows::put_plan(out, &v.plan);
    out.flag(v.dirty);
    out.flag(v.transposing);
}

fn put_start(out: &mut Answer<'_>, v: &Voice) {
    out.word((v.operators % 0x1_0000_0000) as u32);
    out.floats(&[v.sample_rate, v.one_hz, v.a0]);
    out.flag(v.gate);
    for o in &v.operator {
        out.word(o.phase);
        out.float(o.amplitude);
    }
}
