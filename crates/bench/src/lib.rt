// The work that bench/run times, in a form that a Rust program can link. Each function does one kind
// of work many times over, so that the call itself costs next to nothing, and answers a sum of all
// that was computed, so that nothing can be left out.
#![tactic(auto)]

ghost use Rattle.std.specs.Prelude.{◌≡◌, ◌≤◌, ◌<◌, length};

use algorithms::Call;
use bank_pieces::Receiver;
use operator::{Chain, Feedback};
use patch::{Envelope, KeyboardScaling, ModulationParameters, Operator, Patch};
use voice::Voice;
use voice_render::VoiceParameters;

// Blocks of the sine, one after the other in the same place: each starts one further on than the last, the
// phase moves by a step and the modulation by another. The table is made once and lent.
#[unsafe(no_mangle)]
pub extern "C" fn bench_sine_pm(
    blocks: u32,
    phase: u32,
    step: u32,
    pm: f32,
    pm_step: f32,
    out: &mut [f32],
) {
    let pairs = sine::sine_pairs();
    for k in 0..blocks {
        let at = numbers::wrapping_add_u32(phase, k);
        sine_block(&pairs, at, step, pm, pm_step, out);
    }
}

fn sine_block(lut: &[f32; 1024], phase: u32, step: u32, pm: f32, pm_step: f32, out: &mut [f32]) {
    let mut at = phase;
    let mut by = pm;
    for sample in out.iter_mut() {
        at = numbers::wrapping_add_u32(at, step);
        *sample = sine::sine_pm(lut, at, by);
        by += pm_step;
    }
}

// One operator with its feedback at rest.
fn silent() -> Chain<1> {
    Chain {
        lanes: [operator::Operator::new().enter(0, 0.0, 0.0)],
        feedback: Feedback {
            previous_0: 0.0,
            previous_1: 0.0,
        },
    }
}

// An operator as the last block left it, at the start of the next one of `size` samples.
fn entered(chain: Chain<1>, size: u32, frequency: f32, target: f32) -> Chain<1> {
    let stepped = dx_units::frequency_step(frequency);
    let [lane] = chain.lanes;
    let ramp = operator::ramp_scale(size);
    Chain {
        lanes: [lane.leave().enter(stepped.step, target, ramp)],
        feedback: chain.feedback,
    }
}

// Blocks of one operator, one after the other in the same place: that nothing modulates, that a buffer
// modulates, and that its own samples modulate. Each answers the phase at the end.
#[unsafe(no_mangle)]
pub extern "C" fn bench_render_none(
    blocks: u32,
    size: u32,
    frequency: f32,
    target: f32,
    add: u8,
    out: &mut [f32],
) -> u32 {
    let pairs = sine::sine_pairs();
    let mut chain = silent();
    for _ in 0..blocks {
        let from = entered(chain, size, frequency, target);
        chain = operator::render_none(&pairs, from, add != 0, out);
    }
    chain.lanes[0].phase
}

#[unsafe(no_mangle)]
pub extern "C" fn bench_render_external(
    blocks: u32,
    size: u32,
    frequency: f32,
    target: f32,
    add: u8,
    modulation: &[f32],
    out: &mut [f32],
) -> u32 {
    if modulation.len() < out.len() {
        return 0;
    }
    external_blocks(modulation, out, blocks, size, frequency, target, add)
}

fn external_blocks(
    modulation: &[f32],
    out: &mut [f32],
    blocks: u32,
    size: u32,
    frequency: f32,
    target: f32,
    add: u8,
) -> u32
    requires { length out.old ≤ length modulation.now }
{
    let pairs = sine::sine_pairs();
    let mut chain = silent();
    for _ in 0..blocks {
        let from = entered(chain, size, frequency, target);
        chain = operator::render_external(&pairs, from, add != 0, modulation, out);
    }
    chain.lanes[0].phase
}

#[unsafe(no_mangle)]
pub extern "C" fn bench_render_feedback(
    blocks: u32,
    size: u32,
    frequency: f32,
    target: f32,
    amount: u8,
    add: u8,
    out: &mut [f32],
) -> u32 {
    let pairs = sine::sine_pairs();
    let mut chain = silent();
    for _ in 0..blocks {
        let from = entered(chain, size, frequency, target);
        let scale = operator::feedback_scale(amount);
        chain = operator::render_feedback(&pairs, from, scale, add != 0, out);
    }
    chain.lanes[0].phase
}

fn mixed(bytes: &[u8]) -> u8 {
    bytes.iter().fold(0, |all, byte| all ^ *byte)
}

fn mixed_envelope(e: Envelope) -> u8 {
    mixed(&e.rate) ^ mixed(&e.level)
}

fn mixed_scaling(k: KeyboardScaling) -> u8 {
    k.left_depth ^ k.right_depth ^ k.left_curve ^ k.right_curve ^ k.break_point
}

fn mixed_operator(o: Operator) -> u8 {
    mixed_envelope(o.envelope)
        ^ mixed_scaling(o.keyboard_scaling)
        ^ o.rate_scaling
        ^ o.amp_mod_sensitivity
        ^ o.velocity_sensitivity
        ^ o.level
        ^ o.mode
        ^ o.coarse
        ^ o.fine
        ^ o.detune
}

fn mixed_modulations(m: ModulationParameters) -> u8 {
    m.delay
        ^ m.rate
        ^ m.pitch_mod_depth
        ^ m.amp_mod_depth
        ^ m.reset_phase
        ^ m.waveform
        ^ m.pitch_mod_sensitivity
}

// Every field of a patch.
fn mixed_patch(p: Patch) -> u8 {
    let operators = p.op.iter().fold(0, |all, o| all ^ mixed_operator(*o));
    operators
        ^ mixed_envelope(p.pitch_envelope)
        ^ mixed_modulations(p.modulations)
        ^ mixed(&p.name)
        ^ p.algorithm
        ^ p.feedback
        ^ p.reset_phase
        ^ p.transpose
}

// The patch of packed bytes; for too few, the patch of zeros.
fn read(bytes: &[u8]) -> Patch {
    patch::unpack(Patch::new(), bytes).unwrap_or_else(|refused| refused.state)
}

// Eight patches unpacked in turn, `times` in all.
fn unpacked_in_turn(bytes: &[u8], times: usize) -> [Patch; 8]
    requires { 1024 ≤ length bytes.now }
{
    let z = Patch::new();
    let mut patches = [z, z, z, z, z, z, z, z];
    for i in 0..times {
        let k = i % 8;
        patches[k] = read(&bytes[128 * k..128 * k + 128]);
    }
    patches
}

// Eight patches packed in turn, `times` in all.
fn packed_in_turn(patches: [Patch; 8], times: usize) -> [[u8; 128]; 8] {
    let z = [0u8; 128];
    let mut out = [z, z, z, z, z, z, z, z];
    for i in 0..times {
        let k = i % 8;
        out[k] = patch_packer::pack(patches[k]).unwrap_or([0; 128]);
    }
    out
}

// Eight patches checked in turn, `times` in all; their numbers.
fn checked_in_turn(patches: [Patch; 8], times: usize) -> u8 {
    let mut all = 0u8;
    for i in 0..times {
        all ^= patch_limits::check(patches[i % 8])
            .err()
            .map_or(0, |r| r.number());
    }
    all
}

// One patch unpacked; every field of it.
#[unsafe(no_mangle)]
pub extern "C" fn bench_read(bytes: &[u8]) -> u8 {
    mixed_patch(read(bytes))
}

// Patches unpacked; every field of one.
#[unsafe(no_mangle)]
pub extern "C" fn bench_unpack(bytes: &[u8], times: usize) -> u8 {
    if bytes.len() < 1024 {
        return 0;
    }
    let patches = unpacked_in_turn(bytes, times);
    mixed_patch(patches[times % 8])
}

// Patches packed; every byte of one.
#[unsafe(no_mangle)]
pub extern "C" fn bench_pack(bytes: &[u8], times: usize) -> u8 {
    if bytes.len() < 1024 {
        return 0;
    }
    let patches = unpacked_in_turn(bytes, 8);
    let all = packed_in_turn(patches, times);
    mixed(&all[times % 8])
}

// Patches checked.
#[unsafe(no_mangle)]
pub extern "C" fn bench_check(bytes: &[u8], times: usize) -> u8 {
    if bytes.len() < 1024 {
        return 0;
    }
    let patches = unpacked_in_turn(bytes, 8);
    checked_in_turn(patches, times)
}

// A patch unpacked and packed again; the number.
#[unsafe(no_mangle)]
pub extern "C" fn bench_again(bytes: &[u8], out: &mut [u8; 128]) -> u8 {
    match patch_packer::pack(read(bytes)) {
        Ok(packed) => {
            *out = packed;
            0
        }
        Err(refusal) => {
            *out = [0; 128];
            refusal.number()
        }
    }
}

// A bank's number.
#[unsafe(no_mangle)]
pub extern "C" fn bench_validate(dump: &[u8]) -> u8 {
    bank::validate(dump).err().map_or(0, |r| r.number())
}

// A piece given to a reader until nothing of it is left; the mix has a byte of each reported patch.
#[derive(Clone, Copy)]
struct Given {
    receiver: Receiver,
    mix: u8,
}

fn mix_report(before: u8, complete: Option<u8>, last: u8) -> u8 {
    complete.map_or(before, |slot| before ^ slot ^ last)
}

fn give(first: Receiver, piece: &[u8], patch: &mut [u8; 128], before: u8) -> Given {
    let mut receiver = first;
    let mut mix = before;
    let mut rest = piece;
    for _ in 0..piece.len() {
        if rest.is_empty() {
            break;
        }
        let (next, taken, complete) = match bank_pieces::take(receiver, rest, patch) {
            Ok(t) => (t.receiver, t.taken, t.complete),
            Err(refused) => (refused.state, 0, None),
        };
        receiver = next;
        rest = &rest[taken.min(rest.len())..];
        mix = mix_report(mix, complete, patch[127]);
    }
    Given { receiver, mix }
}

// A dump in pieces of a size, or in one where that is 0; its number and channel, and a byte of each reported patch.
#[unsafe(no_mangle)]
pub extern "C" fn bench_pieces(dump: &[u8], size: usize) -> u8 {
    let mut patch = [0u8; 128];
    let mut g = Given {
        receiver: bank_pieces::open(),
        mix: 0,
    };
    let all = dump.len().max(1);
    for piece in dump.chunks(if size == 0 { all } else { size }) {
        g = give(g.receiver, piece, &mut patch, g.mix);
    }
    let told = match bank_pieces::end(g.receiver) {
        Ok(ended) => ended.channel,
        Err(refused) => refused.refusal.number(),
    };
    told ^ g.mix
}

// One row of six compiled; all of its plan.
#[unsafe(no_mangle)]
pub extern "C" fn bench_compile(a: u8, b: u8, c: u8, d: u8, e: u8, f: u8) -> u8 {
    match algorithms::compile_row(6, [a, b, c, d, e, f]) {
        Ok(plan) => plan
            .calls
            .iter()
            .fold(plan.count, |mixed, c| mixed ^ mixed_call(*c)),
        Err(refusal) => refusal.number(),
    }
}

fn mixed_call(c: Call) -> u8 {
    c.first ^ c.n ^ c.input ^ c.output ^ (c.add as u8)
}

// Blocks of a voice, one after the other in the same place; the voice afterwards. Where it is made dirty again before
// each, all are blank, and each sets the patch up.
fn blocks_in_turn(
    pairs: &[f32; 1024],
    high: &[f32; 256],
    low: &[f32; 256],
    first: Voice,
    again: bool,
    p: VoiceParameters,
    blocks: u32,
    block: &mut [f32],
) -> Voice {
    let mut v = first;
    for _ in 0..blocks {
        v.dirty |= again;
        v = match voice_render::render_with(pairs, high, low, v, p, block) {
            Ok(rendered) => rendered.voice,
            Err(refused) => refused.state,
        };
    }
    v
}

// A fresh voice with the patch of packed bytes, which its first block sets up.
fn loaded(bytes: &[u8]) -> Voice {
    let table = algorithms_opcodes::opcodes_6_32();
    // Stays: matches. With `unwrap_or_else` the voice is copied number by number, and a voice's start, a blank block
    // and one of four samples take 28% more instructions.
    let fresh = match voice::init(6, 48000.0) {
        Ok(fresh) => fresh,
        Err(refused) => refused.state,
    };
    match voice::set_patch(fresh, read(bytes), &table) {
        Ok(set) => set,
        Err(refused) => refused.state,
    }
}

// A key that is down.
fn played(note: f32) -> VoiceParameters {
    VoiceParameters {
        note,
        velocity: 0.8,
        brightness: 0.5,
        envelope_control: 0.5,
        sustain: false,
        gate: true,
        pitch_mod: 0.0,
        amp_mod: 0.0,
    }
}

// A voice is blank for a block, and sounds for so many. The tables are made once.
#[unsafe(no_mangle)]
pub extern "C" fn bench_voice(bytes: &[u8], note: f32, blocks: u32, block: &mut [f32]) -> u32 {
    let pairs = sine::sine_pairs();
    let high = units::lut_pitch_ratio_high();
    let low = units::lut_pitch_ratio_low();
    let p = played(note);
    let clean = blocks_in_turn(&pairs, &high, &low, loaded(bytes), false, p, 1, block);
    let v = blocks_in_turn(&pairs, &high, &low, clean, false, p, blocks, block);
    v.operator[5].phase
}

// One float more in a sum.
fn mixed_in(sum: u32, x: f32) -> u32 {
    numbers::wrapping_add_u32(numbers::wrapping_mul_u32(sum, 31), numbers::f32_to_bits(x))
}

fn mixed_stages(sum: u32, stages: [f32; 4]) -> u32 {
    stages.iter().fold(sum, |sum, x| mixed_in(sum, *x))
}

// What a patch set up: each operator's levels, increments and headroom.
fn mixed_setup(v: Voice) -> u32 {
    let mut sum = 0u32;
    for (e, headroom) in v.operator_envelope.iter().zip(&v.level_headroom) {
        sum = mixed_stages(sum, e.level);
        sum = mixed_stages(sum, e.increment);
        sum = mixed_in(sum, *headroom);
    }
    sum
}

// A voice's patch is set up so many times, each time in a blank block. The tables are made once.
#[unsafe(no_mangle)]
pub extern "C" fn bench_setup(bytes: &[u8], times: u32, block: &mut [f32]) -> u32 {
    let pairs = sine::sine_pairs();
    let high = units::lut_pitch_ratio_high();
    let low = units::lut_pitch_ratio_low();
    let v = blocks_in_turn(
        &pairs,
        &high,
        &low,
        loaded(bytes),
        true,
        played(60.0),
        times,
        block,
    );
    mixed_setup(v)
}

// The identifier of a packed patch.
#[unsafe(no_mangle)]
pub extern "C" fn bench_identify(bytes: &[u8]) -> u64 {
    identity::identify(read(bytes)).unwrap_or(0)
}
