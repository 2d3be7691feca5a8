// A block of a DX7 voice, after voice.rs's setup and render: the voice goes in and comes back by value. A block refuses
// in document 01's order (9, 8, 7), a setup 9, and the promise names the answer and the whole block for every input: a
// refusal hands back the voice as it came and touches no buffer. A sounding block marks each operator whose pitch was
// cut off. A voice whose switch is on plays every note as far away as its patch's transpose says.
#![tactic(auto)]

ghost use Rattle.std.specs.Prelude.{◌≡◌, false, cond, ◌≤◌, T, eqb, length};
ghost use Rattle.sine.specs.Pairs.{sine_pairs};
ghost use Rattle.units.specs.Tables.{lut_pitch_ratio_high, lut_pitch_ratio_low};
ghost use Rattle.voice_levels.specs.Levels.{all_as_asked};
ghost use Rattle.voice.specs.Answers.{state_fits};
ghost use Rattle.voice_render.specs.Setup.{with_setup, set_up};
ghost use Rattle.voice_render.specs.Block.{played_by, note_on, struck, begun, restarted, entering, after, sounded};
ghost use Rattle.voice_render.specs.Block.{sounded_by};
ghost use Rattle.voice_render.specs.Answers.{block_fits, parameters_fit, parameters_fit_for, checked, setup_answer};
ghost use Rattle.voice_render.specs.Answers.{answered_by, marks_told, render_answer};

use dx_units_step::Mark;
use envelope_inner::Envelope;
use operator::Operator;
use refusals::{Refusal, Refused};
use voice::Voice;
use voice_block::Operators;
use voice_levels::{Levels, Scene};
use voice_setup::Setup;

#[derive(Clone, Copy)]
pub struct VoiceParameters {
    pub sustain: bool,
    pub gate: bool,
    pub note: f32,
    pub velocity: f32,
    pub brightness: f32,
    pub envelope_control: f32,
    pub pitch_mod: f32,
    pub amp_mod: f32,
}

// What a block gives besides its samples. The marks tell of each operator whether its pitch was cut off: they are all
// as asked where the block is blank or empty.
#[derive(Clone, Copy)]
pub struct Rendered {
    pub marks: [Mark; 6],
    pub voice: Voice,
}

// The marks that a block tells, whatever it answered: a refused one says as asked of every operator.
pub fn marks_told(answer: &Result<Rendered, Refused<Voice>>) -> [Mark; 6]
    ensures { result ≡ marks_told answer.now }
{
    match answer {
        Ok(rendered) => rendered.marks,
        Err(_) => voice_levels::all_as_asked(),
    }
}

// What a setup gives: whether the voice was dirty, and the voice.
#[derive(Clone, Copy)]
pub struct Readied {
    pub was_dirty: bool,
    pub voice: Voice,
}

// The note and the velocity that scalings go by.
#[derive(Clone, Copy)]
pub struct Struck {
    pub note: f32,
    pub normalized_velocity: f32,
}

// What a block starts with: all that its operators have in common, and the pitch envelope after it.
#[derive(Clone, Copy)]
pub struct Begun {
    pub scene: Scene,
    pub pitch_envelope: Envelope,
}

// Number 8.
#[tactic(auto, unfolding(crate::specs::Answers::block_fits))]
fn block_fits(size: usize) -> bool
    ensures { result ≡ block_fits size }
{
    (size % 4 == 0) & (size <= 4096)
}

// Number 7 of the parameters that are given.
fn parameters_fit(p: VoiceParameters) -> bool
    ensures { result ≡ parameters_fit p }
{
    patch_limits::note_fits(p.note)
        & patch_limits::unit_fits(p.velocity)
        & patch_limits::unit_fits(p.brightness)
        & patch_limits::unit_fits(p.envelope_control)
        & patch_limits::between(-4.0, 4.0, p.pitch_mod)
        & patch_limits::unit_fits(p.amp_mod)
}

// What a block plays: the note that takes the given one's place, and the rest as it is given.
#[tactic(auto, unfolding(crate::specs::Block::played_by))]
fn played_by(v: Voice, p: VoiceParameters) -> VoiceParameters
    ensures { result ≡ played_by v p }
{
    VoiceParameters {
        note: voice_note::played_note(v.transposing & v.has_patch, v.patch.transpose, p.note),
        ..p
    }
}

// Number 7 in a block of this voice: the parameters first, then the note that it plays.
#[tactic(auto, unfolding(crate::specs::Answers::parameters_fit_for))]
fn parameters_fit_for(v: Voice, p: VoiceParameters) -> bool
    ensures { result ≡ parameters_fit_for v p }
{
    let q = played_by(v, p);
    parameters_fit(p) & patch_limits::note_fits(q.note)
}

#[tactic(auto, unfolding(crate::specs::Setup::with_setup))]
fn with_setup(v: Voice, pitch_envelope: Envelope, s: Setup) -> Voice
    ensures { result ≡ with_setup v pitch_envelope s }
{
    let Setup {
        operator_envelope,
        ratios,
        level_headroom,
    } = s;
    Voice {
        operator_envelope,
        pitch_envelope,
        ratios,
        level_headroom,
        dirty: false,
        ..v
    }
}

// What is computed once for a patch: envelopes, headroom and frequency ratios. A voice without one stays dirty.
#[tactic(auto, unfolding(crate::specs::Setup::set_up))]
fn set_up(high: &[f32; 256], low: &[f32; 256], v: Voice) -> Voice
    requires { T (state_fits v) }
    ensures { result ≡ set_up high.now low.now v }
{
    if !v.has_patch {
        return v;
    }
    let stages = v.patch.pitch_envelope;
    let pitch = envelope_inner::pitch_set(v.pitch_envelope, stages.rate, stages.level);
    let Voice {
        operator_envelope,
        ratios,
        level_headroom,
        ..
    } = v;
    let before = Setup {
        operator_envelope,
        ratios,
        level_headroom,
    };
    let s = voice_setup::setup_operators(high, low, v.operators, v.patch.op, before);
    with_setup(v, pitch, s)
}

// The same for any voice: a clean one stays as it is.
#[tactic(auto, unfolding(crate::specs::Answers::setup_answer))]
pub fn setup(v: Voice) -> Result<Readied, Refused<Voice>>
    ensures { result ≡ setup_answer lut_pitch_ratio_high lut_pitch_ratio_low v }
{
    if !voice::state_fits(v) {
        return Err(Refused {
            refusal: Refusal::ForeignState,
            state: v,
        });
    }
    if !v.dirty {
        return Ok(Readied {
            was_dirty: false,
            voice: v,
        });
    }
    let high = units::lut_pitch_ratio_high();
    let low = units::lut_pitch_ratio_low();
    Ok(Readied {
        was_dirty: true,
        voice: set_up(&high, &low, v),
    })
}

// The gate opens: it was closed in the last block that sounded.
#[tactic(auto, unfolding(crate::specs::Block::note_on))]
fn note_on(v: Voice, p: VoiceParameters) -> bool
    ensures { result ≡ note_on v p }
{
    p.gate & !v.gate
}

// Note and velocity are taken where a note begins, and in a sustained voice in each block: scalings go by them.
#[tactic(auto, unfolding(crate::specs::Block::struck))]
fn strike(v: Voice, p: VoiceParameters) -> Struck
    ensures { result ≡ struck v p }
{
    if note_on(v, p) | p.sustain {
        return Struck {
            note: p.note,
            normalized_velocity: dx_units_inner::normalize_velocity(p.velocity),
        };
    }
    Struck {
        note: v.note,
        normalized_velocity: v.normalized_velocity,
    }
}

// The pitch envelope and the LFO bend the note; its scalings go by the note as it was struck.
#[tactic(auto, unfolding(crate::specs::Block::begun))]
fn begin(high: &[f32; 256], low: &[f32; 256], v: Voice, p: VoiceParameters, n: u32) -> Begun
    requires { v.pitch_envelope.stage ≤ 3 }
    ensures { result ≡ begun high.now low.now v p n }
{
    let t = voice_levels::timing_for(p.sustain, p.gate, v.sample_rate, p.envelope_control, n);
    let pitch = voice_levels::follow(t, false, t.envelope_rate, v.pitch_envelope);
    let f0 = voice_levels::note_frequency(high, low, v.a0, p.note, pitch.value + p.pitch_mod);
    let s = strike(v, p);
    Begun {
        scene: Scene {
            timing: t,
            f0,
            one_hz: v.one_hz,
            note: s.note,
            normalized_velocity: s.normalized_velocity,
            brightness: p.brightness,
            amp_mod: p.amp_mod,
        },
        pitch_envelope: pitch.envelope,
    }
}

fn restart(o: Operator) -> Operator
    ensures { result ≡ restarted o }
{
    Operator { phase: 0, ..o }
}

// Phases start anew at a note-on, if the patch asks for it.
#[tactic(auto, unfolding(crate::specs::Block::entering, crate::specs::Block::all_restarted))]
fn enter(v: Voice, p: VoiceParameters) -> [Operator; 6]
    ensures { result ≡ entering v p }
{
    if note_on(v, p) & (v.patch.reset_phase != 0) {
        return v.operator.map(restart);
    }
    v.operator
}

// The marks that a block of n samples tells: no pitch of an empty one is cut off.
fn told(n: usize, marks: [Mark; 6]) -> [Mark; 6]
    ensures { result ≡ cond (eqb n 0) all_as_asked marks }
{
    if n == 0 {
        return voice_levels::all_as_asked();
    }
    marks
}

// What a block of n samples gives: its marks, and the voice after it.
#[tactic(auto, unfolding(crate::specs::Block::after))]
fn leave(n: usize, v: Voice, p: VoiceParameters, b: Begun, l: Levels, os: Operators) -> Rendered
    ensures { result ≡ record { marks = cond (eqb n 0) all_as_asked l.marks; voice = after v p b l os } }
{
    let Operators {
        operator,
        feedback_state,
    } = os;
    let Levels {
        operator_envelope,
        marks,
        ..
    } = l;
    Rendered {
        marks: told(n, marks),
        voice: Voice {
            gate: p.gate,
            operator,
            operator_envelope,
            pitch_envelope: b.pitch_envelope,
            normalized_velocity: b.scene.normalized_velocity,
            note: b.scene.note,
            feedback_state,
            ..v
        },
    }
}

// A sounding block: envelopes, frequencies and amplitudes first, then the plan's calls.
fn render_sounding(
    v: Voice,
    p: VoiceParameters,
    pairs: &[f32; 1024],
    high: &[f32; 256],
    low: &[f32; 256],
    block: &mut [f32],
) -> Rendered
    requires { T (state_fits v) × (v.dirty ≡ false) × T (block_fits (length block.old)) }
    ensures { sounded_by result block.new ≡ sounded pairs.now high.now low.now v p block.old }
{
    let n = block.len() / 4;
    let b = begin(high, low, v, p, n as u32);
    let l = voice_levels::level_operators(
        b.scene,
        v.operators,
        v.patch.op,
        v.ratios,
        v.level_headroom,
        v.row,
        v.operator_envelope,
    );
    let before = Operators {
        operator: enter(v, p),
        feedback_state: v.feedback_state,
    };
    let os = voice_block::run_plan(
        pairs,
        v.plan,
        before,
        l.steps,
        l.amplitudes,
        v.patch.feedback,
        block,
    );
    leave(n, v, p, b, l, os)
}

// Numbers 9, 8 and 7.
#[tactic(auto, unfolding(crate::specs::Answers::checked))]
fn check(v: Voice, p: VoiceParameters, size: usize) -> Result<(), Refusal>
    ensures { result ≡ checked v p size }
{
    if !voice::state_fits(v) {
        return Err(Refusal::ForeignState);
    }
    if !block_fits(size) {
        return Err(Refusal::BlockLength);
    }
    if !parameters_fit_for(v, p) {
        return Err(Refusal::Parameter);
    }
    Ok(())
}

// A block, with the tables lent. A dirty voice's is blank: it sets up and touches no buffer. The old hardware had no
// time for both in one block, and a short clean gap before a new patch was preferred to a glitch. A blank block does
// not record the gate, so the note that is held over it is struck in the block behind it.
#[tactic(auto, unfolding(crate::specs::Answers::render_answer, crate::specs::Answers::checked))]
pub fn render_with(
    pairs: &[f32; 1024],
    high: &[f32; 256],
    low: &[f32; 256],
    v: Voice,
    p: VoiceParameters,
    block: &mut [f32],
) -> Result<Rendered, Refused<Voice>>
    ensures { answered_by result block.new
        ≡ render_answer pairs.now high.now low.now v p block.old }
{
    // Stays: with `check(..).map_err(..)?` a block's instructions are 640 more, 7% at 24 samples and 11% at 4.
    if let Err(refusal) = check(v, p, block.len()) {
        return Err(Refused { refusal, state: v });
    }
    if v.dirty {
        return Ok(Rendered {
            marks: voice_levels::all_as_asked(),
            voice: set_up(high, low, v),
        });
    }
    let q = played_by(v, p);
    Ok(render_sounding(v, q, pairs, high, low, block))
}

// A block: the output and scratch 1 to 3, a quarter each.
pub fn render(v: Voice, p: VoiceParameters, block: &mut [f32]) -> Result<Rendered, Refused<Voice>>
    ensures { answered_by result block.new
        ≡ render_answer sine_pairs lut_pitch_ratio_high lut_pitch_ratio_low v p block.old }
{
    let pairs = sine::sine_pairs();
    let high = units::lut_pitch_ratio_high();
    let low = units::lut_pitch_ratio_low();
    render_with(&pairs, &high, &low, v, p, block)
}
