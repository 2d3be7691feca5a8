// A DX7 voice between blocks, after voice.rs: its state goes in and comes back by value. An entry refuses in document
// 01's order (starting 2, 5; setting a patch 9, 6, 2, 3, 4; taking it out, asking for it or setting the switch 9), and
// its promise names the answer for every input: a refusal hands back the voice as it came. `voice_render` has its setup
// and its blocks.
#![tactic(auto)]

ghost use Rattle.std.specs.Prelude.{◌≡◌};
ghost use Rattle.envelope_inner.specs.Envelope.{all_stages};
ghost use Rattle.voice.specs.Voice.{voice_with, with_patch, with_switch};
ghost use Rattle.voice.specs.Answers.{patch_sound, state_fits, accepted, init_answer, row_compiled, set_patch_answer};
ghost use Rattle.voice.specs.Answers.{take_patch_answer, patch_answer, set_transposing_answer};

use algorithms::{Compiled, Plan};
use dx_units_inner::Ratio;
use envelope_inner::Envelope;
use operator::{Feedback, Operator};
use patch::Patch;
use refusals::{Refusal, Refused};

#[derive(Clone, Copy)]
pub struct Voice {
    pub operators: usize,
    pub sample_rate: f32,
    pub one_hz: f32,
    pub a0: f32,
    pub gate: bool,
    pub operator: [Operator; 6],
    pub operator_envelope: [Envelope; 6],
    pub pitch_envelope: Envelope,
    pub normalized_velocity: f32,
    pub note: f32,
    pub ratios: [Ratio; 6],
    pub level_headroom: [f32; 6],
    pub feedback_state: Feedback,
    // Stays: an Option<Patch> asks more of callers: a host's voice may hold any patch, row and plan beside false here.
    pub has_patch: bool,
    pub patch: Patch,
    pub row: [u8; 6],
    pub plan: Plan,
    pub dirty: bool,
    // The Rust has no such switch: its voice never looks at transpose.
    pub transposing: bool,
}

// A voice at rest, dirty and without a patch; of no operators where starting is refused.
fn voice_with(operators: usize, sample_rate: f32, one_hz: f32, a0: f32) -> Voice
    ensures { result ≡ voice_with operators sample_rate one_hz a0 }
{
    // Envelope increments are written for 44,100 Hz, whatever the rate: the older instrument's.
    let e = envelope_inner::init(44100.0 * one_hz);
    Voice {
        operators,
        sample_rate,
        one_hz,
        a0,
        gate: false,
        operator: [Operator::new(); 6],
        operator_envelope: [e; 6],
        pitch_envelope: e,
        normalized_velocity: 10.0,
        note: 48.0,
        ratios: [Ratio::Note(0.0); 6],
        level_headroom: [0.0; 6],
        feedback_state: Feedback {
            previous_0: 0.0,
            previous_1: 0.0,
        },
        has_patch: false,
        patch: Patch::new(),
        row: [0; 6],
        plan: algorithms::no_plan(),
        dirty: true,
        transposing: false,
    }
}

// No envelope has a stage above 3.
fn all_stages(envelopes: [Envelope; 6]) -> bool
    ensures { result ≡ all_stages envelopes }
{
    envelopes.iter().all(|e| e.stage <= 3)
}

// A stored patch whose fields 6 accepts, with a row that gets neither 3 nor 4 and that row's plan.
#[tactic(auto, unfolding(crate::specs::Answers::patch_sound))]
fn patch_sound(operators: usize, patch: Patch, row: [u8; 6], plan: Plan) -> bool
    ensures { result ≡ patch_sound operators patch row plan }
{
    patch_limits::patch_fits(patch) && algorithms::is_plan_of(operators, row, plan)
}

// Number 9.
#[tactic(auto, unfolding(crate::specs::Answers::state_fits))]
pub fn state_fits(v: Voice) -> bool
    ensures { result ≡ state_fits v }
{
    if !algorithms::is_counted(v.operators)
        || !all_stages(v.operator_envelope)
        || v.pitch_envelope.stage > 3
    {
        return false;
    }
    if v.has_patch {
        return patch_sound(v.operators, v.patch, v.row, v.plan);
    }
    v.dirty
}

// A voice that 9 accepts.
#[tactic(auto, unfolding(crate::specs::Answers::accepted))]
fn accepted(v: Voice) -> Result<Voice, Refused<Voice>>
    ensures { result ≡ accepted v }
{
    if !state_fits(v) {
        return Err(Refused {
            refusal: Refusal::ForeignState,
            state: v,
        });
    }
    Ok(v)
}

// A fresh voice of 4 or 6 operators.
pub fn init(operators: usize, sample_rate: f32) -> Result<Voice, Refused<Voice>>
    ensures { result ≡ init_answer operators sample_rate }
{
    if !algorithms::is_counted(operators) {
        return Err(Refused {
            refusal: Refusal::WrongTable,
            state: voice_with(0, 0.0, 0.0, 0.0),
        });
    }
    if !patch_limits::sample_rate_fits(sample_rate) {
        return Err(Refused {
            refusal: Refusal::SampleRate,
            state: voice_with(0, 0.0, 0.0, 0.0),
        });
    }
    Ok(voice_with(
        operators,
        sample_rate,
        1.0 / sample_rate,
        55.0 / sample_rate,
    ))
}

// The voice with another patch or none, which the next block sets up.
#[tactic(auto, unfolding(crate::specs::Voice::with_patch))]
fn with_patch(v: Voice, has_patch: bool, patch: Patch, row: [u8; 6], plan: Plan) -> Voice
    ensures { result ≡ with_patch v has_patch patch row plan }
{
    Voice {
        has_patch,
        patch,
        row,
        plan,
        dirty: true,
        ..v
    }
}

// The row that a patch names, compiled: 6, 2, 3, 4.
#[tactic(auto, unfolding(crate::specs::Answers::row_compiled, patch::specs::Packed::check_of))]
fn compile(operators: usize, patch: Patch, table: &[u8]) -> Result<Compiled, Refusal>
    ensures { result ≡ row_compiled operators patch table.now }
{
    patch_limits::check(patch)?;
    algorithms::compile(operators, table, patch.algorithm as usize)
}

// A patch, with the row of the lent table that its algorithm names.
#[tactic(auto, unfolding(crate::specs::Answers::set_patch_answer, crate::specs::Answers::accepted))]
pub fn set_patch(v: Voice, patch: Patch, table: &[u8]) -> Result<Voice, Refused<Voice>>
    ensures { result ≡ set_patch_answer v patch table.now }
{
    let w = accepted(v)?;
    match compile(w.operators, patch, table) {
        Ok(c) => Ok(with_patch(w, true, patch, c.row, c.plan)),
        Err(refusal) => Err(Refused { refusal, state: w }),
    }
}

// No patch any more.
pub fn take_patch(v: Voice) -> Result<Voice, Refused<Voice>>
    ensures { result ≡ take_patch_answer v }
{
    let w = accepted(v)?;
    Ok(with_patch(w, false, Patch::new(), [0; 6], algorithms::no_plan()))
}

// The voice with its switch on or off, which the next block sets up.
#[tactic(auto, unfolding(crate::specs::Voice::with_switch))]
fn with_switch(v: Voice, on: bool) -> Voice
    ensures { result ≡ with_switch v on }
{
    Voice {
        transposing: on,
        dirty: true,
        ..v
    }
}

// Whether the patch's transpose moves the notes that blocks play. The voice is dirty then, also where the switch stays
// as it was.
#[tactic(auto, unfolding(crate::specs::Answers::set_transposing_answer, crate::specs::Answers::accepted))]
pub fn set_transposing(v: Voice, on: bool) -> Result<Voice, Refused<Voice>>
    ensures { result ≡ set_transposing_answer v on }
{
    Ok(with_switch(accepted(v)?, on))
}

// The patch that the voice has, if it has one.
#[tactic(auto, unfolding(crate::specs::Answers::patch_answer, crate::specs::Answers::accepted))]
pub fn patch(v: Voice) -> Result<Option<Patch>, Refusal>
    ensures { result ≡ patch_answer v }
{
    let w = accepted(v)?;
    Ok(w.has_patch.then_some(w.patch))
}
