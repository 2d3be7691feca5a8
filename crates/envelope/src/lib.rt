// The envelopes' entries, after envelope.rs. An entry refuses a state with a stage above 3 (9) and a number above its
// largest (6); every float is taken, NaN included. Its promise names the answer for every input: a refusal of an entry
// that would change the state hands it back as it came. The functions themselves, for callers that have checked their
// state, are in `envelope_inner`.
#![tactic(auto)]

ghost use Rattle.std.specs.Prelude.{◌≡◌, ◌≤◌, OnOk};
ghost use Rattle.envelope.specs.Answers.{state_checked, operator_fits, pitch_fits, set_answer, operator_set_answer};
ghost use Rattle.envelope.specs.Answers.{pitch_set_answer, render_answer, scrub_answer, current_value_answer};
ghost use Rattle.envelope.specs.Answers.{value_answer};

use dx_units_inner::LevelChart;
pub use envelope_inner::{Envelope, Position, init};
use refusals::{Refusal, Refused};

// What a step gives: the envelope, and its value there.
#[derive(Clone, Copy)]
pub struct Rendered {
    pub envelope: Envelope,
    pub value: f32,
}

// Refuses a state with a stage that there is not.
fn check(envelope: Envelope) -> Result<(), Refused<Envelope>>
    ensures answer { result ≡ state_checked envelope }
    ensures stage { OnOk result (envelope.stage ≤ 3) }
{
    if envelope.stage > 3 {
        return Err(Refused {
            refusal: Refusal::ForeignState,
            state: envelope,
        });
    }
    Ok(())
}

// Increments and levels of an envelope's own, copied as they are.
#[tactic(auto, unfolding(crate::specs::Answers::set_answer))]
pub fn set(
    envelope: Envelope,
    increment: [f32; 4],
    level: [f32; 4],
) -> Result<Envelope, Refused<Envelope>>
    ensures { result ≡ set_answer envelope increment level }
{
    check(envelope)?;
    Ok(envelope_inner::set(envelope, increment, level))
}

// The value at a time after the gate opened, from the stages' durations alone: the scrub.
#[tactic(auto, unfolding(crate::specs::Answers::scrub_answer))]
pub fn render_at_sample(
    envelope: Envelope,
    reshape: bool,
    t: f32,
    gate_duration: f32,
) -> Result<f32, Refusal>
    ensures { result ≡ scrub_answer reshape envelope t gate_duration }
{
    check(envelope)?;
    Ok(envelope_inner::render_at_sample(envelope, reshape, t, gate_duration))
}

// One step of an envelope, and its value there.
#[tactic(auto, unfolding(crate::specs::Answers::render_answer))]
pub fn render(
    envelope: Envelope,
    gate: bool,
    rate: f32,
    ad_scale: f32,
    release_scale: f32,
    reshape: bool,
) -> Result<Rendered, Refused<Envelope>>
    ensures { result ≡ render_answer reshape gate rate ad_scale release_scale envelope }
{
    check(envelope)?;
    let q = envelope_inner::render(envelope, reshape, gate, rate, ad_scale, release_scale);
    let rendered = envelope.move_to(q);
    Ok(Rendered {
        envelope: rendered,
        value: envelope_inner::current_value(rendered, reshape),
    })
}

// The value where the envelope stands.
#[tactic(auto, unfolding(crate::specs::Answers::current_value_answer))]
pub fn current_value(envelope: Envelope, reshape: bool) -> Result<f32, Refusal>
    ensures { result ≡ current_value_answer reshape envelope }
{
    check(envelope)?;
    Ok(envelope_inner::current_value(envelope, reshape))
}

// The value at a position, wherever the envelope stands.
#[tactic(auto, unfolding(crate::specs::Answers::value_answer))]
pub fn value(envelope: Envelope, reshape: bool, q: Position) -> Result<f32, Refusal>
    ensures { result ≡ value_answer reshape envelope q.stage q.phase q.start }
{
    check(envelope)?;
    if q.stage > 3 {
        return Err(Refusal::Field);
    }
    Ok(envelope_inner::value(envelope, reshape, q))
}

// An operator's rates, levels and global level.
#[tactic(auto, unfolding(crate::specs::Answers::operator_set_answer))]
pub fn operator_set(
    envelope: Envelope,
    rate: [u8; 4],
    level: [u8; 4],
    global_level: u8,
) -> Result<Envelope, Refused<Envelope>>
    ensures { result ≡ operator_set_answer envelope rate level global_level }
{
    check(envelope)?;
    if !operator_fits(rate, level, global_level) {
        return Err(Refused {
            refusal: Refusal::Field,
            state: envelope,
        });
    }
    let chart = LevelChart::new();
    Ok(envelope_inner::operator_set(&chart, envelope, rate, level, global_level))
}

// The pitch's rates and levels.
#[tactic(auto, unfolding(crate::specs::Answers::pitch_set_answer))]
pub fn pitch_set(
    envelope: Envelope,
    rate: [u8; 4],
    level: [u8; 4],
) -> Result<Envelope, Refused<Envelope>>
    ensures { result ≡ pitch_set_answer envelope rate level }
{
    check(envelope)?;
    if !pitch_fits(rate, level) {
        return Err(Refused {
            refusal: Refusal::Field,
            state: envelope,
        });
    }
    Ok(envelope_inner::pitch_set(envelope, rate, level))
}

// Whether an operator's numbers are at most their largest.
#[tactic(auto, unfolding(crate::specs::Answers::operator_fits))]
fn operator_fits(rate: [u8; 4], level: [u8; 4], global_level: u8) -> bool
    ensures { result ≡ operator_fits rate level global_level }
{
    pitch_fits(rate, level) & (global_level <= 127)
}

// Whether rates and levels are.
#[tactic(auto, unfolding(crate::specs::Answers::pitch_fits))]
fn pitch_fits(rate: [u8; 4], level: [u8; 4]) -> bool
    ensures { result ≡ pitch_fits rate level }
{
    patch_limits::stages_fit(&rate) & patch_limits::stages_fit(&level)
}
