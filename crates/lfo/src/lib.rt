// The LFO's entries, after lfo.rs and in its order. Each refuses in document 01's order (9, then 5, 6 or 7), and its
// promise names the answer for every input: a refusal hands back the LFO, and the generator's number beside it, as they
// came. An entry with `_with` takes the sine table lent, the same entry without makes it where the wave is a sine. The
// functions themselves, for callers that have checked their state and arguments, are in `lfo_inner`.
#![tactic(auto)]

ghost use Rattle.std.specs.Prelude.{◌≡◌};
ghost use Rattle.sine.specs.Table.{lut_sine};
ghost use Rattle.lfo.specs.Answers.{from_zero, state_fits, step_fits, scrub_fits, checked, move_answer};
ghost use Rattle.lfo.specs.Answers.{init_answer, set_answer, reset_answer, step_answer, scrub_answer};
ghost use Rattle.lfo.specs.Answers.{value_answer, delay_ramp_answer, pitch_mod_answer, amp_mod_answer};

pub use lfo_inner::{Lfo, Motion, Waveform};
use refusals::{Refusal, Refused};

// A fresh LFO; 5 where the sample rate is not finite, below 8,000 or above 192,000, beside an LFO that every other
// entry refuses with 9: all zeros, but for a phase of 1.
pub fn init(sample_rate: f32) -> Result<Lfo, Refused<Lfo>>
    ensures { result ≡ init_answer sample_rate }
{
    if patch_limits::sample_rate_fits(sample_rate) {
        return Ok(lfo_inner::fresh(1.0 / sample_rate, 0.1));
    }
    let mut none = lfo_inner::fresh(0.0, 0.0);
    none.phase = 1.0;
    Err(Refused {
        refusal: Refusal::SampleRate,
        state: none,
    })
}

// The rate, the delay, the wave and the depths of a patch; 9, then 6 for a field above its largest number.
#[tactic(auto, using(crate::proofs::Fields::sensitivity_fits), unfolding(crate::specs::Answers::set_answer))]
pub fn set(lfo: Lfo, modulations: patch::ModulationParameters) -> Result<Lfo, Refused<Lfo>>
    ensures { result ≡ set_answer lfo modulations }
{
    let lfo = checked(lfo)?;
    if !patch_limits::modulations_fit(modulations, patch::largest::LFO_SENSITIVITY) {
        return Err(Refused {
            refusal: Refusal::Field,
            state: lfo,
        });
    }
    Ok(lfo_inner::set(lfo, modulations))
}

// The phase starts anew if the patch asked for it, the delay always; 9.
#[tactic(auto, unfolding(crate::specs::Answers::reset_answer))]
pub fn reset(lfo: Lfo) -> Result<Lfo, Refused<Lfo>>
    ensures { result ≡ reset_answer lfo }
{
    let lfo = checked(lfo)?;
    Ok(lfo_inner::reset(lfo))
}

// On by `scale` samples; 9, then 7.
#[tactic(auto, unfolding(crate::specs::Answers::step_answer))]
pub fn step(motion: Motion, scale: f32) -> Result<Motion, Refused<Motion>>
    ensures { result ≡ step_answer lut_sine motion scale }
{
    let fits = step_fits(motion.lfo, scale);
    moved(motion, fits, |motion| lfo_inner::step(motion, scale))
}

// The same with the sine table lent.
#[tactic(auto, unfolding(crate::specs::Answers::step_answer))]
pub fn step_with(lut: &[f32; 641], motion: Motion, scale: f32) -> Result<Motion, Refused<Motion>>
    ensures { result ≡ step_answer lut.now motion scale }
{
    let fits = step_fits(motion.lfo, scale);
    moved(
        motion,
        fits,
        |motion| lfo_inner::step_with(lut, motion, scale),
    )
}

// To the phase at `sample`; 9, then 7.
#[tactic(auto, unfolding(crate::specs::Answers::scrub_answer))]
pub fn scrub(motion: Motion, sample: f32) -> Result<Motion, Refused<Motion>>
    ensures { result ≡ scrub_answer lut_sine motion sample }
{
    let fits = scrub_fits(motion.lfo, sample);
    moved(motion, fits, |motion| lfo_inner::scrub(motion, sample))
}

// The same with the sine table lent.
#[tactic(auto, unfolding(crate::specs::Answers::scrub_answer))]
pub fn scrub_with(lut: &[f32; 641], motion: Motion, sample: f32) -> Result<Motion, Refused<Motion>>
    ensures { result ≡ scrub_answer lut.now motion sample }
{
    let fits = scrub_fits(motion.lfo, sample);
    moved(
        motion,
        fits,
        |motion| lfo_inner::scrub_with(lut, motion, sample),
    )
}

// The wave at the stored phase, which need not be the stored value; 9.
#[tactic(auto, unfolding(crate::specs::Answers::value_answer))]
pub fn value(lfo: Lfo) -> Result<f32, Refusal>
    ensures { result ≡ value_answer lut_sine lfo }
{
    let lfo = checked(lfo)?;
    Ok(lfo_inner::value(lfo))
}

// The same with the sine table lent.
#[tactic(auto, unfolding(crate::specs::Answers::value_answer))]
pub fn value_with(lut: &[f32; 641], lfo: Lfo) -> Result<f32, Refusal>
    ensures { result ≡ value_answer lut.now lfo }
{
    let lfo = checked(lfo)?;
    Ok(lfo_inner::value_with(lut, lfo))
}

// How far the modulation has faded in, from 0 to 1; 9.
#[tactic(auto, unfolding(crate::specs::Answers::delay_ramp_answer))]
pub fn delay_ramp(lfo: Lfo) -> Result<f32, Refusal>
    ensures { result ≡ delay_ramp_answer lfo }
{
    let lfo = checked(lfo)?;
    Ok(lfo_inner::delay_ramp(lfo))
}

// The pitch modulation, by the stored value; 9.
#[tactic(auto, unfolding(crate::specs::Answers::pitch_mod_answer))]
pub fn pitch_mod(lfo: Lfo) -> Result<f32, Refusal>
    ensures { result ≡ pitch_mod_answer lfo }
{
    let lfo = checked(lfo)?;
    Ok(lfo_inner::pitch_mod(lfo))
}

// The amplitude modulation, by the stored value; 9.
#[tactic(auto, unfolding(crate::specs::Answers::amp_mod_answer))]
pub fn amp_mod(lfo: Lfo) -> Result<f32, Refusal>
    ensures { result ≡ amp_mod_answer lfo }
{
    let lfo = checked(lfo)?;
    Ok(lfo_inner::amp_mod(lfo))
}

// An LFO that 9 accepts.
fn checked(lfo: Lfo) -> Result<Lfo, Refused<Lfo>>
    ensures { result ≡ checked lfo }
{
    if !state_fits(lfo) {
        return Err(Refused {
            refusal: Refusal::ForeignState,
            state: lfo,
        });
    }
    Ok(lfo)
}

// A motion whose LFO 9 accepts and whose argument fits; 9, then 7.
fn moved<M: FnOnce(Motion) -> Motion>(
    motion: Motion,
    fits: bool,
    go: M,
) -> Result<Motion, Refused<Motion>>
    requires { M.IsAlwaysCallable go }
    ensures { (there : Motion) → ((m : Motion) → M.post go motion m → m ≡ there)
        → result ≡ move_answer motion fits there }
{
    if !state_fits(motion.lfo) {
        return Err(Refused {
            refusal: Refusal::ForeignState,
            state: motion,
        });
    }
    if !fits {
        return Err(Refused {
            refusal: Refusal::Parameter,
            state: motion,
        });
    }
    Ok(go(motion))
}

// Finite and at least 0, as -0 is.
fn from_zero(x: f32) -> bool
    ensures { result ≡ from_zero x }
{
    (x >= 0.0) & x.is_finite()
}

#[tactic(auto, unfolding(crate::specs::Answers::state_fits, numbers::specs::F32::decimal))]
fn state_fits(lfo: Lfo) -> bool
    ensures { result ≡ state_fits lfo }
{
    (lfo.phase >= 0.0) & (lfo.phase < 1.0) & from_zero(lfo.frequency)
}

#[tactic(auto, unfolding(crate::specs::Answers::step_fits, numbers::specs::F32::decimal))]
fn step_fits(lfo: Lfo, scale: f32) -> bool
    ensures { result ≡ step_fits lfo scale }
{
    from_zero(scale) & (scale * lfo.frequency < 1.0)
}

fn scrub_fits(lfo: Lfo, sample: f32) -> bool
    ensures { result ≡ scrub_fits lfo sample }
{
    from_zero(sample) & (sample * lfo.frequency < 2147483648.0)
}
