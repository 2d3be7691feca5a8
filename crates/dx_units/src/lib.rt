// The conversions of DX7 patch data, after dx_units.rs and in its order, and the step for a frequency, after
// operator.rs. An entry refuses a field above its largest number (6) and a parameter that is a NaN or outside its range
// (7), and its promise names the answer for every input. The conversions themselves, for callers that have checked
// their fields, and what each is about, are in `dx_units_inner`.
#![tactic(auto)]

ghost use Rattle.std.specs.Prelude.{◌≡◌, leb};
ghost use Rattle.dx_units.specs.Answers.{field_checked};
ghost use Rattle.dx_units.specs.Answers.{operator_level_answer, pitch_envelope_level_answer};
ghost use Rattle.dx_units.specs.Answers.{operator_envelope_increment_answer, pitch_envelope_increment_answer};
ghost use Rattle.dx_units.specs.Answers.{lfo_frequency_answer, lfo_delay_answer, normalize_velocity_answer};
ghost use Rattle.dx_units.specs.Answers.{rate_scaling_answer, amp_mod_sensitivity_answer};
ghost use Rattle.dx_units.specs.Answers.{pitch_mod_sensitivity_answer, keyboard_scaling_answer};
ghost use Rattle.dx_units.specs.Answers.{frequency_ratio_answer, frequency_fits};

use dx_units_inner::LevelChart;
pub use dx_units_inner::{Increments, Ratio, level_chart, lut_coarse, lut_cube_root};
pub use dx_units_power::pow_2_fast;
pub use dx_units_step::{Mark, Stepped, frequency_step};
use patch::{KeyboardScaling, largest};
use refusals::Refusal;

// Refuses a field above its largest number.
fn check(field: u8, largest: u8) -> Result<(), Refusal>
    ensures { result ≡ field_checked (leb field largest) tt }
{
    if field > largest {
        return Err(Refusal::Field);
    }
    Ok(())
}

// An operator level from 0 to 99 as the complement of the chip's total level.
#[tactic(auto, unfolding(crate::specs::Answers::operator_level_answer, patch::specs::Layout::operator_field))]
pub fn operator_level(level: u8) -> Result<u8, Refusal>
    ensures { result ≡ operator_level_answer level }
{
    check(level, largest::WHOLE)?;
    let chart = LevelChart::new();
    Ok(dx_units_inner::operator_level(&chart, level))
}

// A pitch envelope's level from 0 to 99 in octaves: 18 is one down, 50 none, 82 one up.
#[tactic(auto, unfolding(crate::specs::Answers::pitch_envelope_level_answer, patch::specs::Layout::envelope_field))]
pub fn pitch_envelope_level(level: u8) -> Result<f32, Refusal>
    ensures { result ≡ pitch_envelope_level_answer level }
{
    check(level, largest::WHOLE)?;
    Ok(dx_units_inner::pitch_envelope_level(level))
}

// An operator envelope's rate from 0 to 99 as a frequency.
pub fn operator_envelope_increment(rate: u8) -> Result<f32, Refusal>
    ensures { result ≡ operator_envelope_increment_answer rate }
{
    check(rate, largest::WHOLE)?;
    Ok(dx_units_inner::operator_envelope_increment(rate))
}

// A pitch envelope's rate from 0 to 99 as a frequency.
#[tactic(auto, unfolding(crate::specs::Answers::pitch_envelope_increment_answer, patch::specs::Layout::envelope_field))]
pub fn pitch_envelope_increment(rate: u8) -> Result<f32, Refusal>
    ensures { result ≡ pitch_envelope_increment_answer rate }
{
    check(rate, largest::WHOLE)?;
    Ok(dx_units_inner::pitch_envelope_increment(rate))
}

// An LFO's rate from 0 to 99 as a frequency.
#[tactic(auto, unfolding(crate::specs::Answers::lfo_frequency_answer, patch::specs::Layout::lfo_field))]
pub fn lfo_frequency(rate: u8) -> Result<f32, Refusal>
    ensures { result ≡ lfo_frequency_answer rate }
{
    check(rate, largest::WHOLE)?;
    Ok(dx_units_inner::lfo_frequency(rate))
}

// An LFO's delay from 0 to 99 as two increments.
#[tactic(auto, unfolding(crate::specs::Answers::lfo_delay_answer, patch::specs::Layout::lfo_field))]
pub fn lfo_delay(delay: u8) -> Result<Increments, Refusal>
    ensures { result ≡ lfo_delay_answer delay }
{
    check(delay, largest::WHOLE)?;
    Ok(dx_units_inner::lfo_delay(delay))
}

// A velocity from 0 to 1, made ready for its scaling.
#[tactic(auto, unfolding(crate::specs::Answers::normalize_velocity_answer))]
pub fn normalize_velocity(velocity: f32) -> Result<f32, Refusal>
    ensures { result ≡ normalize_velocity_answer velocity }
{
    if !patch_limits::unit_fits(velocity) {
        return Err(Refusal::Parameter);
    }
    Ok(dx_units_inner::normalize_velocity(velocity))
}

// The ratio of an envelope's increments at a note from 0 to 127.
#[tactic(auto, unfolding(crate::specs::Answers::rate_scaling_answer, patch::specs::Layout::operator_field))]
pub fn rate_scaling(note: f32, scaling: u8) -> Result<f32, Refusal>
    ensures { result ≡ rate_scaling_answer note scaling }
{
    check(scaling, largest::RATE_SCALING)?;
    if !patch_limits::note_fits(note) {
        return Err(Refusal::Parameter);
    }
    Ok(dx_units_inner::rate_scaling(note, scaling))
}

// An operator's amplitude modulation sensitivity, from 0 to 3.
#[tactic(auto, unfolding(crate::specs::Answers::amp_mod_sensitivity_answer, patch::specs::Layout::operator_field))]
pub fn amp_mod_sensitivity(sensitivity: u8) -> Result<f32, Refusal>
    ensures { result ≡ amp_mod_sensitivity_answer sensitivity }
{
    check(sensitivity, largest::AMP_MOD_SENSITIVITY)?;
    Ok(dx_units_inner::amp_mod_sensitivity(sensitivity))
}

// The pitch modulation sensitivity, from 0 to 7.
#[tactic(auto, unfolding(crate::specs::Answers::pitch_mod_sensitivity_answer, patch::specs::Layout::lfo_field))]
pub fn pitch_mod_sensitivity(sensitivity: u8) -> Result<f32, Refusal>
    ensures { result ≡ pitch_mod_sensitivity_answer sensitivity }
{
    check(sensitivity, largest::LFO_SENSITIVITY)?;
    Ok(dx_units_inner::pitch_mod_sensitivity(sensitivity))
}

// The level's change at a note, by the side of the break point on which it lies. All five numbers are checked, used or
// not.
#[tactic(auto, unfolding(crate::specs::Answers::keyboard_scaling_answer))]
pub fn keyboard_scaling(note: f32, scaling: KeyboardScaling) -> Result<f32, Refusal>
    ensures { result ≡ keyboard_scaling_answer note scaling }
{
    if !patch_limits::scaling_fits(scaling) {
        return Err(Refusal::Field);
    }
    if !patch_limits::note_fits(note) {
        return Err(Refusal::Parameter);
    }
    Ok(dx_units_inner::keyboard_scaling(
        note,
        scaling.left_depth,
        scaling.right_depth,
        scaling.left_curve,
        scaling.right_curve,
        scaling.break_point,
    ))
}

// An operator's frequency: a ratio to the note's, or to 1 Hz. Rust has a sign in place of the cases.
#[tactic(auto, using(crate::proofs::Refusals::fits_coarse), unfolding(crate::specs::Answers::frequency_ratio_answer))]
pub fn frequency_ratio(mode: u8, coarse: u8, fine: u8, detune: u8) -> Result<Ratio, Refusal>
    ensures { result ≡ frequency_ratio_answer mode coarse fine detune }
{
    if !frequency_fits(mode, coarse, fine, detune) {
        return Err(Refusal::Field);
    }
    let high = units::lut_pitch_ratio_high();
    let low = units::lut_pitch_ratio_low();
    Ok(dx_units_inner::frequency_ratio(&high, &low, mode, coarse, fine, detune))
}

// Whether a frequency's numbers are at most their largest.
#[tactic(auto, unfolding(crate::specs::Answers::frequency_fits, patch::specs::Layout::operator_field))]
fn frequency_fits(mode: u8, coarse: u8, fine: u8, detune: u8) -> bool
    ensures { result ≡ frequency_fits mode coarse fine detune }
{
    (mode <= largest::MODE)
        & (coarse <= largest::COARSE)
        & (fine <= largest::WHOLE)
        & (detune <= largest::DETUNE)
}
