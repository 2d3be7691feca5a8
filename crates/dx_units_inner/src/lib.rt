// The conversions of dx_units.rs themselves, in its order, for callers that have checked their fields. Each promises
// its definition; where a table is looked up, the field is asked to be in bounds. `pow_2_fast` is in `dx_units_power`,
// the step for a frequency in `dx_units_step`; the entries, which refuse what is out of range, are in `dx_units`.
// Levels count in steps of an eighth of an octave of amplitude, 0.75 dB. The constants are the Rust's, fitted to the
// old instrument; where a curve has a jump or a corner, it stays.
#![tactic(auto)]

ghost use Rattle.std.specs.Prelude.{◌≡◌, ◌≤◌};
ghost use Rattle.dx_units_inner.specs.Tables.{level_chart, lut_coarse, lut_cube_root};
ghost use Rattle.dx_units_inner.specs.Units.{operator_level, pitch_envelope_level, operator_envelope_increment};
ghost use Rattle.dx_units_inner.specs.Units.{pitch_envelope_increment, lfo_steps, lfo_frequency};
ghost use Rattle.dx_units_inner.specs.Units.{delay_steps, lfo_delay};
ghost use Rattle.dx_units_inner.specs.Units.{normalized_velocity_of, rate_scaling_of, amp_mod_sensitivity_of};
ghost use Rattle.dx_units_inner.specs.Units.{pitch_mod_sensitivity_of, bent, side_scaling, keyboard_scaling_of};
ghost use Rattle.dx_units_inner.specs.Units.{coarse_semitones, base_semitones, fine_factor, frequency_ratio};

mod tables;

pub use tables::LevelChart;

// The increments of an LFO's delay and of the fade that follows, in Hz: each has half a phase to go.
#[derive(Clone, Copy)]
pub struct Increments {
    pub first: f32,
    pub second: f32,
}

// A frequency as a ratio to the note's, or to 1 Hz.
#[derive(Clone, Copy)]
pub enum Ratio {
    Note(f32),
    Hertz(f32),
}

// A level from 0 to 99 in steps up to 127, the loudest: what the chip's total level, which counts downwards, leaves of
// 127. It is looked up in the chart, lent by a caller. The Rust computes it: from 20 on a level is one step, so that 99
// is 127; 15 to 19 lie one step under that line; up to 14 it is a parabola, level * (36 - level) / 8, down to 0.
#[tactic(auto, using(crate::proofs::Chart::chart_agrees))]
pub fn operator_level(chart: &LevelChart, level: u8) -> u8
    requires { level ≤ 99 }
    ensures { result ≡ operator_level level }
{
    chart.steps[level as usize]
}

// The chart's numbers, to be printed and compared.
pub fn level_chart() -> [u8; 100]
    ensures { result ≡ level_chart }
{
    tables::LEVEL_CHART
}

// A level from 0 to 99 in octaves: 50 is none and 32 levels are one, so 18 is one down and 82 one up. Past an octave a
// square makes the way steeper, up to four octaves at 0 and at 99; the 0.02 makes up for the middle, which is not 49.5.
pub fn pitch_envelope_level(level: u8) -> f32
    ensures { result ≡ pitch_envelope_level level }
{
    let l = (level as f32 - 50.0) / 32.0;
    let tail = numbers::f32_max(numbers::f32_abs(l + 0.02) - 1.0, 0.0);
    l * (1.0 + tail * tail * 5.3056)
}

// A rate from 0 to 99 as octaves of amplitude in a sample at 44,100 Hz: an exponential in straight pieces. 64 steps, of
// which four double the speed, each a mantissa from 4 to 7 shifted left: from 2^-20 at 0 to 7 / 128 at 99.
pub fn operator_envelope_increment(rate: u8) -> f32
    ensures { result ≡ operator_envelope_increment rate }
{
    let rate_scaled = (rate as u32 * 41) >> 6;
    let mantissa = 4 + rate_scaled % 4;
    let exponent = 2 + (rate_scaled >> 2);
    let bits = numbers::wrapping_shl_u32(mantissa, exponent);
    numbers::i32_as_f32(numbers::u32_as_i32(bits)) / 16777216.0
}

// A rate from 0 to 99 as octaves of pitch in a sample at 44,100 Hz: an octave in 21.3 seconds at 0, straight at first,
// then a fifth power, an octave in 86 ms at 99.
pub fn pitch_envelope_increment(rate: u8) -> f32
    ensures { result ≡ pitch_envelope_increment rate }
{
    let r = rate as f32 * 0.01;
    (1.0 + 192.0 * r * (r * r * r * r + 0.3333)) / (21.3 * 44100.0)
}

// A rate from 0 to 99 in Hz, from 0.065 to 23.9: steps of a fixed size, counted below.
pub fn lfo_frequency(rate: u8) -> f32
    ensures { result ≡ lfo_frequency rate }
{
    numbers::u32_as_f32(lfo_steps(rate)) * 0.005865
}

// An LFO's rate in steps of 0.005865 Hz. The rate, stretched to 255, counts eleven of them: a straight line up to 159.
// From 160 on the factor grows by 1 with every 16. Rate 0 is not still: it counts as the smallest number, 1.
#[tactic(auto, using(crate::proofs::Conversions::steps_small), unfolding(crate::specs::Units::lfo_steps))]
fn lfo_steps(rate: u8) -> u32
    ensures { result ≡ lfo_steps rate }
{
    if rate == 0 {
        return 11;
    }
    let rate_scaled = (rate as u32 * 165) >> 6;
    if rate_scaled < 160 {
        rate_scaled * 11
    } else {
        rate_scaled * (11 + ((rate_scaled - 160) >> 4))
    }
}

// A delay from 0 to 99 as two increments in Hz: the delay's, and the fade's, which is the same in whole 128s of steps,
// one at least. At 0 both are so large that they are over at once.
pub fn lfo_delay(delay: u8) -> Increments
    ensures { result ≡ lfo_delay delay }
{
    if delay == 0 {
        return Increments {
            first: 100000.0,
            second: 100000.0,
        };
    }
    let d = delay_steps(delay);
    let coarse = ((d >> 7) % 512 * 128).max(128);
    Increments {
        first: numbers::u32_as_f32(d) * 0.005865,
        second: numbers::u32_as_f32(coarse) * 0.005865,
    }
}

// An LFO's delay in steps of 0.005865 Hz, an exponential in straight pieces that falls with the delay: 16 numbers
// double them. 99 - delay as a byte, its lower half and 16 for a mantissa, its upper half for the shift.
#[tactic(auto, unfolding(crate::specs::Units::delay_steps))]
fn delay_steps(delay: u8) -> u32
    ensures { result ≡ delay_steps delay }
{
    let d = (355 - delay as u32) % 256;
    numbers::wrapping_shl_u32(16 + d % 16, 1 + (d >> 4))
}

// A velocity from 0 to 1 as the steps that each unit of sensitivity changes a level by: 16 times its cube root, which
// comes from a table, moved so that 0.77 changes nothing; 0 is 14.7 steps less. Above 0.99 it counts as 0.99, since the
// table has no entry behind its end.
pub fn normalize_velocity(velocity: f32) -> f32
    ensures { result ≡ normalized_velocity_of velocity }
{
    let lut = tables::LUT_CUBE_ROOT;
    let cube_root = utils::interpolate(&lut, numbers::f32_min(velocity, 0.99), 16.0);
    16.0 * (cube_root - 0.918)
}

// What a note makes of an envelope's increments, as a factor: 1 at note 21, and each 96 notes above double it as often
// as the scaling, 0 to 7, says. 2^x by straight pieces.
pub fn rate_scaling(note: f32, scaling: u8) -> f32
    ensures { result ≡ rate_scaling_of note scaling }
{
    dx_units_power::pow_2_fast_1(scaling as f32 * (note * 0.33333 - 7.0) * 0.03125)
}

// A sensitivity from 0 to 3 as the share of the amplitude modulation that an operator takes.
pub fn amp_mod_sensitivity(sensitivity: u8) -> f32
    requires { sensitivity ≤ 3 }
    ensures { result ≡ amp_mod_sensitivity_of sensitivity }
{
    tables::LUT_AMP_MOD_SENSITIVITY[sensitivity as usize]
}

// A sensitivity from 0 to 7 as the octaves from the LFO's lowest value to its highest, at full depth.
pub fn pitch_mod_sensitivity(sensitivity: u8) -> f32
    requires { sensitivity ≤ 7 }
    ensures { result ≡ pitch_mod_sensitivity_of sensitivity }
{
    tables::LUT_PITCH_MOD_SENSITIVITY[sensitivity as usize]
}

// The change of the level at a note, in steps: none at the break point, whose number 0 is note 15, and on each side by
// that side's curve and depth.
pub fn keyboard_scaling(
    note: f32,
    left_depth: u8,
    right_depth: u8,
    left_curve: u8,
    right_curve: u8,
    break_point: u8,
) -> f32
    ensures { result ≡ keyboard_scaling_of note left_depth right_depth left_curve right_curve break_point }
{
    let x = note - break_point as f32 - 15.0;
    if x > 0.0 {
        side_scaling(x, right_curve, right_depth)
    } else {
        side_scaling(x, left_curve, left_depth)
    }
}

// At x semitones from the break point, by the curve and the depth of that side: curves 0 and 1 go down, 2 and 3 up.
// At the full depth of 99 a semitone of a straight curve is 2.65 steps.
fn side_scaling(x: f32, curve: u8, depth: u8) -> f32
    ensures { result ≡ side_scaling x curve depth }
{
    let t = bend(numbers::f32_abs(x), curve);
    let change = match curve {
        0 | 1 => -t,
        _ => t,
    };
    change * depth as f32 * 0.02677
}

// A distance in semitones, bent. Curves 1 and 2 are cubes, slow near the break point; at 95.5 semitones, some eight
// octaves, they come to 96 and stay there. The others are straight.
fn bend(t: f32, curve: u8) -> f32
    ensures { result ≡ bent t curve }
{
    let u = numbers::f32_min(t * 0.010467, 1.0);
    match curve {
        1 | 2 => u * u * u * 96.0,
        _ => t,
    }
}

// An operator's frequency: in mode 0 a ratio to the note's, by coarse and fine, else one to 1 Hz, fixed. The detune, 7
// for none, moves either by 1.5 cents a step.
pub fn frequency_ratio(
    high: &[f32; 256],
    low: &[f32; 256],
    mode: u8,
    coarse: u8,
    fine: u8,
    detune: u8,
) -> Ratio
    requires { coarse ≤ 31 }
    ensures { result ≡ frequency_ratio high.now low.now mode coarse fine detune }
{
    let base = base_semitones(mode, coarse, fine) + (detune as f32 - 7.0) * 0.015;
    let ratio = units::semitones_to_ratio_lent(high, low, base) * fine_factor(mode, fine);
    match mode {
        0 => Ratio::Note(ratio),
        _ => Ratio::Hertz(ratio),
    }
}

// The semitones without the detune: in mode 0 the coarse number's, else hundredths of a decade above 1 Hz, of which
// each is 12 log2(10) / 100 semitones: powers of ten by the coarse number's lowest two bits, 1 Hz to 9.8 kHz in all.
fn base_semitones(mode: u8, coarse: u8, fine: u8) -> f32
    requires { coarse ≤ 31 }
    ensures { result ≡ base_semitones mode coarse fine }
{
    match mode {
        0 => coarse_semitones(coarse),
        _ => ((coarse % 4) as u32 * 100 + fine as u32) as f32 * 0.39864,
    }
}

// The semitones of the ratio that a coarse number names.
fn coarse_semitones(coarse: u8) -> f32
    requires { coarse ≤ 31 }
    ensures { result ≡ coarse_semitones coarse }
{
    tables::LUT_COARSE[coarse as usize]
}

// What a ratio to the note is multiplied by for its fine number: 1.00 to 1.99. A fixed frequency has its fine number
// among its semitones.
fn fine_factor(mode: u8, fine: u8) -> f32
    ensures { result ≡ fine_factor mode fine }
{
    if mode == 0 && fine != 0 {
        1.0 + 0.01 * fine as f32
    } else {
        1.0
    }
}

// Two tables whole, which no conversion shows entry by entry, to be compared with the Rust's.
pub fn lut_coarse() -> [f32; 32]
    ensures { result ≡ lut_coarse }
{
    tables::LUT_COARSE
}

pub fn lut_cube_root() -> [f32; 17]
    ensures { result ≡ lut_cube_root }
{
    tables::LUT_CUBE_ROOT
}
