// The ratio of two frequencies from the semitones between them. It follows utils/units.rs. The tables
// are lent, so that a caller of many makes them once. `semitones_to_ratio_safe` has an answer for every
// f32, and its promise names it: 1 for a NaN and outside -240 to 240, where the Rust's loops take many
// turns or never end.
#![tactic(auto)]

ghost use Rattle.std.specs.Prelude.{◌≡◌, T};
ghost use Rattle.units.specs.Tables.{lut_pitch_ratio_high, lut_pitch_ratio_low};
ghost use Rattle.units.specs.Ratio.{within, ratio_in, lowered, raised, ratio_of};
ghost use Rattle.units.specs.Loops.{Looped};

mod tables;

// Semitones, and what to multiply their ratio by.
#[derive(Clone, Copy)]
struct Shifted {
    semitones: f32,
    scale: f32,
}

// The tables, each to be made a local once and lent from there.
pub fn lut_pitch_ratio_high() -> [f32; 256]
    ensures { result ≡ lut_pitch_ratio_high }
{
    tables::LUT_PITCH_RATIO_HIGH
}

pub fn lut_pitch_ratio_low() -> [f32; 256]
    ensures { result ≡ lut_pitch_ratio_low }
{
    tables::LUT_PITCH_RATIO_LOW
}

// From -120 to 120: the whole semitone's ratio times the rest's, to the 256th part below.
fn semitones_to_ratio(high: &[f32; 256], low: &[f32; 256], semitones: f32) -> f32
    requires { T (within 120 semitones) }
    ensures { result ≡ ratio_in high.now low.now semitones }
{
    let pitch = semitones + 128.0;
    let integral = numbers::f32_as_usize(pitch);
    let fractional = pitch - integral as f32;
    let fine = numbers::f32_as_usize(fractional * 256.0);
    high[integral] * low[fine]
}

// The ratio for every f32, with the tables lent.
pub fn semitones_to_ratio_lent(high: &[f32; 256], low: &[f32; 256], semitones: f32) -> f32
    ensures { result ≡ ratio_of high.now low.now semitones }
{
    if semitones >= -240.0 && semitones <= 240.0 {
        let near = folded(semitones);
        return near.scale * semitones_to_ratio(high, low, near.semitones);
    }
    1.0
}

// The ratio for every f32.
pub fn semitones_to_ratio_safe(semitones: f32) -> f32
    ensures { result ≡ ratio_of lut_pitch_ratio_high lut_pitch_ratio_low semitones }
{
    let high = lut_pitch_ratio_high();
    let low = lut_pitch_ratio_low();
    semitones_to_ratio_lent(&high, &low, semitones)
}

// Down by ten octaves above ten, up by ten below minus ten: up to 240 semitones the Rust's loops take one turn at most.
fn folded(semitones: f32) -> Shifted
    requires { T (within 240 semitones) }
    ensures { (result ≡ raised (lowered semitones)) × Looped semitones result }
{
    if semitones > 120.0 {
        return Shifted {
            semitones: semitones - 120.0,
            scale: 1024.0,
        };
    }
    if semitones < -120.0 {
        return Shifted {
            semitones: semitones + 120.0,
            scale: 1.0 / 1024.0,
        };
    }
    Shifted {
        semitones,
        scale: 1.0,
    }
}
