// The levels and increments of an envelope's four stages from a patch's rates and levels, after envelope.rs: what
// setting an envelope computes. Each function promises its definition.
#![tactic(auto)]

ghost use Rattle.std.specs.Prelude.{◌≡◌, ◌≤◌};
ghost use Rattle.envelope_stages.specs.Stages.{operator_stage_level, rising_increment, operator_stage_increment};
ghost use Rattle.envelope_stages.specs.Stages.{OnChart, operator_levels, operator_increments};
ghost use Rattle.envelope_stages.specs.Stages.{pitch_stage_increment, pitch_levels, pitch_increments};

use dx_units_inner::LevelChart;
use std::array;

#[tactic(auto, unfolding(crate::specs::Stages::operator_levels))]
pub fn operator_levels(chart: &LevelChart, level: [u8; 4], global_level: u8) -> [f32; 4]
    requires { OnChart level }
    ensures { result ≡ operator_levels level global_level }
{
    level.map(|l| operator_stage_level(chart, l, global_level))
}

// In units of eight steps of the chip's level, which are a factor of 2 in amplitude. 133 is subtracted where one unit
// less, 125, might be expected, as the Rust remarks; a level that falls below 1 step is half of one, so none is 0.
fn operator_stage_level(chart: &LevelChart, level: u8, global_level: u8) -> f32
    requires { level ≤ 99 }
    ensures { result ≡ operator_stage_level level global_level }
{
    let scaled = dx_units_inner::operator_level(chart, level) as u32 / 2 * 2 + global_level as u32;
    if scaled < 134 {
        return 0.125 * 0.5;
    }
    0.125 * numbers::u32_as_f32(scaled - 133)
}

// Each stage's height is from the level before to its own; the first comes from the last.
#[tactic(auto, unfolding(crate::specs::Stages::operator_increments))]
pub fn operator_increments(rate: [u8; 4], level: [f32; 4], fast: bool, scale: f32) -> [f32; 4]
    ensures { result ≡ operator_increments rate level fast scale }
{
    array::from_fn(|i| {
        let from = level[(i + 3) % 4];
        operator_stage_increment(rate[i], from, level[i], (i == 0) & fast) * scale
    })
}

// A falling stage's rate goes by its height. A plateau has none: it lasts as long as a fall by 1 / 0.6 would, and a
// first stage whose level is 0 only a twentieth of that.
fn operator_stage_increment(rate: u8, from: f32, to: f32, fast: bool) -> f32
    ensures { result ≡ operator_stage_increment rate from to fast }
{
    let increment = dx_units_inner::operator_envelope_increment(rate);
    if from == to {
        if fast {
            return increment * 0.6 * 20.0;
        }
        return increment * 0.6;
    }
    if from < to {
        return rising_increment(increment, from, to);
    }
    increment * (1.0 / (from - to))
}

// A rise starts at 6.7 at the lowest. Where that leaves no height, the stage is over at once; otherwise it is 7.2 times
// as fast as a fall of its height, because it is bent.
fn rising_increment(increment: f32, from: f32, to: f32) -> f32
    ensures { result ≡ rising_increment increment from to }
{
    let low = numbers::f32_max(6.7, from);
    let high = numbers::f32_max(6.7, to);
    if low == high {
        return 1.0;
    }
    increment * (7.2 / (high - low))
}

#[tactic(auto, unfolding(crate::specs::Stages::pitch_levels))]
pub fn pitch_levels(level: [u8; 4]) -> [f32; 4]
    ensures { result ≡ pitch_levels level }
{
    level.map(dx_units_inner::pitch_envelope_level)
}

#[tactic(auto, unfolding(crate::specs::Stages::pitch_increments))]
pub fn pitch_increments(rate: [u8; 4], level: [f32; 4], scale: f32) -> [f32; 4]
    ensures { result ≡ pitch_increments rate level scale }
{
    array::from_fn(|i| {
        let from = level[(i + 3) % 4];
        pitch_stage_increment(rate[i], from, level[i], i == 3) * scale
    })
}

// By the height, as an operator's fall; a plateau has one rate for all patches, but for the last stage.
fn pitch_stage_increment(rate: u8, from: f32, to: f32, last: bool) -> f32
    ensures { result ≡ pitch_stage_increment rate from to last }
{
    let increment = dx_units_inner::pitch_envelope_increment(rate);
    if from != to {
        return increment * (1.0 / numbers::f32_abs(from - to));
    }
    if last {
        return increment;
    }
    0.2
}
