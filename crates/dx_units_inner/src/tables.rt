// The tables of dx_units.rs, number for number, and the chart, which the Rust has as a formula.
#![tactic(auto)]

ghost use Rattle.std.specs.Prelude.{◌≡◌};
ghost use Rattle.dx_units_inner.specs.Tables.{level_chart};

// The semitones of each coarse number's ratio: a half for 0, the number itself for the others, 12 log2 of it.
pub const LUT_COARSE: [f32; 32] = [
    -12.000000, 0.000000, 12.000000, 19.019550, 24.000000, 27.863137, 31.019550, 33.688259,
    36.000000, 38.039100, 39.863137, 41.513180, 43.019550, 44.405276, 45.688259, 46.882687,
    48.000000, 49.049554, 50.039100, 50.975130, 51.863137, 52.707809, 53.513180, 54.282743,
    55.019550, 55.726274, 56.405276, 57.058650, 57.688259, 58.295772, 58.882687, 59.450356,
];

// The share of the amplitude modulation for each sensitivity, none to all.
pub const LUT_AMP_MOD_SENSITIVITY: [f32; 4] = [0.0, 0.2588, 0.4274, 1.0];

// The octaves of the pitch modulation for each sensitivity: 0, 10, 20, 33, 55, 92, 153 and 256 of 128 parts, from 20 on
// each about five thirds of the one before.
pub const LUT_PITCH_MOD_SENSITIVITY: [f32; 8] = [
    0.0, 0.0781250, 0.1562500, 0.2578125, 0.4296875, 0.7187500, 1.1953125, 2.0,
];

// The cube root of each 16th part of 1, ends included: a lookup goes straight from one to the next.
pub const LUT_CUBE_ROOT: [f32; 17] = [
    0.0,
    0.39685062976,
    0.50000000000,
    0.57235744065,
    0.62996081605,
    0.67860466725,
    0.72112502092,
    0.75914745216,
    0.79370070937,
    0.82548197054,
    0.85498810729,
    0.88258719406,
    0.90856038354,
    0.93312785379,
    0.95646563396,
    0.97871693135,
    1.0,
];

// The steps of each level, 0.75 dB each, level 0 first: the printed chart, which docs/LEVELS.md has in rows of ten.
pub const LEVEL_CHART: [u8; 100] = [
    0, 4, 8, 12, 16, 19, 22, 25, 28, 30, 32, 34, 36, 37, 38, 42, 43, 44, 45, 46, 48, 49, 50, 51,
    52, 53, 54, 55, 56, 57, 58, 59, 60, 61, 62, 63, 64, 65, 66, 67, 68, 69, 70, 71, 72, 73, 74, 75,
    76, 77, 78, 79, 80, 81, 82, 83, 84, 85, 86, 87, 88, 89, 90, 91, 92, 93, 94, 95, 96, 97, 98, 99,
    100, 101, 102, 103, 104, 105, 106, 107, 108, 109, 110, 111, 112, 113, 114, 115, 116, 117, 118,
    119, 120, 121, 122, 123, 124, 125, 126, 127,
];

// The chart, to be made once and lent: what looks a level up knows that it is the chart and no other array.
#[derive(Clone, Copy)]
pub struct LevelChart {
    pub steps: [u8; 100],
    ghost printed: { steps ≡ level_chart },
}

impl LevelChart {
    pub fn new() -> LevelChart
        ensures { result.steps ≡ level_chart }
    {
        LevelChart { steps: LEVEL_CHART }
    }
}
