// The step for a frequency, after operator.rs: how far a phase of 32 bits goes in a sample. It answers for every f32,
// and says beside the number whether the frequency was held.
#![tactic(auto)]

ghost use Rattle.std.specs.Prelude.{◌≡◌};
ghost use Rattle.dx_units_step.specs.Step.{mark_for, stepped_for};

// What became of a frequency on the way to its step.
#[derive(Clone, Copy, Debug, PartialEq, Eq)]
pub enum Mark {
    AsAsked,
    HeldAtTop,
    HeldAtZero,
}

// A step and its mark.
#[derive(Clone, Copy, Debug, PartialEq, Eq)]
pub struct Stepped {
    pub step: u32,
    pub mark: Mark,
}

// Held at the top above a half turn a sample and for a NaN, held at zero below 0. A half, -0.0 and a frequency whose
// step is cut down to 0 are as asked.
fn mark_of(frequency: f32) -> Mark
    ensures { result ≡ mark_for frequency }
{
    if (frequency > 0.5) | frequency.is_nan() {
        return Mark::HeldAtTop;
    }
    if frequency < 0.0 {
        return Mark::HeldAtZero;
    }
    Mark::AsAsked
}

// The step of a phase of 32 bits at a frequency in turns a sample, held at a half turn from there on and for a NaN, and
// at 0 below 0; and its mark.
pub fn frequency_step(frequency: f32) -> Stepped
    ensures { result ≡ stepped_for frequency }
{
    let step = numbers::f32_as_u32(numbers::f32_min(frequency, 0.5) * 4294967296.0);
    let mark = mark_of(frequency);
    Stepped { step, mark }
}
