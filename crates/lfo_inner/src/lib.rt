// The LFO, after lfo.rs and in its order, without the refusals of `lfo`: for callers that have checked their state and
// arguments. The generator's number goes in and comes back with the LFO. A function with `_with` is lent the sine
// table, the same function without makes it where the wave is a sine. Each promises its definition.
#![tactic(auto)]

ghost use Rattle.std.specs.Prelude.{◌≡◌, List, ◌≤◌, Float};
ghost use Rattle.sine.specs.Table.{lut_sine};
ghost use Rattle.lfo_inner.specs.Lfo.{waveform_of, fresh_lfo, adjusted, moved_to, restarted};
ghost use Rattle.lfo_inner.specs.Lfo.{triangle_wave, square_wave, sine_wave, wave_at, drawn_if, at_most_one};
ghost use Rattle.lfo_inner.specs.Lfo.{delay_stepped, delay_scrubbed, wrapped, stepped, whole_changed, scrubbed};
ghost use Rattle.lfo_inner.specs.Lfo.{storing, settled, ramp_of, pitch_mod_of, amp_mod_of};

#[derive(Clone, Copy, Debug, PartialEq, Eq)]
pub enum Waveform {
    Triangle,
    RampDown,
    RampUp,
    Square,
    Sine,
    SAndH,
}

// A number that is no wave's is a triangle's.
impl From<u8> for Waveform {
    ghost from_gives = { λ n waveform. waveform ≡ waveform_of n };

    #[tactic(auto, using(crate::proofs::Tests::no_wave), unfolding(crate::specs::Lfo::waveform_of))]
    fn from(n: u8) -> Waveform {
        match n {
            1 => Waveform::RampDown,
            2 => Waveform::RampUp,
            3 => Waveform::Square,
            4 => Waveform::Sine,
            5 => Waveform::SAndH,
            _ => Waveform::Triangle,
        }
    }
}

#[derive(Clone, Copy)]
pub struct Lfo {
    pub phase: f32,
    pub frequency: f32,
    pub delay_phase: f32,
    pub delay_increment: [f32; 2],
    pub value: f32,
    pub random_value: f32,
    pub one_hz: f32,
    pub amp_mod_depth: f32,
    pub pitch_mod_depth: f32,
    pub waveform: Waveform,
    pub reset_phase: bool,
    pub phase_integral: i32,
}

// Where a step or a scrub begins and ends: the LFO, and the number of the generator that it draws from.
#[derive(Clone, Copy)]
pub struct Motion {
    pub lfo: Lfo,
    pub state: u32,
}

// An LFO at rest. It stands still: it has no rate until a patch sets one, so that steps before the first note move no
// phase.
#[tactic(auto, unfolding(crate::specs::Lfo::fresh_lfo, numbers::specs::F32::decimal))]
pub fn fresh(one_hz: f32, delay_increment: f32) -> Lfo
    ensures { result ≡ fresh_lfo one_hz delay_increment }
{
    let increments = [delay_increment, delay_increment];
    Lfo {
        phase: 0.0,
        frequency: 0.0,
        delay_phase: 0.0,
        delay_increment: increments,
        value: 0.0,
        random_value: 0.0,
        one_hz,
        amp_mod_depth: 0.0,
        pitch_mod_depth: 0.0,
        waveform: Waveform::Triangle,
        reset_phase: false,
        phase_integral: 0,
    }
}

// The frequency and the delay's increments per sample, the wave and the depths of a patch. The delay's phase goes from
// 0 to 1 in two halves and has an increment for each: in the first nothing is heard, in the second the modulation fades
// in.
pub fn set(lfo: Lfo, m: patch::ModulationParameters) -> Lfo
    requires { m.pitch_mod_sensitivity ≤ 7 }
    ensures { result ≡ adjusted lfo m }
{
    let one_hz = lfo.one_hz;
    let delay = dx_units_inner::lfo_delay(m.delay);
    let sensitivity = dx_units_inner::pitch_mod_sensitivity(m.pitch_mod_sensitivity);
    let increments = [delay.first * one_hz, delay.second * one_hz];
    Lfo {
        frequency: dx_units_inner::lfo_frequency(m.rate) * one_hz,
        delay_increment: increments,
        amp_mod_depth: m.amp_mod_depth as f32 * 0.01,
        pitch_mod_depth: m.pitch_mod_depth as f32 * 0.01 * sensitivity,
        waveform: Waveform::from(m.waveform),
        reset_phase: m.reset_phase != 0,
        ..lfo
    }
}

// The phase starts anew if the patch asked for it, the delay always.
#[tactic(auto, unfolding(crate::specs::Lfo::restarted, crate::specs::Lfo::moved_to, numbers::specs::F32::decimal))]
pub fn reset(mut lfo: Lfo) -> Lfo
    ensures { result ≡ restarted lfo }
{
    if lfo.reset_phase {
        lfo.phase = 0.0;
    }
    lfo.delay_phase = 0.0;
    lfo
}

// On by `scale` samples.
pub fn step(motion: Motion, scale: f32) -> Motion
    ensures { result ≡ settled lut_sine (stepped motion.lfo motion.state scale) }
{
    settle(step_silent(motion, scale), value)
}

// The same with the sine table lent.
pub fn step_with(lut: &[f32; 641], motion: Motion, scale: f32) -> Motion
    ensures { result ≡ settled lut.now (stepped motion.lfo motion.state scale) }
{
    settle(step_silent(motion, scale), |lfo| value_with(lut, lfo))
}

// A step but for the value. It draws when the phase reaches 1, so once a turn.
#[tactic(auto, unfolding(crate::specs::Lfo::stepped, numbers::specs::F32::decimal))]
fn step_silent(motion: Motion, scale: f32) -> Motion
    ensures { result ≡ stepped motion.lfo motion.state scale }
{
    let lfo = motion.lfo;
    let phase = lfo.phase + scale * lfo.frequency;
    let drawn = draw_if(phase >= 1.0, lfo.random_value, motion.state);
    let [first, second] = lfo.delay_increment;
    let delay_phase = delay_step(lfo.delay_phase, first, second, scale);
    Motion {
        lfo: move_to(lfo, wrap(phase), drawn.value, delay_phase),
        state: drawn.state,
    }
}

// 1 is subtracted once, which is enough: an accepted step is shorter than a turn.
#[tactic(auto, unfolding(crate::specs::Lfo::wrapped, numbers::specs::F32::decimal))]
fn wrap(phase: f32) -> f32
    ensures { result ≡ wrapped phase }
{
    if phase >= 1.0 {
        return phase - 1.0;
    }
    phase
}

// The delay's phase goes to a half by its first increment, on to 1 by its second, and stays there.
fn delay_step(delay_phase: f32, first: f32, second: f32, scale: f32) -> f32
    ensures { result ≡ delay_stepped delay_phase first second scale }
{
    if delay_phase < 0.5 {
        return at_most_one(delay_phase + scale * first);
    }
    at_most_one(delay_phase + scale * second)
}

// 1 from 1 on; a NaN stays one.
// Stays: std's `min` gives 1 at a NaN, which the definition `at_most_one` keeps.
#[tactic(auto, unfolding(crate::specs::Lfo::at_most_one, numbers::specs::F32::decimal))]
fn at_most_one(x: f32) -> f32
    ensures { result ≡ at_most_one x }
{
    if x >= 1.0 {
        return 1.0;
    }
    x
}

// To the phase at `sample`, a time from 0 on.
pub fn scrub(motion: Motion, sample: f32) -> Motion
    ensures { result ≡ settled lut_sine (scrubbed motion.lfo motion.state sample) }
{
    settle(scrub_silent(motion, sample), value)
}

// The same with the sine table lent.
pub fn scrub_with(lut: &[f32; 641], motion: Motion, sample: f32) -> Motion
    ensures { result ≡ settled lut.now (scrubbed motion.lfo motion.state sample) }
{
    settle(scrub_silent(motion, sample), |lfo| value_with(lut, lfo))
}

// A scrub but for the value. It draws when the phase's whole part, its number of turns, is not the last scrub's.
fn scrub_silent(motion: Motion, sample: f32) -> Motion
    ensures { result ≡ scrubbed motion.lfo motion.state sample }
{
    let lfo = motion.lfo;
    let phase = sample * lfo.frequency;
    let phase_integral = numbers::f32_as_i32(phase);
    let phase_fractional = phase - numbers::i32_as_f32(phase_integral);
    let turned = phase_integral != lfo.phase_integral;
    let drawn = draw_if(turned, lfo.random_value, motion.state);
    let [first, second] = lfo.delay_increment;
    let delay_phase = delay_scrub(first, second, sample);
    let mut there = move_to(lfo, phase_fractional, drawn.value, delay_phase);
    there.phase_integral = phase_integral;
    Motion {
        lfo: there,
        state: drawn.state,
    }
}

// The delay's phase at a time from 0 on: past a half, the samples beyond it count by the second increment.
fn delay_scrub(first: f32, second: f32, sample: f32) -> f32
    ensures { result ≡ delay_scrubbed first second sample }
{
    let delay_phase = sample * first;
    if delay_phase > 0.5 {
        return at_most_one(0.5 + (sample - 0.5 / first) * second);
    }
    delay_phase
}

// A draw, or the last one again with the generator's number as it is.
#[tactic(auto, unfolding(crate::specs::Lfo::drawn_if))]
fn draw_if(draws: bool, random_value: f32, state: u32) -> random::Drawn
    ensures { result ≡ drawn_if draws random_value state }
{
    if draws {
        return random::get_float(state);
    }
    random::Drawn {
        state,
        value: random_value,
    }
}

#[tactic(auto, unfolding(crate::specs::Lfo::moved_to))]
fn move_to(mut lfo: Lfo, phase: f32, random_value: f32, delay_phase: f32) -> Lfo
    ensures { result ≡ moved_to lfo phase random_value delay_phase lfo.phase_integral }
{
    lfo.phase = phase;
    lfo.random_value = random_value;
    lfo.delay_phase = delay_phase;
    lfo
}

// The wave at the new phase is stored.
#[tactic(auto, unfolding(crate::specs::Lfo::settled, crate::specs::Lfo::valued))]
fn settle<W: FnOnce(Lfo) -> f32>(mut there: Motion, wave: W) -> Motion
    requires { W.IsAlwaysCallable wave }
    ensures { (lut : List Float) → ((y : Float) → W.post wave there.lfo y → y ≡ wave_at lut there.lfo)
        → result ≡ settled lut there }
{
    there.lfo.value = wave(there.lfo);
    there
}

// The wave where the LFO stands, from 0 to 1. The table is made only for a sine.
pub fn value(lfo: Lfo) -> f32
    ensures { result ≡ wave_at lut_sine lfo }
{
    wave(lfo, |phase| sine_wave(&sine::lut_sine(), phase))
}

// The same with the sine table lent.
pub fn value_with(lut: &[f32; 641], lfo: Lfo) -> f32
    ensures { result ≡ wave_at lut.now lfo }
{
    wave(lfo, |phase| sine_wave(lut, phase))
}

// The wave of an LFO. The sine alone needs a table, so it is asked for where the wave is one.
#[tactic(auto, unfolding(crate::specs::Lfo::wave_of, numbers::specs::F32::decimal))]
fn wave<S: FnOnce(f32) -> f32>(lfo: Lfo, sine: S) -> f32
    requires { S.IsAlwaysCallable sine }
    ensures { (lut : List Float) → ((y : Float) → S.post sine lfo.phase y → y ≡ sine_wave lut lfo.phase)
        → result ≡ wave_at lut lfo }
{
    let phase = lfo.phase;
    match lfo.waveform {
        Waveform::Triangle => triangle(phase),
        Waveform::RampDown => 1.0 - phase,
        Waveform::RampUp => phase,
        Waveform::Square => square(phase),
        Waveform::Sine => sine(phase),
        Waveform::SAndH => lfo.random_value,
    }
}

fn triangle(phase: f32) -> f32
    ensures { result ≡ triangle_wave phase }
{
    if phase < 0.5 {
        return 2.0 * (0.5 - phase);
    }
    2.0 * (phase - 0.5)
}

fn square(phase: f32) -> f32
    ensures { result ≡ square_wave phase }
{
    if phase < 0.5 { 0.0 } else { 1.0 }
}

fn sine_wave(lut: &[f32; 641], phase: f32) -> f32
    ensures { result ≡ sine_wave lut.now phase }
{
    0.5 + 0.5 * sine::sine(lut, phase + 0.5)
}

// How far the modulation has faded in, from 0 to 1: not at all in the delay's first half.
pub fn delay_ramp(lfo: Lfo) -> f32
    ensures { result ≡ ramp_of lfo.delay_phase }
{
    let delay_phase = lfo.delay_phase;
    if delay_phase < 0.5 {
        return 0.0;
    }
    (delay_phase - 0.5) * 2.0
}

// By the stored value: a half bends nothing.
pub fn pitch_mod(lfo: Lfo) -> f32
    ensures { result ≡ pitch_mod_of lfo }
{
    (lfo.value - 0.5) * delay_ramp(lfo) * lfo.pitch_mod_depth
}

// By the stored value: 1 dims nothing.
#[tactic(auto, unfolding(crate::specs::Lfo::amp_mod_of, numbers::specs::F32::decimal))]
pub fn amp_mod(lfo: Lfo) -> f32
    ensures { result ≡ amp_mod_of lfo }
{
    (1.0 - lfo.value) * delay_ramp(lfo) * lfo.amp_mod_depth
}
