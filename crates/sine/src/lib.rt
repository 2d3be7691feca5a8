// The sine, by lookup in a table of one turn. It follows resources/sine.rs and sine_oscillator.rs. The
// table is lent, so that a caller makes it once for a whole block. Operators look the sine up in a table of
// pairs, each entry beside the way to the next: the innermost loop reads two neighbours and subtracts
// nothing. Each function has an answer for every input, and its promise names it.
#![tactic(auto)]

ghost use Rattle.std.specs.Prelude.{◌≡◌, ◌<◌, T, get_or, true, false};
ghost use Rattle.std.specs.Float.{nan};
ghost use Rattle.std.specs.Float.Ieee.{is_nan};
ghost use Rattle.numbers.specs.Words.{product32};
ghost use Rattle.sine.specs.Table.{lut_sine};
ghost use Rattle.sine.specs.Pairs.{sine_pairs};
ghost use Rattle.sine.specs.Sine.{sine_of, steps_of, near_by, modulated, phase_line, sine_pm};
ghost use Rattle.sine.specs.Bound.{within};

mod pairs;
mod table;

// The table, to be made a local once and lent from there.
pub fn lut_sine() -> [f32; 641]
    ensures { result ≡ lut_sine }
{
    table::LUT_SINE
}

// One turn of the table as pairs, to be made a local once and lent from there.
pub fn sine_pairs() -> [f32; 1024]
    ensures { result ≡ sine_pairs }
{
    pairs::SINE_PAIRS
}

// The sine at a phase in turns, of which the whole part is dropped; a negative phase counts as 0. Where the lent table
// is the sine's, it is finite and from -1 to 1, at an infinite phase too; at a NaN it is a NaN.
pub fn sine(lut: &[f32; 641], phase: f32) -> f32
    ensures { (result ≡ sine_of lut.now phase)
        × (lut.now ≡ lut_sine → is_nan phase ≡ false → T (within result)) }
{
    utils::interpolate_wrap(lut, phase, 512.0)
}

// The sine at a phase of 32 bits plus a modulation in turns, from -32 up to 32: beyond that, and at a
// NaN, Rust's cast decides. Where the lent pairs are the sine's, it is finite and from -1 to 1 at every modulation.
#[tactic(auto, unfolding(crate::specs::Sine::sine_pm))]
pub fn sine_pm(pairs: &[f32; 1024], phase: u32, pm: f32) -> f32
    ensures { (result ≡ sine_pm pairs.now phase pm) × (pairs.now ≡ sine_pairs → T (within result)) }
{
    line(pairs, modulate(phase, pm))
}

// The phase plus the modulation, wrapped.
#[tactic(auto, unfolding(crate::specs::Sine::modulated))]
fn modulate(phase: u32, pm: f32) -> u32
    ensures { result ≡ modulated phase pm }
{
    phase.wrapping_add(turned(pm))
}

// A modulation in the phase's own steps, of which 64 make one of `steps`, wrapped. From -31 to 30 turns they are whole
// already: this is the innermost loop's path, with a test that need not wait for the sum, and one conversion that
// multiplies as well. The cast is to i64, which every processor has as one instruction.
fn turned(pm: f32) -> u32
    ensures { result ≡ product32 (steps_of pm) 64 }
{
    let lifted = pm + 32.0;
    if is_near(pm) {
        let turns = ((lifted * 4294967296.0) as f64) as i64;
        return ((turns as u64) % 4294967296) as u32;
    }
    steps(pm) << 6
}

// Whether a modulation lies from -31 to 30 turns.
pub fn is_near(pm: f32) -> bool
    ensures { result ≡ near_by pm }
{
    (pm >= -31.0) & (pm <= 30.0)
}

// The phase plus a modulation from -31 to 30 turns, wrapped: no test and a cast to i32, so that a loop of it is done
// four samples at a time.
#[tactic(auto, unfolding(crate::specs::Sine::modulated))]
pub fn modulate_near(phase: u32, pm: f32) -> u32
    requires { near_by pm ≡ true }
    ensures { result ≡ modulated phase pm }
{
    phase.wrapping_add(turned_near(pm))
}

// Such a modulation in the phase's own steps. Lifted it is from 1 to 62, so times 2^25 it is a whole number below 2^31.
fn turned_near(pm: f32) -> u32
    requires { near_by pm ≡ true }
    ensures { result ≡ product32 (steps_of pm) 64 }
{
    let halves = (((pm + 32.0) * 33554432.0) as f64) as i32;
    (halves as u32) << 7
}

// A modulation in steps of a 2^26th, as Rust casts it.
fn steps(pm: f32) -> u32
    ensures { result ≡ steps_of pm }
{
    numbers::f32_as_u32((pm + 32.0) * (4294967296.0 / 64.0))
}

// The straight line from the entry at a phase towards the next. The phase's lowest 23 bits over 2^23 are an
// f32, with no rounding: the same as Rust's quotient by 2^32. They are what the highest nine leave of the phase: by a
// mask of their own the compiler masks the nine as well, and the load waits for it. Where the lent pairs are the
// sine's, it is finite and from -1 to 1.
pub fn line(pairs: &[f32; 1024], phase: u32) -> f32
    ensures { (result ≡ phase_line pairs.now phase) × (pairs.now ≡ sine_pairs → T (within result)) }
{
    let integral = (phase >> 23) as usize;
    let rest = phase as usize - integral * 8388608;
    let fractional = rest as f32 / 8388608.0;
    let a = entry(pairs, 2 * integral);
    let way = entry(pairs, 2 * integral + 1);
    a + way * fractional
}

// An entry, or the way to the next. Where the lent pairs are the sine's, it is finite and from -1 to 1.
fn entry(pairs: &[f32; 1024], i: usize) -> f32
    requires { i < 1024 }
    ensures { (result ≡ get_or pairs.now i nan) × (pairs.now ≡ sine_pairs → T (within result)) }
{
    pairs[i]
}
