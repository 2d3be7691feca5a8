// The entries 30 to 46 (hex): the crates `dx_units`, `units`, `utils`, `sine` and `random`. The number of a refusal
// comes first, and a refused value is written as 0.
use dx_units::{Increments, Mark, Ratio, Stepped};
use judge_wire::{Answer, Fields};
use refusals::Refusal;

// The length of a call of the entry; 0 for no entry of this group.
pub fn length(entry: u8) -> usize {
    match entry {
        0x31..=0x36 | 0x39 | 0x3a => 2,
        0x37 | 0x3c..=0x3e | 0x40 | 0x41 | 0x45 | 0x46 => 5,
        0x38 | 0x44 => 6,
        0x30 | 0x3f => 9,
        0x3b | 0x42 | 0x43 => 10,
        _ => 0,
    }
}

// Writes what the call answers.
pub fn answer(entry: u8, fields: &mut Fields<'_>, out: &mut Answer<'_>) {
    match entry {
        0x31 => {
            let level = out.value(dx_units::operator_level(fields.byte()), 0);
            out.byte(level);
        }
        0x36 => put_delay(out, dx_units::lfo_delay(fields.byte())),
        0x3c => {
            let ratio = out.value(frequency_ratio(fields), Ratio::Note(0.0));
            put_ratio(out, ratio);
        }
        0x32..=0x35 | 0x37..=0x3b => {
            let converted = out.value(converted(entry, fields), 0.0);
            out.float(converted);
        }
        _ => answer_value(entry, fields, out),
    }
}

// The same for an entry that refuses nothing.
fn answer_value(entry: u8, fields: &mut Fields<'_>, out: &mut Answer<'_>) {
    match entry {
        0x3d => put_stepped(out, dx_units::frequency_step(fields.float())),
        0x41 => {
            let drawn = random::get_float(fields.word());
            out.word(drawn.state);
            out.float(drawn.value);
        }
        0x45 => out.word(random::get_word(fields.word())),
        0x46 => out.byte(chart_entry(fields.word() as usize)),
        _ => out.float(value(entry, fields)),
    }
}

fn converted(entry: u8, fields: &mut Fields<'_>) -> Result<f32, Refusal> {
    match entry {
        0x37 => dx_units::normalize_velocity(fields.float()),
        0x38 => dx_units::rate_scaling(fields.float(), fields.byte()),
        0x3b => dx_units::keyboard_scaling(fields.float(), judge_patches::read_scaling(fields)),
        _ => converted_field(entry, fields.byte()),
    }
}

fn converted_field(entry: u8, field: u8) -> Result<f32, Refusal> {
    match entry {
        0x32 => dx_units::pitch_envelope_level(field),
        0x33 => dx_units::operator_envelope_increment(field),
        0x34 => dx_units::pitch_envelope_increment(field),
        0x35 => dx_units::lfo_frequency(field),
        0x39 => dx_units::amp_mod_sensitivity(field),
        _ => dx_units::pitch_mod_sensitivity(field),
    }
}

fn value(entry: u8, fields: &mut Fields<'_>) -> f32 {
    match entry {
        0x30 => dx_units::pow_2_fast(fields.float(), numbers::u32_as_i32(fields.word())),
        0x3e => {
            let phase = fields.float();
            in_lut_sine(|lut| sine::sine(lut, phase))
        }
        0x3f => {
            let phase = fields.word();
            let pm = fields.float();
            in_sine_pairs(|pairs| sine::sine_pm(pairs, phase, pm))
        }
        0x40 => units::semitones_to_ratio_safe(fields.float()),
        0x42 | 0x43 => interpolate(entry == 0x43, fields),
        _ => table_entry(fields.byte(), fields.word()),
    }
}

fn frequency_ratio(fields: &mut Fields<'_>) -> Result<Ratio, Refusal> {
    let [mode, coarse, fine, detune] = fields.bytes::<4>();
    dx_units::frequency_ratio(mode, coarse, fine, detune)
}

// Stays: a function for each of the long tables, since a function clears the room of its tables at its start, whichever
// arm it takes; in one function an entry paid for the tables of others too.
#[inline(never)]
fn in_lut_sine<R: FnOnce(&[f32; 641]) -> f32>(read: R) -> f32
    requires { R.IsAlwaysCallable read }
{
    let lut = sine::lut_sine();
    read(&lut)
}

#[inline(never)]
fn in_sine_pairs<R: FnOnce(&[f32; 1024]) -> f32>(read: R) -> f32
    requires { R.IsAlwaysCallable read }
{
    let pairs = sine::sine_pairs();
    read(&pairs)
}

#[inline(never)]
fn in_lut_high<R: FnOnce(&[f32; 256]) -> f32>(read: R) -> f32
    requires { R.IsAlwaysCallable read }
{
    let high = units::lut_pitch_ratio_high();
    read(&high)
}

#[inline(never)]
fn in_lut_low<R: FnOnce(&[f32; 256]) -> f32>(read: R) -> f32
    requires { R.IsAlwaysCallable read }
{
    let low = units::lut_pitch_ratio_low();
    read(&low)
}

// A lookup in one of the three long tables.
fn interpolate(wraps: bool, fields: &mut Fields<'_>) -> f32 {
    let table = fields.byte();
    let index = fields.float();
    let size = fields.float();
    match table {
        0 => in_lut_sine(|lut| interpolate_in(lut, wraps, index, size)),
        1 => in_lut_high(|high| interpolate_in(high, wraps, index, size)),
        _ => in_lut_low(|low| interpolate_in(low, wraps, index, size)),
    }
}

fn interpolate_in(table: &[f32], wraps: bool, index: f32, size: f32) -> f32 {
    if wraps {
        utils::interpolate_wrap(table, index, size)
    } else {
        utils::interpolate(table, index, size)
    }
}

// An entry of a table; 0 past its end and in a table that is not there.
fn table_entry(table: u8, index: u32) -> f32 {
    let place = index as usize;
    match table {
        0 => in_lut_sine(|lut| at(lut, place)),
        1 => in_lut_high(|high| at(high, place)),
        2 => in_lut_low(|low| at(low, place)),
        3 => dx_units::amp_mod_sensitivity(index.min(255) as u8).unwrap_or(0.0),
        4 => dx_units::pitch_mod_sensitivity(index.min(255) as u8).unwrap_or(0.0),
        5 => at(&dx_units::lut_coarse(), place),
        6 => at(&dx_units::lut_cube_root(), place),
        _ => 0.0,
    }
}

fn at(table: &[f32], place: usize) -> f32 {
    table.get(place).copied().unwrap_or(0.0)
}

// A number of the level chart; 0 past its end.
fn chart_entry(place: usize) -> u8 {
    dx_units::level_chart().get(place).copied().unwrap_or(0)
}

fn put_stepped(out: &mut Answer<'_>, x: Stepped) {
    out.word(x.step);
    put_mark(out, x.mark);
}

// Writes a mark: 0 as asked, 1 held at the top, 2 held at zero.
pub fn put_mark(out: &mut Answer<'_>, mark: Mark) {
    out.byte(match mark {
        Mark::AsAsked => 0,
        Mark::HeldAtTop => 1,
        Mark::HeldAtZero => 2,
    });
}

fn put_delay(out: &mut Answer<'_>, x: Result<Increments, Refusal>) {
    let zeros = Increments {
        first: 0.0,
        second: 0.0,
    };
    let increments = out.value(x, zeros);
    out.floats(&[increments.first, increments.second]);
}

// Writes a ratio: 0 for one to the note, 1 for one to 1 Hz, and its number.
pub fn put_ratio(out: &mut Answer<'_>, x: Ratio) {
    let (hertz, ratio) = match x {
        Ratio::Note(ratio) => (false, ratio),
        Ratio::Hertz(ratio) => (true, ratio),
    };
    out.flag(hertz);
    out.float(ratio);
}
