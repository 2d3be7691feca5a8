// Lookups in a table, by the straight line between two entries. It follows utils/mod.rs. The table is
// lent, so that nothing is copied. Each function has an answer for every input, and its promise names
// it; where the Rust reads past a table's end and panics, the answer is the table's last entry.
#![tactic(auto)]

ghost use Rattle.std.specs.Prelude.{◌≡◌, ◌-◌, ◌^◌, ◌<◌, pos};
ghost use Rattle.std.specs.Float.{binary32};
ghost use Rattle.std.specs.Float.Ieee.{to_unsigned, of_int};
ghost use Rattle.utils.specs.Interpolate.{line_at, interpolated, interpolated_wrap};

// The entry at `index`, from 0 to 1, of `size` places.
#[tactic(auto, unfolding(crate::specs::Interpolate::interpolated))]
pub fn interpolate(table: &[f32], index: f32, size: f32) -> f32
    ensures { result ≡ interpolated table.now index size }
{
    line(table, numbers::f32_clamp_unit(index) * size)
}

// The same without the index's whole part; a negative index is clamped to 0.
pub fn interpolate_wrap(table: &[f32], index: f32, size: f32) -> f32
    ensures { result ≡ interpolated_wrap table.now index size }
{
    let whole = numbers::i32_as_f32(numbers::f32_as_i32(index));
    interpolate(table, index - whole, size)
}

// The straight line between the entries around a place.
fn line(table: &[f32], place: f32) -> f32
    ensures { result ≡ line_at table.now place }
{
    let integral = numbers::f32_as_usize(place);
    let [before @ .., last] = table else {
        return f32::NAN;
    };
    if integral >= before.len() {
        return *last;
    }
    let a = table[integral];
    let b = table[integral + 1];
    a + (b - a) * (place - whole_part(place, integral))
}

// A place's whole part as f32: from 2^24 on every f32 is whole, so it is the place itself.
fn whole_part(place: f32, integral: usize) -> f32
    requires whole { integral ≡ to_unsigned 64 place }
    requires below_max { integral < 2 ^ 64 - 1 }
    ensures { result ≡ of_int binary32 (pos integral) }
{
    if integral < 16777216 {
        integral as f32
    } else {
        place
    }
}
