// Rust's operations on numbers that Rattle leaves undefined or lacks: casts with a float, sums that
// wrap, extremes of floats, and a float's bits. It follows no file of the Rust. Each function has an
// answer for every input, and its promise names it in the words of the logic's account of IEEE 754
// (`lib.Ieee`) and of whole numbers.
#![tactic(auto)]

ghost use Rattle.std.specs.Prelude.{◌≡◌, pos, from_bits, to_bits};
ghost use Rattle.std.specs.Float.{binary32};
ghost use Rattle.std.specs.Float.Ieee.{to_unsigned, to_signed, of_int};
ghost use Rattle.std.specs.Int.{w32};
ghost use Rattle.std.proofs.Common.{of_z, to_z};
ghost use Rattle.numbers.specs.Extremes.{minimum, maximum, magnitude, clamped};
ghost use Rattle.numbers.specs.Words.{sum32, difference32, product32, shifted32};
ghost use Rattle.numbers.specs.Words.{sum_signed, difference_signed};

// Rust's `x as u32`: the fraction dropped, the nearer end where x is out of range, 0 for a NaN. From
// 2^23 on an f32 is whole, so the cast by way of f64 loses nothing: two compares and one conversion.
// Stays: `std::num::saturating_f32_to_u32` took 1.2 to 3 times as long (3.8 ns for 3.3, 3.8 ns for 1.2 from 2^23 on).
pub fn f32_as_u32(x: f32) -> u32
    ensures { result ≡ to_unsigned 32 x }
{
    if x >= 8388608.0 {
        if x < 4294967296.0 {
            return (x as f64) as u32;
        }
        return u32::MAX;
    }
    if x > -1.0 {
        return std::num::truncating_f32_to_u64(x) as u32;
    }
    0
}

// Rust's `x as i32`.
// Stays: `std::num::saturating_f32_to_i32` took 1.2 to 2 times as long (3.8 ns for 3.1, 3.2 ns for 1.7 below 1).
pub fn f32_as_i32(x: f32) -> i32
    ensures { result ≡ to_signed 31 x }
{
    if x < 2147483648.0 {
        if x >= -2147483648.0 {
            return std::num::truncating_f32_to_i64(x) as i32;
        }
        return i32::MIN;
    }
    if x >= 2147483648.0 {
        return i32::MAX;
    }
    0
}

// Rust's `x as usize`, at 64 bits.
// Stays: `std::num::saturating_f32_to_usize` took 1.1 to 1.2 times as long (3.8 ns for 3.4).
pub fn f32_as_usize(x: f32) -> usize
    ensures { result ≡ to_unsigned 64 x }
{
    if x < 18446744073709551616.0 {
        if x > -1.0 {
            return std::num::truncating_f32_to_u64(x) as usize;
        }
        return 0;
    }
    if x >= 18446744073709551616.0 {
        return usize::MAX;
    }
    0
}

// Rust's `n as f32`: the nearest, and of two as near the even one.
pub fn u32_as_f32(n: u32) -> f32
    ensures { result ≡ of_int binary32 (pos n) }
{
    std::num::nearest_u32_to_f32(n)
}

// The same of a signed number.
pub fn i32_as_f32(n: i32) -> f32
    ensures { result ≡ of_int binary32 n }
{
    std::num::nearest_i32_to_f32(n)
}

// Rust's `a.wrapping_add(b)`.
pub fn wrapping_add_u32(a: u32, b: u32) -> u32
    ensures { result ≡ sum32 a b }
{
    a.wrapping_add(b)
}

// Rust's `a.wrapping_sub(b)`.
pub fn wrapping_sub_u32(a: u32, b: u32) -> u32
    ensures { result ≡ difference32 a b }
{
    a.wrapping_sub(b)
}

// Rust's `a.wrapping_mul(b)`.
pub fn wrapping_mul_u32(a: u32, b: u32) -> u32
    ensures { result ≡ product32 a b }
{
    a.wrapping_mul(b)
}

// Rust's `a.wrapping_shl(n)`: only the lowest five bits of n count.
pub fn wrapping_shl_u32(a: u32, n: u32) -> u32
    ensures { result ≡ shifted32 a n }
{
    a.wrapping_shl(n)
}

// Rust's `n as u32` of a signed number: its bits.
pub fn i32_as_u32(n: i32) -> u32
    ensures { result ≡ of_z w32 n }
{
    n.cast_unsigned()
}

// Rust's `b as i32` of an unsigned number: the signed number with these bits.
pub fn u32_as_i32(b: u32) -> i32
    ensures { result ≡ to_z w32 b }
{
    b.cast_signed()
}

// Rust's sum of two i32 in a release build: it wraps.
#[tactic(auto, unfolding(crate::specs::Words::sum_signed))]
pub fn wrapping_add_i32(a: i32, b: i32) -> i32
    ensures { result ≡ sum_signed a b }
{
    a.wrapping_add(b)
}

// And the difference.
pub fn wrapping_sub_i32(a: i32, b: i32) -> i32
    ensures { result ≡ difference_signed a b }
{
    a.wrapping_sub(b)
}

// Rust's `a.min(b)`: the other number where one is a NaN.
// Stays: std's `min` promises either one of 0 and -0, and `minimum` says the first.
#[tactic(auto, unfolding(crate::specs::Extremes::minimum))]
pub fn f32_min(a: f32, b: f32) -> f32
    ensures { result ≡ minimum a b }
{
    if a.is_nan() {
        return b;
    }
    if b < a { b } else { a }
}

// Rust's `a.max(b)`.
// Stays: as `f32_min`, for std's `max` and `maximum`.
#[tactic(auto, unfolding(crate::specs::Extremes::maximum))]
pub fn f32_max(a: f32, b: f32) -> f32
    ensures { result ≡ maximum a b }
{
    if a.is_nan() {
        return b;
    }
    if a < b { b } else { a }
}

// Rust's `x.abs()`.
pub fn f32_abs(x: f32) -> f32
    ensures { result ≡ magnitude x }
{
    x.abs()
}

// Rust's `x.clamp(0.0, 1.0)`, the only clamp of the code that is carried over. A NaN stays one.
pub fn f32_clamp_unit(x: f32) -> f32
    ensures { result ≡ clamped x }
{
    x.clamp(0.0, 1.0)
}

// Rust's `x.to_bits()`; for a NaN the pattern 7fc00000, since its payload is nobody's business.
pub fn f32_to_bits(x: f32) -> u32
    ensures { result ≡ to_bits binary32 x }
{
    std::num::f32_to_bits_with_nan(x)
}

// Rust's `f32::from_bits(b)`; a NaN's pattern gives a NaN, of no particular payload.
pub fn f32_from_bits(b: u32) -> f32
    ensures { result ≡ from_bits binary32 b }
{
    std::num::f32_from_bits_with_nan(b)
}
