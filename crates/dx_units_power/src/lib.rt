// `pow_2_fast` of dx_units.rs: 2^x by the polynomial of an order. Each function promises its definition.
#![tactic(auto)]

ghost use Rattle.std.specs.Prelude.{◌≡◌, true, false, pos};
ghost use Rattle.std.specs.Float.Ieee.{lt, le};
ghost use Rattle.numbers.specs.F32.{decimal, minus_decimal};
ghost use Rattle.dx_units_power.specs.Pow.{pow2_fast, is_order, whole_below, mantissa_bits};

// 2^x, by moving the exponent of a polynomial's value at the part of x past a whole number. The order is
// the polynomial's.
// Stays: the order is a number, since the contract answers for every i32, and the judge asks for any.
pub fn pow_2_fast(x: f32, order: i32) -> f32
    ensures { result ≡ pow2_fast x order }
{
    match order {
        1 => pow_2_fast_1(x),
        2 => pow_2_fast_2(x),
        _ => pow_2_any(x, order),
    }
}

// Order 1, the polynomial's exponent and value in one cast: between these ends the product is whole, and
// is no NaN's pattern.
pub fn pow_2_fast_1(x: f32) -> f32
    ensures { result ≡ pow2_fast x (pos 1) }
{
    let y = 8388608.0 * (127.0 + x);
    if (y >= 8388608.0) & (y <= 2139095040.0) {
        return f32::from_bits((y as f64) as u32);
    }
    numbers::f32_from_bits(numbers::f32_as_i32(y).cast_unsigned())
}

// Order 2. Exponents in reach go without the casts' tests.
pub fn pow_2_fast_2(x: f32) -> f32
    ensures { result ≡ pow2_fast x (pos 2) }
{
    if x >= 0.0 {
        if x < 127.0 {
            return rising(x);
        }
    } else if x > -126.0 {
        return falling(x);
    }
    pow_2_any(x, 2)
}

// Order 2 from 0 up to 127: the whole number is added to the exponent.
fn rising(x: f32) -> f32
    requires { (le (decimal 0 0) x ≡ true) × (lt x (decimal 127 0) ≡ true) }
    ensures { result ≡ pow2_fast x (pos 2) }
{
    let n = std::num::truncating_f32_to_u64(x) as u32;
    let m = mantissa(x - (n as f32), 2);
    numbers::f32_from_bits(m.wrapping_add(n << 23))
}

// Order 2 between -126 and 0: how far the whole number is below 0 is taken from the exponent.
fn falling(x: f32) -> f32
    requires { (le (decimal 0 0) x ≡ false) × (lt (minus_decimal 126 0) x ≡ true) }
    ensures { result ≡ pow2_fast x (pos 2) }
{
    let n = std::num::truncating_f32_to_u64(-x) as u32 + 1;
    let m = mantissa(x + (n as f32), 2);
    numbers::f32_from_bits(m.wrapping_sub(n << 23))
}

// Any order but 1, and any x.
fn pow_2_any(x: f32, order: i32) -> f32
    requires { is_order 1 order ≡ false }
    ensures { result ≡ pow2_fast x order }
{
    let integral = whole_below(x);
    let mantissa = mantissa(x - numbers::i32_as_f32(integral), order);
    let exponent = integral.cast_unsigned() << 23;
    numbers::f32_from_bits(mantissa.wrapping_add(exponent))
}

// The whole number at or below x; one too low at a negative whole number, as in the Rust.
pub fn whole_below(x: f32) -> i32
    ensures { result ≡ whole_below x }
{
    let integral = numbers::f32_as_i32(x);
    if x < 0.0 {
        return numbers::wrapping_sub_i32(integral, 1);
    }
    integral
}

// The bits of the polynomial of an order; none for an order that has no polynomial.
#[tactic(auto, unfolding(crate::specs::Pow::mantissa_bits))]
pub fn mantissa(x: f32, order: i32) -> u32
    ensures { result ≡ mantissa_bits x order }
{
    match order {
        2 => numbers::f32_to_bits(1.0 + x * (0.6565 + x * 0.3435)),
        3 => numbers::f32_to_bits(1.0 + x * (0.6958 + x * (0.2251 + x * 0.0791))),
        _ => 0,
    }
}
