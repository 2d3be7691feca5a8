// A patch as its 155 numbers in layout order, and back, for other forms of a patch and for differences. Added by us: no
// Rust file. Each entry is what specs/Numbers says, over the order of `patch`'s specs/Layout. Nothing is refused.
#![tactic(auto)]

ghost use Rattle.std.specs.Prelude.{◌≡◌, ◌+◌, ◌≤◌, length, get_or};
ghost use Rattle.patch.specs.Form.{envelope_with, scaling_with, operator_with, modulations_with, name_with};
ghost use Rattle.patch.specs.Positions.{envelope_position, scaling_position, operator_position, lfo_position, position};
ghost use Rattle.patch_numbers.specs.Numbers.{numbers_of, patch_of, operator_numbers, shared_numbers};

use patch::{Envelope, KeyboardScaling, ModulationParameters, Operator, Patch};
use std::array;

// An operator's 21 numbers.
// Stays: a table, a field a line; copying the arrays into it would need a place for each part, and is no plainer.
fn operator_numbers(o: Operator) -> [u8; 21]
    ensures { result ≡ operator_numbers o }
{
    let e = o.envelope;
    let rate = e.rate;
    let level = e.level;
    let k = o.keyboard_scaling;
    [
        // 0 to 7, the envelope.
        rate[0],
        rate[1],
        rate[2],
        rate[3],
        level[0],
        level[1],
        level[2],
        level[3],
        // 8 to 12, keyboard scaling.
        k.break_point,
        k.left_depth,
        k.right_depth,
        k.left_curve,
        k.right_curve,
        // 13 to 20.
        o.rate_scaling,
        o.detune,
        o.amp_mod_sensitivity,
        o.velocity_sensitivity,
        o.level,
        o.mode,
        o.coarse,
        o.fine,
    ]
}

// The 29 numbers behind the operators'.
// Stays: a table, as an operator's.
fn shared_numbers(p: Patch) -> [u8; 29]
    ensures { result ≡ shared_numbers p }
{
    let e = p.pitch_envelope;
    let rate = e.rate;
    let level = e.level;
    let m = p.modulations;
    let name = p.name;
    [
        // 126 to 133, of the pitch.
        rate[0],
        rate[1],
        rate[2],
        rate[3],
        level[0],
        level[1],
        level[2],
        level[3],
        // 134 to 144.
        p.algorithm,
        p.feedback,
        p.reset_phase,
        m.rate,
        m.delay,
        m.pitch_mod_depth,
        m.amp_mod_depth,
        m.reset_phase,
        m.waveform,
        m.pitch_mod_sensitivity,
        p.transpose,
        // 145 to 154.
        name[0],
        name[1],
        name[2],
        name[3],
        name[4],
        name[5],
        name[6],
        name[7],
        name[8],
        name[9],
    ]
}

// A patch's numbers.
pub fn numbers(patch: Patch) -> [u8; 155]
    ensures { result ≡ numbers_of patch }
{
    let mut out = [0u8; 155];
    for (k, o) in patch.op.iter().enumerate() {
        lent_bytes::put(&mut out, 21 * k, &operator_numbers(*o));
    }
    lent_bytes::put(&mut out, 126, &shared_numbers(patch));
    out
}

// The envelope whose first number stands at `at`.
fn envelope_of(s: &[u8], at: usize) -> Envelope
    requires { at + 8 ≤ length s.now }
    ensures { result ≡ envelope_with (λ n. get_or s.now (at + envelope_position n) 0) }
{
    Envelope {
        rate: array::from_fn(|i| s[at + i]),
        level: array::from_fn(|i| s[at + 4 + i]),
    }
}

// The keyboard scaling of the operator whose first number stands at `at`.
fn scaling_of(s: &[u8], at: usize) -> KeyboardScaling
    requires { at + 21 ≤ length s.now }
    ensures { result ≡ scaling_with (λ n. get_or s.now (at + (8 + scaling_position n)) 0) }
{
    KeyboardScaling {
        left_depth: s[at + 9],
        right_depth: s[at + 10],
        left_curve: s[at + 11],
        right_curve: s[at + 12],
        break_point: s[at + 8],
    }
}

// The operator whose first number stands at `at`.
fn operator_of(s: &[u8], at: usize) -> Operator
    requires { at + 21 ≤ length s.now }
    ensures { result ≡ operator_with (λ n. get_or s.now (at + operator_position n) 0) }
{
    Operator {
        envelope: envelope_of(s, at),
        keyboard_scaling: scaling_of(s, at),
        rate_scaling: s[at + 13],
        amp_mod_sensitivity: s[at + 15],
        velocity_sensitivity: s[at + 16],
        level: s[at + 17],
        mode: s[at + 18],
        coarse: s[at + 19],
        fine: s[at + 20],
        detune: s[at + 14],
    }
}

// Stays: as `array::from_fn(|k| operator_of(s, 21 * k))` it got no proof: `grind` stopped at its limit of case splits.
fn operators_of(s: &[u8]) -> [Operator; 6]
    requires { length s.now ≡ 155 }
    ensures { result ≡ (patch_of s.now).op }
{
    [
        operator_of(s, 0),
        operator_of(s, 21),
        operator_of(s, 42),
        operator_of(s, 63),
        operator_of(s, 84),
        operator_of(s, 105),
    ]
}

fn modulations_of(s: &[u8]) -> ModulationParameters
    requires { length s.now ≡ 155 }
    ensures { result ≡ modulations_with (λ n. get_or s.now (137 + lfo_position n) 0) }
{
    ModulationParameters {
        delay: s[138],
        rate: s[137],
        pitch_mod_depth: s[139],
        amp_mod_depth: s[140],
        reset_phase: s[141],
        waveform: s[142],
        pitch_mod_sensitivity: s[143],
    }
}

#[tactic(auto, unfolding(patch::specs::Form::name_with, patch::specs::Positions::position))]
fn name_of(s: &[u8]) -> [u8; 10]
    requires { length s.now ≡ 155 }
    ensures { result ≡ name_with (λ n. get_or s.now (position n) 0) }
{
    array::from_fn(|i| s[145 + i])
}

// The patch with these numbers, all six operators active.
pub fn patch_of(numbers: &[u8; 155]) -> Patch
    ensures { result ≡ patch_of numbers.now }
{
    Patch {
        op: operators_of(numbers),
        pitch_envelope: envelope_of(numbers, 126),
        algorithm: numbers[134],
        feedback: numbers[135],
        reset_phase: numbers[136],
        modulations: modulations_of(numbers),
        transpose: numbers[144],
        name: name_of(numbers),
        active_operators: 63,
    }
}
