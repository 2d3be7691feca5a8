// What is in reach. The limits of a patch's fields, which a patch that was not unpacked may break: each of these
// functions is what `patch`'s specs/Packed derives from the one table of its specs/Layout. Number given back: 6 a field
// above its largest number. And the ranges of floats.
#![tactic(auto)]

ghost use Rattle.std.specs.Prelude.{◌≡◌};
ghost use Rattle.patch_limits.specs.Ranges.{between, sample_rate_fits, note_fits, unit_fits};
ghost use Rattle.patch.specs.Packed.{stages_fit, scaling_fits, operator_fits, operators_fit, modulations_fit};
ghost use Rattle.patch.specs.Packed.{name_fits, patch_fits, check_of};

use patch::{KeyboardScaling, ModulationParameters, Operator, Patch, largest};
use refusals::Refusal;

// Whether the four rates or levels of an envelope are at most their largest. They are lent: an array of four bytes that
// is handed over as a value comes in a register, to be taken apart bit by bit, where sixteen bytes can be tested as
// one.
// Stays: by `x.iter().all(..)`, here and over the operators, packing takes 80 ns in place of 58, the check 25 of 23.
pub fn stages_fit(x: &[u8; 4]) -> bool
    ensures { result ≡ stages_fit x.now }
{
    (x[0] <= largest::WHOLE)
        & (x[1] <= largest::WHOLE)
        & (x[2] <= largest::WHOLE)
        & (x[3] <= largest::WHOLE)
}

// Whether each number of a struct is at most its field's largest.
pub fn scaling_fits(k: KeyboardScaling) -> bool
    ensures { result ≡ scaling_fits k }
{
    (k.break_point <= largest::WHOLE)
        & (k.left_depth <= largest::WHOLE)
        & (k.right_depth <= largest::WHOLE)
        & (k.left_curve <= largest::CURVE)
        & (k.right_curve <= largest::CURVE)
}

pub fn operator_fits(o: Operator) -> bool
    ensures { result ≡ operator_fits o }
{
    let keyboard_scaling = o.keyboard_scaling;
    stages_fit(&o.envelope.rate)
        & stages_fit(&o.envelope.level)
        & scaling_fits(keyboard_scaling)
        & (o.rate_scaling <= largest::RATE_SCALING)
        & (o.detune <= largest::DETUNE)
        & (o.amp_mod_sensitivity <= largest::AMP_MOD_SENSITIVITY)
        & (o.velocity_sensitivity <= largest::VELOCITY_SENSITIVITY)
        & (o.level <= largest::WHOLE)
        & (o.mode <= largest::MODE)
        & (o.coarse <= largest::COARSE)
        & (o.fine <= largest::WHOLE)
}

// The pitch sensitivity's limit is the caller's: a patch has another than an LFO that is set.
pub fn modulations_fit(m: ModulationParameters, limit: u8) -> bool
    ensures { result ≡ modulations_fit m limit }
{
    (m.rate <= largest::WHOLE)
        & (m.delay <= largest::WHOLE)
        & (m.pitch_mod_depth <= largest::WHOLE)
        & (m.amp_mod_depth <= largest::WHOLE)
        & (m.reset_phase <= largest::RESET_PHASE)
        & (m.waveform <= largest::WAVEFORM)
        & (m.pitch_mod_sensitivity <= limit)
}

// Stays: as `name.iter().all(..)` it got no proof: the search stopped at a limit.
fn name_fits(name: &[u8; 10]) -> bool
    ensures { result ≡ name_fits name.now }
{
    (name[0] <= largest::LETTER)
        & (name[1] <= largest::LETTER)
        & (name[2] <= largest::LETTER)
        & (name[3] <= largest::LETTER)
        & (name[4] <= largest::LETTER)
        & (name[5] <= largest::LETTER)
        & (name[6] <= largest::LETTER)
        & (name[7] <= largest::LETTER)
        & (name[8] <= largest::LETTER)
        & (name[9] <= largest::LETTER)
}

// Stays: slower by `op.iter().all(..)`, as the stages are.
fn operators_fit(op: [Operator; 6]) -> bool
    ensures { result ≡ operators_fit op }
{
    operator_fits(op[0])
        & operator_fits(op[1])
        & operator_fits(op[2])
        & operator_fits(op[3])
        & operator_fits(op[4])
        & operator_fits(op[5])
}

// Whether 6 accepts a patch. It stays a function of its own: where a branch on it is compiled with it, the fields are
// tested one by one, and not sixteen at a time.
#[inline(never)]
pub fn patch_fits(p: Patch) -> bool
    ensures { result ≡ patch_fits p }
{
    let op = p.op;
    let modulations = p.modulations;
    operators_fit(op)
        & stages_fit(&p.pitch_envelope.rate)
        & stages_fit(&p.pitch_envelope.level)
        & (p.algorithm <= largest::ALGORITHM)
        & (p.feedback <= largest::FEEDBACK)
        & (p.reset_phase <= largest::RESET_PHASE)
        & modulations_fit(modulations, largest::PATCH_SENSITIVITY)
        & (p.transpose <= largest::TRANSPOSE)
        & name_fits(&p.name)
        & (p.active_operators == 63)
}

// 6 for a field above its largest number or active operators other than 63.
pub fn check(p: Patch) -> Result<(), Refusal>
    ensures { result ≡ check_of p }
{
    if patch_fits(p) {
        Ok(())
    } else {
        Err(Refusal::Field)
    }
}

// From low to high, ends allowed; no NaN.
pub fn between(low: f32, high: f32, x: f32) -> bool
    ensures { result ≡ between low high x }
{
    (low <= x) & (x <= high)
}

// Number 5.
pub fn sample_rate_fits(rate: f32) -> bool
    ensures { result ≡ sample_rate_fits rate }
{
    between(8000.0, 192000.0, rate)
}

// Number 7: a note.
pub fn note_fits(note: f32) -> bool
    ensures { result ≡ note_fits note }
{
    between(0.0, 127.0, note)
}

// Number 7: a velocity, a brightness, an envelope control or an amplitude modulation.
pub fn unit_fits(x: f32) -> bool
    ensures { result ≡ unit_fits x }
{
    between(0.0, 1.0, x)
}
