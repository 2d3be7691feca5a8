// The numbers of a sounding block, after voice.rs's render: how fast the envelopes run, and for each operator its
// envelope, its step with its mark, and its amplitude. Helpers of the voice, which has checked its state and the patch.
#![tactic(auto)]

ghost use Rattle.std.specs.Prelude.{◌≡◌, ◌≤◌, T};
ghost use Rattle.envelope_inner.specs.Envelope.{all_stages};
ghost use Rattle.patch.specs.Packed.{operators_fit};
ghost use Rattle.voice_levels.specs.Levels.{timing_for, followed, note_frequency, frequency_of, scaling_of};
ghost use Rattle.voice_levels.specs.Levels.{level_mod_of, amplitude_of};
ghost use Rattle.voice_levels.specs.Levels.{brightness_of, taken, raised, raised_to, raised_by, amplitudes_to};
ghost use Rattle.voice_levels.specs.Levels.{all_as_asked, leveled_to};

use dx_units_inner::Ratio;
use dx_units_step::Mark;
use envelope_inner::{Envelope, Position};

// What is left of a level where there is no amplitude modulation: 1 less the power of -6.4.
const LEVEL_MOD_AT_REST: f32 = 0.9881440401;

// How the envelopes run in a block: scrubbed to a sample, or on by a rate.
#[derive(Clone, Copy)]
pub struct Timing {
    pub sustain: bool,
    pub gate: bool,
    pub envelope_rate: f32,
    pub ad_scale: f32,
    pub release_scale: f32,
    pub gate_duration: f32,
    pub envelope_sample: f32,
}

// An envelope after a block, and its value there.
#[derive(Clone, Copy)]
pub struct Followed {
    pub envelope: Envelope,
    pub value: f32,
}

// Where an envelope stands after a block, and its value there.
#[derive(Clone, Copy)]
pub struct Placed {
    pub position: Position,
    pub value: f32,
}

// What all operators of a block have in common.
#[derive(Clone, Copy)]
pub struct Scene {
    pub timing: Timing,
    pub f0: f32,
    pub one_hz: f32,
    pub note: f32,
    pub normalized_velocity: f32,
    pub brightness: f32,
    pub amp_mod: f32,
}

// An operator's envelope after a block, no more of it than where it stands, and its level, not yet an amplitude.
#[derive(Clone, Copy)]
pub struct Raised {
    pub position: Position,
    pub level: f32,
}

// All operators of a block: envelopes, steps with their marks, and amplitudes.
// Stays: four arrays, each of which goes on whole to another place; one array would be taken apart for them.
#[derive(Clone, Copy)]
pub struct Levels {
    pub operator_envelope: [Envelope; 6],
    pub steps: [u32; 6],
    pub marks: [Mark; 6],
    pub amplitudes: [f32; 6],
}

// The envelope control sets how fast attack and decay run, how fast the release does (slowest reach at 0.3), and the
// sample that a sustained voice is scrubbed to, within a gate of a second and a half.
pub fn timing_for(
    sustain: bool,
    gate: bool,
    sample_rate: f32,
    envelope_control: f32,
    samples: u32,
) -> Timing
    ensures { result ≡ timing_for sustain gate sample_rate envelope_control samples }
{
    let envelope_rate = numbers::u32_as_f32(samples);
    let ad_scale = dx_units_power::pow_2_fast((0.5 - envelope_control) * 8.0, 1);
    let release = -numbers::f32_abs(envelope_control - 0.3) * 8.0;
    let release_scale = dx_units_power::pow_2_fast(release, 1);
    let gate_duration = 1.5 * sample_rate;
    let envelope_sample = gate_duration * envelope_control;
    Timing {
        sustain,
        gate,
        envelope_rate,
        ad_scale,
        release_scale,
        gate_duration,
        envelope_sample,
    }
}

// An envelope's block. A scrubbed one stays where it is.
pub fn follow(t: Timing, reshape: bool, rate: f32, e: Envelope) -> Followed
    requires { e.stage ≤ 3 }
    ensures { result ≡ followed t reshape rate e }
{
    let p = place(t, reshape, rate, e);
    Followed {
        envelope: e.move_to(p.position),
        value: p.value,
    }
}

// Where it stands then: the envelope itself is copied only where it is stored.
fn place(t: Timing, reshape: bool, rate: f32, e: Envelope) -> Placed
    requires { e.stage ≤ 3 }
    ensures { taken e result ≡ followed t reshape rate e }
{
    if t.sustain {
        let value = envelope_inner::render_at_sample(
            e,
            reshape,
            t.envelope_sample,
            t.gate_duration,
        );
        let position = e.position();
        return Placed { position, value };
    }
    let position = envelope_inner::render(e, reshape, t.gate, rate, t.ad_scale, t.release_scale);
    let value = envelope_inner::value_at(e.level, reshape, position);
    Placed { position, value }
}

// The note's frequency in turns a sample, with the pitch modulation in octaves. `a0` is 55 Hz; a quarter of it at note
// 9.
pub fn note_frequency(
    high: &[f32; 256],
    low: &[f32; 256],
    a0: f32,
    note: f32,
    pitch_mod: f32,
) -> f32
    ensures { result ≡ note_frequency high.now low.now a0 note pitch_mod }
{
    let semitones = note - 9.0 + pitch_mod * 12.0;
    a0 * 0.25 * units::semitones_to_ratio_lent(high, low, semitones)
}

// What brightness adds to a modulator's level.
fn brightness_of(brightness: f32, opcode: u8) -> f32
    ensures { result ≡ brightness_of brightness opcode }
{
    if algorithms::is_modulating(opcode) {
        return (brightness - 0.5) * 32.0;
    }
    0.0
}

// What the amplitude modulation leaves of a level; at rest it is a constant.
fn level_mod(log_level_mod: f32) -> f32
    ensures { result ≡ level_mod_of log_level_mod }
{
    if log_level_mod == -1.0 {
        return LEVEL_MOD_AT_REST;
    }
    1.0 - dx_units_power::pow_2_fast(6.4 * log_level_mod, 2)
}

// The amplitude of a level, with the amplitude modulation.
fn amplitude(amp_mod: f32, sensitivity: u8, level: f32) -> f32
    requires { sensitivity ≤ 3 }
    ensures { result ≡ amplitude_of amp_mod sensitivity level }
{
    let log_level_mod = dx_units_inner::amp_mod_sensitivity(sensitivity) * amp_mod - 1.0;
    dx_units_power::pow_2_fast(-14.0 + level * level_mod(log_level_mod), 2)
}

// The marks of six operators whose pitches are all as asked.
#[tactic(auto, unfolding(crate::specs::Levels::all_as_asked))]
pub fn all_as_asked() -> [Mark; 6]
    ensures { result ≡ all_as_asked }
{
    [Mark::AsAsked; 6]
}

impl Scene {
    // An operator's frequency in turns a sample.
    #[tactic(auto, unfolding(crate::specs::Levels::frequency_by))]
    fn frequency(self, ratio: Ratio) -> f32
        ensures { result ≡ frequency_of self ratio }
    {
        match ratio {
            Ratio::Note(r) => r * self.f0,
            Ratio::Hertz(r) => r * self.one_hz,
        }
    }

    // What the keyboard, the velocity and the brightness add to a level: at most the headroom.
    fn scaling(self, op: patch::Operator, level_headroom: f32, opcode: u8) -> f32
        ensures { result ≡ scaling_of self op level_headroom opcode }
    {
        let k = op.keyboard_scaling;
        let kb_scaling = dx_units_inner::keyboard_scaling(
            self.note,
            k.left_depth,
            k.right_depth,
            k.left_curve,
            k.right_curve,
            k.break_point,
        );
        let velocity_scaling = self.normalized_velocity * op.velocity_sensitivity as f32;
        let brightness = brightness_of(self.brightness, opcode);
        0.125 * numbers::f32_min(kb_scaling + velocity_scaling + brightness, level_headroom)
    }

    // An operator's envelope and level.
    fn raise_operator(
        self,
        op: patch::Operator,
        level_headroom: f32,
        opcode: u8,
        e: Envelope,
    ) -> Raised
        requires { e.stage ≤ 3 }
        ensures { raised_by e result ≡ raised self op level_headroom opcode e }
    {
        let t = self.timing;
        let rate = t.envelope_rate * dx_units_inner::rate_scaling(self.note, op.rate_scaling);
        let p = place(t, true, rate, e);
        let level = p.value + self.scaling(op, level_headroom, opcode);
        Raised {
            position: p.position,
            level,
        }
    }

    // The first operators' envelopes, steps and marks, and in the amplitudes' place their levels. Step and mark are
    // stored before the rest is computed, which leaves more registers to that.
    fn raise_operators(
        self,
        operator_envelope: [Envelope; 6],
        row: [u8; 6],
        operators: usize,
        op: [patch::Operator; 6],
        ratios: [Ratio; 6],
        level_headroom: [f32; 6],
    ) -> Levels
        requires { (operators ≤ 6) × T (all_stages operator_envelope) }
        ensures { result ≡ raised_to self op ratios level_headroom row operator_envelope operators }
    {
        let marks = all_as_asked();
        let mut l = Levels {
            operator_envelope,
            steps: [0u32; 6],
            marks,
            amplitudes: [0.0f32; 6],
        };
        for (i, o) in op[..operators].iter().enumerate() {
            let s = dx_units_step::frequency_step(self.frequency(ratios[i]));
            l.steps[i] = s.step;
            l.marks[i] = s.mark;
            let e = operator_envelope[i];
            let one = self.raise_operator(*o, level_headroom[i], row[i], e);
            l.operator_envelope[i] = e.move_to(one.position);
            l.amplitudes[i] = one.level;
        }
        l
    }

    // The first operators' amplitudes, of their levels.
    fn amplitudes_of(self, operators: usize, op: [patch::Operator; 6], levels: [f32; 6]) -> [f32; 6]
        requires { (operators ≤ 6) × T (operators_fit op) }
        ensures { result ≡ amplitudes_to self op levels operators }
    {
        let mut l = levels;
        for (i, o) in op[..operators].iter().enumerate() {
            l[i] = amplitude(self.amp_mod, o.amp_mod_sensitivity, l[i]);
        }
        l
    }
}

// The first `operators` of six; the others keep their envelopes, their steps and amplitudes are 0, and their marks say
// as asked. Two loops, so that the processor overlaps the operators in each.
pub fn level_operators(
    g: Scene,
    operators: usize,
    op: [patch::Operator; 6],
    ratios: [Ratio; 6],
    level_headroom: [f32; 6],
    row: [u8; 6],
    operator_envelope: [Envelope; 6],
) -> Levels
    requires { (operators ≤ 6) × T (operators_fit op) × T (all_stages operator_envelope) }
    ensures { result ≡ leveled_to g op ratios level_headroom row operator_envelope operators }
{
    let mut l = g.raise_operators(
        operator_envelope,
        row,
        operators,
        op,
        ratios,
        level_headroom,
    );
    l.amplitudes = g.amplitudes_of(operators, op, l.amplitudes);
    l
}
