// Envelopes of four stages, after envelope.rs and without the refusals of `envelope`: for callers that have checked
// their state. One state serves operators and pitch, and `reshape`, true for an operator's, stands where the Rust has a
// parameter of the type. Each function promises its definition; where a stage picks a level or an increment, it is
// asked to be at most 3. One that is given no more than a position promises it for every envelope that stands there.
#![tactic(auto)]

ghost use Rattle.std.specs.Prelude.{◌≡◌, cond, ◌≤◌, get_or};
ghost use Rattle.std.specs.Float.{nan};
ghost use Rattle.envelope_stages.specs.Stages.{OnChart};
ghost use Rattle.envelope_inner.specs.declared.Envelope.{Envelope};
ghost use Rattle.envelope_inner.specs.Envelope.{initialised, start_of, segment, line, level_value, value_at};
ghost use Rattle.envelope_inner.specs.Envelope.{current_value, gated, position_of, standing, stepped_phase, advanced};
ghost use Rattle.envelope_inner.specs.Envelope.{rendered};
ghost use Rattle.envelope_inner.specs.Scrub.{reached, past_stages, held, scrubbed};
ghost use Rattle.envelope_inner.specs.Set.{set_to, operator_set, pitch_set};

use dx_units_inner::LevelChart;

// A start of -100 is a mark and no level: the stage starts at the level before it. Only the stage that a gate starts
// has a start of its own, the value at which the gate broke in. The mark is compared as a float.
// Stays: `start_of` promises that a value of exactly -100 at which a gate breaks in counts as the mark, so no Option.
const PREVIOUS_LEVEL: f32 = -100.0;

#[derive(Clone, Copy)]
pub struct Envelope {
    pub stage: usize,
    pub phase: f32,
    pub start: f32,
    pub increment: [f32; 4],
    pub level: [f32; 4],
    pub scale: f32,
}

// Where an envelope stands.
#[derive(Clone, Copy)]
pub struct Position {
    pub stage: usize,
    pub phase: f32,
    pub start: f32,
}

impl Envelope {
    pub fn position(self) -> Position
        ensures { result ≡ position_of self }
    {
        Position {
            stage: self.stage,
            phase: self.phase,
            start: self.start,
        }
    }

    // The same envelope at a position.
    pub fn move_to(self, q: Position) -> Envelope
        ensures { result ≡ standing self q }
    {
        Envelope {
            stage: q.stage,
            phase: q.phase,
            start: q.start,
            ..self
        }
    }
}

// At rest at the end of the last stage.
pub fn init(scale: f32) -> Envelope
    ensures { result ≡ initialised scale }
{
    let level = [1.0, 0.5, 0.25, 0.0];
    Envelope {
        stage: 3,
        phase: 1.0,
        start: 0.0,
        increment: [0.001; 4],
        level,
        scale,
    }
}

// Increments and levels, in the Rust's order, are copied, and nothing else changes.
pub fn set(envelope: Envelope, increment: [f32; 4], level: [f32; 4]) -> Envelope
    ensures { result ≡ set_to envelope increment level }
{
    Envelope {
        increment,
        level,
        ..envelope
    }
}

// Where a scrub's time ends: a stage, and the time left in it.
#[derive(Clone, Copy)]
pub struct Reached {
    pub stage: usize,
    pub t: f32,
}

// The value at a time after the gate opened.
pub fn render_at_sample(envelope: Envelope, reshape: bool, t: f32, gate_duration: f32) -> f32
    ensures { result ≡ scrubbed 1 reshape envelope t gate_duration }
{
    scrub(envelope, reshape, t, gate_duration, 1)
}

// The scrub, with so many calls of itself allowed: past the gate's end it asks itself for the level there. It does so
// once, since the gate's end is not past itself. Here a phase of exactly 1 ends the release; past all stages it does
// not.
// Stays: a call of itself with falling calls is the form that docs/RULES.md (Forms) asks of the scrub.
fn scrub(envelope: Envelope, reshape: bool, t: f32, gate_duration: f32, calls: u32) -> f32
    ensures { result ≡ scrubbed calls reshape envelope t gate_duration }
{
    if calls == 0 {
        return hold(envelope, reshape, t, gate_duration);
    }
    if t > gate_duration {
        let phase = (t - gate_duration) * envelope.increment[3];
        if phase >= 1.0 {
            return envelope.level[3];
        }
        let start = scrub(envelope, reshape, gate_duration, gate_duration, calls - 1);
        let q = Position {
            stage: 3,
            phase,
            start,
        };
        return value(envelope, reshape, q);
    }
    hold(envelope, reshape, t, gate_duration)
}

// At a time of an open gate.
fn hold(envelope: Envelope, reshape: bool, t: f32, gate_duration: f32) -> f32
    ensures { result ≡ held reshape envelope t gate_duration }
{
    let Reached { stage, t: left } = reach(envelope.increment, t);
    if stage < 3 {
        let q = Position {
            stage,
            phase: left * pick(envelope.increment, stage),
            start: PREVIOUS_LEVEL,
        };
        return value(envelope, reshape, q);
    }
    past_stages(envelope, reshape, left - gate_duration)
}

// The stage in which a time lies, and the time left there.
fn reach(increments: [f32; 4], mut t: f32) -> Reached
    ensures { result ≡ reached 3 0 increments t }
{
    for (stage, increment) in increments[..3].iter().enumerate() {
        let duration = 1.0 / *increment;
        if t < duration {
            return Reached { stage, t };
        }
        t -= duration;
    }
    Reached { stage: 3, t }
}

// Past all stages. The time left is at most the gate's, so this is sustain: the third level itself, neither bent nor
// lifted. What follows is for increments below 0, infinities and NaNs, which an envelope may hold.
fn past_stages(envelope: Envelope, reshape: bool, t: f32) -> f32
    ensures { result ≡ past_stages reshape envelope t }
{
    if t <= 0.0 {
        return envelope.level[2];
    }
    let phase = t * envelope.increment[3];
    if phase > 1.0 {
        return envelope.level[3];
    }
    let q = Position {
        stage: 3,
        phase,
        start: PREVIOUS_LEVEL,
    };
    value(envelope, reshape, q)
}

// Where an envelope stands a call later: the position alone, so that the envelope is copied only where it is stored.
pub fn render(
    envelope: Envelope,
    reshape: bool,
    gate: bool,
    rate: f32,
    ad_scale: f32,
    release_scale: f32,
) -> Position
    requires { envelope.stage ≤ 3 }
    ensures { standing envelope result ≡ rendered reshape gate rate ad_scale release_scale envelope }
{
    let followed = follow(envelope.level, envelope.position(), reshape, gate);
    let phase = step(envelope.increment, followed, rate, ad_scale, release_scale);
    advance(followed, phase)
}

// A gate that opens starts the first stage, and one that closes the last, from the value now.
fn follow(level: [f32; 4], q: Position, reshape: bool, gate: bool) -> Position
    requires { q.stage ≤ 3 }
    ensures { (e : Envelope) → e.level ≡ level → standing e result ≡ gated reshape gate (standing e q) }
{
    if gate == (q.stage == 3) {
        let start = value_at(level, reshape, q);
        return Position {
            stage: started(gate),
            phase: 0.0,
            start,
        };
    }
    q
}

// The stage that a gate starts.
fn started(gate: bool) -> usize
    ensures { result ≡ cond gate 0 3 }
{
    if gate { 0 } else { 3 }
}

// The phase a call further.
fn step(increment: [f32; 4], q: Position, rate: f32, ad_scale: f32, release_scale: f32) -> f32
    requires { q.stage ≤ 3 }
    ensures { (e : Envelope) → e.increment ≡ increment
        → result ≡ stepped_phase rate ad_scale release_scale (standing e q) }
{
    let stage = q.stage;
    let stride = pick(increment, stage) * rate;
    if stage == 3 {
        return q.phase + stride * release_scale;
    }
    q.phase + stride * ad_scale
}

// At most one stage further, however far the phase went, and the phase left over is dropped: a stage that is shorter
// than a call still takes one. The third stage, which sustains, and the last stay at their ends.
fn advance(q: Position, phase: f32) -> Position
    ensures { (e : Envelope) → standing e result ≡ advanced phase (standing e q) }
{
    if phase >= 1.0 {
        if q.stage < 2 {
            return Position {
                stage: q.stage + 1,
                phase: 0.0,
                start: PREVIOUS_LEVEL,
            };
        }
        return Position {
            phase: 1.0,
            start: PREVIOUS_LEVEL,
            ..q
        };
    }
    Position { phase, ..q }
}

pub fn current_value(envelope: Envelope, reshape: bool) -> f32
    requires { envelope.stage ≤ 3 }
    ensures { result ≡ current_value reshape envelope }
{
    value(envelope, reshape, envelope.position())
}

// The value at a position, wherever the envelope stands.
pub fn value(envelope: Envelope, reshape: bool, q: Position) -> f32
    requires { q.stage ≤ 3 }
    ensures { result ≡ value_at reshape envelope q.stage q.phase q.start }
{
    value_at(envelope.level, reshape, q)
}

// The value from the levels alone.
pub fn value_at(level: [f32; 4], reshape: bool, q: Position) -> f32
    requires { q.stage ≤ 3 }
    ensures { result ≡ level_value reshape level q.stage q.phase q.start }
{
    let from = start_of(pick(level, (q.stage + 3) % 4), q.start);
    segment(reshape, q.phase, from, pick(level, q.stage))
}

// One of four, by constant indexes.
// Stays: with `a[i]` or a `match` a render of an operator's envelope takes 13% or 17% longer.
fn pick(a: [f32; 4], i: usize) -> f32
    requires { i ≤ 3 }
    ensures { result ≡ get_or a i nan }
{
    if i == 0 {
        return a[0];
    }
    if i == 1 {
        return a[1];
    }
    if i == 2 {
        return a[2];
    }
    a[3]
}

// Where a stage starts: at the level before it, or at a level of its own.
fn start_of(before: f32, start_level: f32) -> f32
    ensures { result ≡ start_of before start_level }
{
    if start_level == PREVIOUS_LEVEL {
        before
    } else {
        start_level
    }
}

// An operator's rising segment is bent, and it has a floor: the old chip's envelope jumps up to a threshold when it
// rises, so both ends are lifted to at least 6.7. With both below, the value is 6.7 as long as the stage lasts, which
// for a third stage is as long as it sustains.
fn segment(reshape: bool, phase: f32, from: f32, to: f32) -> f32
    ensures { result ≡ segment reshape phase from to }
{
    if !reshape {
        return line(phase, from, to);
    }
    if from < to {
        let bent = phase * ((2.5 - phase) * 0.666667);
        return line(bent, numbers::f32_max(6.7, from), numbers::f32_max(6.7, to));
    }
    line(phase, from, to)
}

fn line(phase: f32, from: f32, to: f32) -> f32
    ensures { result ≡ line phase from to }
{
    phase * (to - from) + from
}

// The chart of levels is lent: one serves all operators of a patch.
pub fn operator_set(
    chart: &LevelChart,
    envelope: Envelope,
    rate: [u8; 4],
    level: [u8; 4],
    global_level: u8,
) -> Envelope
    requires { OnChart level }
    ensures { result ≡ operator_set envelope rate level global_level }
{
    let levels = envelope_stages::operator_levels(chart, level, global_level);
    let increments = envelope_stages::operator_increments(
        rate,
        levels,
        level[0] == 0,
        envelope.scale,
    );
    set(envelope, increments, levels)
}

pub fn pitch_set(envelope: Envelope, rate: [u8; 4], level: [u8; 4]) -> Envelope
    ensures { result ≡ pitch_set envelope rate level }
{
    let levels = envelope_stages::pitch_levels(level);
    let increments = envelope_stages::pitch_increments(rate, levels, envelope.scale);
    set(envelope, increments, levels)
}
