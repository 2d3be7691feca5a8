// What can be computed once a patch is loaded, after voice.rs's setup: for each operator its envelope, its headroom and
// its frequency ratio. Helpers of the voice, which has checked the patch.
#![tactic(auto)]

ghost use Rattle.std.specs.Prelude.{◌≡◌, ◌≤◌, T};
ghost use Rattle.patch.specs.Packed.{operator_fits, operators_fit};
ghost use Rattle.voice_setup.specs.Setup.{headroom_of, operator_set_up, set_up_to};

use dx_units_inner::{LevelChart, Ratio};
use envelope_inner::Envelope;

// What a patch makes of one operator.
#[derive(Clone, Copy)]
pub struct OperatorSetup {
    pub envelope: Envelope,
    pub level_headroom: f32,
    pub ratio: Ratio,
}

// And of all.
// Stays: three arrays, which the voice holds; one array of OperatorSetup would be taken apart for them again.
#[derive(Clone, Copy)]
pub struct Setup {
    pub operator_envelope: [Envelope; 6],
    pub ratios: [Ratio; 6],
    pub level_headroom: [f32; 6],
}

// The level increase caused by keyboard scaling plus velocity scaling is held at this number: more would be an operator
// with a level above 99.
#[tactic(auto, unfolding(crate::specs::Setup::headroom_of))]
fn headroom(level: u8) -> f32
    requires { level ≤ 127 }
    ensures { result ≡ headroom_of level }
{
    (127 - level) as f32
}

fn operator_setup(
    chart: &LevelChart,
    high: &[f32; 256],
    low: &[f32; 256],
    e: Envelope,
    op: patch::Operator,
) -> OperatorSetup
    requires { T (operator_fits op) }
    ensures { result ≡ operator_set_up high.now low.now e op }
{
    let level = dx_units_inner::operator_level(chart, op.level);
    let stages = op.envelope;
    let rate = stages.rate;
    let levels = stages.level;
    let envelope = envelope_inner::operator_set(chart, e, rate, levels, level);
    let level_headroom = headroom(level);
    let ratio = dx_units_inner::frequency_ratio(high, low, op.mode, op.coarse, op.fine, op.detune);
    OperatorSetup {
        envelope,
        level_headroom,
        ratio,
    }
}

// The first `operators` of six; the others stay as they are. The chart of levels is made once, for all of them.
pub fn setup_operators(
    high: &[f32; 256],
    low: &[f32; 256],
    operators: usize,
    op: [patch::Operator; 6],
    before: Setup,
) -> Setup
    requires { (operators ≤ 6) × T (operators_fit op) }
    ensures { result ≡ set_up_to high.now low.now op operators before }
{
    // In this order: behind the chart's making, `before` would be copied once more.
    let mut s = before;
    let chart = LevelChart::new();
    for (i, o) in op[..operators].iter().enumerate() {
        let one = operator_setup(&chart, high, low, s.operator_envelope[i], *o);
        s.operator_envelope[i] = one.envelope;
        s.ratios[i] = one.ratio;
        s.level_headroom[i] = one.level_headroom;
    }
    s
}
