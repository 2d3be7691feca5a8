// One block of a chain of operators, after operator.rs: phases that wrap, amplitudes that ramp to their targets, and
// the renderers that a plan can name. Each promises one thing, `Rendered`, for every input: the samples and the chain
// after them. `pairs` are the sine's values and differences, lent.
#![tactic(auto)]

ghost use Rattle.std.specs.Prelude.{◌≡◌, true, ℕ, ◌+◌, ◌≤◌, ◌<◌, length};
ghost use Rattle.operator.specs.declared.Feedback.{Feedback};
ghost use Rattle.operator.specs.Sample.{still, lane_of, operator_of, moved, sampled, fed, pushed, mixed};
ghost use Rattle.operator.specs.Sample.{feedback_scale_of, ramp_scale};
ghost use Rattle.operator.specs.Chain.{Source, chain_of, alone, entered, kept, Rendered};
ghost use Rattle.operator.specs.Parts.{all_near, Placed, Going};

// What a block leaves behind of an operator.
#[derive(Clone, Copy)]
pub struct Operator {
    pub phase: u32,
    pub amplitude: f32,
}

impl Operator {
    pub fn new() -> Self
        ensures { result ≡ still }
    {
        Self {
            phase: 0,
            amplitude: 0.0,
        }
    }

    pub fn reset(self) -> Self
        ensures { result ≡ still }
    {
        Self::new()
    }

    // At the start of a block, with its step and its way to the target, held at 4.
    pub fn enter(self, step: u32, target: f32, ramp: f32) -> Lane
        ensures { result ≡ lane_of self step target ramp }
    {
        Lane {
            phase: self.phase,
            amplitude: self.amplitude,
            step,
            increment: (numbers::f32_min(target, 4.0) - self.amplitude) * ramp,
        }
    }
}

// An operator as it runs through a block.
#[derive(Clone, Copy, Default)]
pub struct Lane {
    pub phase: u32,
    pub amplitude: f32,
    pub step: u32,
    pub increment: f32,
}

impl Lane {
    // At the end of a block.
    #[tactic(auto, unfolding(crate::specs::Sample::operator_of))]
    pub fn leave(self) -> Operator
        ensures { result ≡ operator_of self }
    {
        Operator {
            phase: self.phase,
            amplitude: self.amplitude,
        }
    }

    // Its sample at the phase that it moves on to.
    #[tactic(auto, unfolding(crate::specs::Sample::sampled))]
    fn sample(self, pairs: &[f32; 1024], pm: f32) -> f32
        ensures { result ≡ sampled pairs.now self pm }
    {
        sine::sine_pm(pairs, numbers::wrapping_add_u32(self.phase, self.step), pm) * self.amplitude
    }

    // The operator after a sample.
    #[tactic(auto, unfolding(crate::specs::Sample::moved))]
    fn advance(self) -> Self
        ensures { result ≡ moved self }
    {
        Self {
            phase: numbers::wrapping_add_u32(self.phase, self.step),
            amplitude: self.amplitude + self.increment,
            ..self
        }
    }
}

// The last two samples of the feedback's origin, the later one first.
#[derive(Clone, Copy)]
pub struct Feedback {
    pub previous_0: f32,
    pub previous_1: f32,
}

impl Feedback {
    // The modulation that it gives.
    #[tactic(auto, unfolding(crate::specs::Sample::fed))]
    fn feed(self, feedback_scale: f32) -> f32
        ensures { result ≡ fed self feedback_scale }
    {
        (self.previous_0 + self.previous_1) * feedback_scale
    }

    // After a sample of its origin.
    #[tactic(auto, unfolding(crate::specs::Sample::pushed))]
    fn push(self, pm: f32) -> Self
        ensures { result ≡ pushed self pm }
    {
        Self {
            previous_0: pm,
            previous_1: self.previous_0,
        }
    }
}

// A chain of operators, first to last, with the feedback.
#[derive(Clone, Copy)]
pub struct Chain<const N: usize> {
    pub lanes: [Lane; N],
    pub feedback: Feedback,
}

// What an amplitude's way to its target is multiplied by for one of `size` samples.
pub fn ramp_scale(size: u32) -> f32
    ensures { result ≡ ramp_scale size }
{
    1.0 / numbers::u32_as_f32(size)
}

// What the feedback's sum is multiplied by. A patch's amount is at most 7.
pub fn feedback_scale(amount: u8) -> f32
    ensures { result ≡ feedback_scale_of amount }
{
    if amount == 0 {
        return 0.0;
    }
    numbers::u32_as_f32(numbers::wrapping_shl_u32(1, amount as u32)) / 512.0
}

// Added to what stands there, or set.
#[tactic(auto, unfolding(crate::specs::Sample::mixed))]
fn mix(add: bool, there: f32, pm: f32) -> f32
    ensures { result ≡ mixed add there pm }
{
    if add { there + pm } else { pm }
}

// What modulates a chain's first operator, and what becomes of the feedback.
trait Modulation: Copy {
    ghost source: { Self → Source };

    // Whether it has something for sample i.
    ghost reaches: { Self → ℕ → Type 0 };

    // What goes into sample i.
    fn enter(self, i: usize, feedback: Feedback) -> f32
        requires { reaches self i }
        ensures { result ≡ entered (source self) i feedback };

    // The feedback after a sample of the chain.
    fn keep(self, feedback: Feedback, pm: f32) -> Feedback
        ensures { result ≡ kept (source self) feedback pm };
}

// Nothing.
#[derive(Clone, Copy)]
struct Unmodulated;

#[tactic(auto, unfolding(crate::specs::Chain::entered, crate::specs::Chain::kept))]
impl Modulation for Unmodulated {
    ghost source = { λ _. Source.none };

    ghost reaches = { λ _ _. Unit {0} };

    fn enter(self, _i: usize, _feedback: Feedback) -> f32 {
        0.0
    }

    fn keep(self, feedback: Feedback, _pm: f32) -> Feedback {
        feedback
    }
}

// The samples of another buffer.
#[derive(Clone, Copy)]
struct External<'a> {
    samples: &'a [f32],
}

#[tactic(auto, unfolding(crate::specs::Chain::entered, crate::specs::Chain::kept))]
impl Modulation for External<'_> {
    ghost source = { λ m. Source.external m.samples.now };

    ghost reaches = { λ m i. i < length m.samples.now };

    fn enter(self, i: usize, _feedback: Feedback) -> f32 {
        self.samples[i]
    }

    fn keep(self, feedback: Feedback, _pm: f32) -> Feedback {
        feedback
    }
}

// The last two samples of the chain's last operator, scaled.
#[derive(Clone, Copy)]
struct Own {
    feedback_scale: f32,
}

#[tactic(auto, unfolding(crate::specs::Chain::entered, crate::specs::Chain::kept))]
impl Modulation for Own {
    ghost source = { λ m. Source.feedback m.feedback_scale };

    ghost reaches = { λ _ _. Unit {0} };

    fn enter(self, _i: usize, feedback: Feedback) -> f32 {
        feedback.feed(self.feedback_scale)
    }

    fn keep(self, feedback: Feedback, pm: f32) -> Feedback {
        feedback.push(pm)
    }
}

// A chain sample by sample: each operator's sample modulates the next.
fn render<M: Modulation, const N: usize>(
    pairs: &[f32; 1024],
    chain: Chain<N>,
    modulation: M,
    add: bool,
    out: &mut [f32],
) -> Chain<N>
    requires { (i : ℕ) → i < length out.old → M.reaches modulation i }
    ensures { Rendered pairs.now (M.source modulation) add
        (chain_of chain.entry) out.old (chain_of result) out.new }
{
    let mut lanes = chain.lanes;
    let mut feedback = chain.feedback;
    // Stays: what modulates by its index. Under out.iter_mut().zip(..) the proof does not know what is written.
    for (i, o) in out.iter_mut().enumerate() {
        let mut pm = modulation.enter(i, feedback);
        for lane in lanes.iter_mut() {
            pm = lane.sample(pairs, pm);
            *lane = lane.advance();
        }
        feedback = modulation.keep(feedback, pm);
        *o = mix(add, *o, pm);
    }
    Chain { lanes, feedback }
}

// One operator that nothing modulates.
pub fn render_none(pairs: &[f32; 1024], chain: Chain<1>, add: bool, out: &mut [f32]) -> Chain<1>
    ensures { Rendered pairs.now Source.none add
        (chain_of chain) out.old (chain_of result) out.new }
{
    render(pairs, chain, Unmodulated, add, out)
}

// Operators, the first modulated by the last two samples of the last.
pub fn render_feedback<const N: usize>(
    pairs: &[f32; 1024],
    chain: Chain<N>,
    feedback_scale: f32,
    add: bool,
    out: &mut [f32],
) -> Chain<N>
    ensures { Rendered pairs.now (Source.feedback feedback_scale) add
        (chain_of chain.entry) out.old (chain_of result) out.new }
{
    render(pairs, chain, Own { feedback_scale }, add, out)
}

// Whether every modulation lies from -31 to 30 turns.
fn all_near(modulation: &[f32]) -> bool
    ensures { result ≡ all_near modulation.now }
{
    let mut near = true;
    for pm in modulation {
        near &= sine::is_near(*pm);
    }
    near
}

// For speed a block whose modulations are near is rendered in parts of at most 64 samples, each in two loops: the
// phases first, which the compiler does four at a time, then the samples at them.

// The modulated phases of the samples of a part, which starts at sample i.
fn set_phases(modulation: &[f32], i: usize, n: usize, phase: u32, step: u32, at: &mut [u32; 64])
    requires { (all_near modulation.now ≡ true) × (i + n ≤ length modulation.now)
        × (n ≤ 64) × (length at.old ≡ 64) }
    ensures { Placed modulation.now i n phase step at.new
        × (length at.new ≡ 64) }
{
    let mut p = phase;
    for (k, pm) in modulation[i..i + n].iter().enumerate() {
        p = numbers::wrapping_add_u32(p, step);
        at[k] = sine::modulate_near(p, *pm);
    }
}

// The samples from sample i on of a single operator, at their phases.
fn lines(
    pairs: &[f32; 1024],
    operator: Lane,
    add: bool,
    modulation: &[f32],
    i: usize,
    at: &[u32],
    out: &mut [f32],
) -> Lane
    requires { (i + length at.now ≤ length out.old)
        × Placed modulation.now i (length at.now) operator.phase operator.step at.now }
    ensures { (f : Feedback) → Going pairs.now (Source.external modulation.now) add
        i (alone operator f) out.old (i + length at.now) (alone result f) out.new }
{
    let mut lane = operator;
    for (k, phase) in at.iter().enumerate() {
        let pm = sine::line(pairs, *phase) * lane.amplitude;
        lane = lane.advance();
        out[i + k] = mix(add, out[i + k], pm);
    }
    lane
}

// A whole block by parts.
fn near(
    pairs: &[f32; 1024],
    chain: Chain<1>,
    add: bool,
    modulation: &[f32],
    out: &mut [f32],
) -> Chain<1>
    requires { (all_near modulation.now ≡ true) × (length out.old ≤ length modulation.now) }
    ensures { Rendered pairs.now (Source.external modulation.now) add
        (chain_of chain) out.old (chain_of result) out.new }
{
    let [mut lane] = chain.lanes;
    let mut at = [0u32; 64];
    let mut i = 0usize;
    // Stays: parts by a while. Under out.chunks_mut(64) the proof does not know what is written.
    while i < out.len() {
        let n = (out.len() - i).min(64);
        set_phases(modulation, i, n, lane.phase, lane.step, &mut at);
        lane = lines(pairs, lane, add, modulation, i, &at[..n], out);
        i += n;
    }
    Chain {
        lanes: [lane],
        feedback: chain.feedback,
    }
}

// By parts, or sample by sample.
fn either(
    pairs: &[f32; 1024],
    chain: Chain<1>,
    add: bool,
    modulation: &[f32],
    out: &mut [f32],
) -> Chain<1>
    requires { length out.old ≤ length modulation.now }
    ensures { Rendered pairs.now (Source.external modulation.now) add
        (chain_of chain) out.old (chain_of result) out.new }
{
    if all_near(modulation) {
        return near(pairs, chain, add, modulation, out);
    }
    render(
        pairs,
        chain,
        External {
            samples: modulation,
        },
        add,
        out,
    )
}

// One operator, modulated by the samples of another buffer. For speed setting and adding are called apart: the compiler
// then makes a loop of each.
pub fn render_external(
    pairs: &[f32; 1024],
    chain: Chain<1>,
    add: bool,
    modulation: &[f32],
    out: &mut [f32],
) -> Chain<1>
    requires { length out.old ≤ length modulation.now }
    ensures { Rendered pairs.now (Source.external modulation.now) add
        (chain_of chain) out.old (chain_of result) out.new }
{
    if add {
        return either(pairs, chain, true, modulation, out);
    }
    either(pairs, chain, false, modulation, out)
}
