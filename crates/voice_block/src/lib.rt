// The calls of a plan over one block, after the last loop of voice.rs's render: each call renders one to three
// operators into a buffer, modulated by nothing, by another buffer or by feedback. The four buffers are the quarters of
// one slice, the output first and then scratch 1 to 3. `run_plan` promises all four quarters, the operators and the
// feedback after the calls (`ran`).
#![tactic(auto)]

ghost use Rattle.std.specs.Prelude.{◌≡◌, ◌+◌, ◌*◌, ◌/◌, ◌%◌, ◌≤◌, ◌<◌, length, take};
ghost use Rattle.operator.specs.Chain.{chain_of};
ghost use Rattle.voice_block.specs.Quarters.{Quartered};
ghost use Rattle.voice_block.specs.Calls.{Callable, Playable, chain_at, settled, desk, called, called_up_to};
ghost use Rattle.voice_block.specs.Calls.{setting_of, ran};

use algorithms::{Call, Plan};
use operator::{Chain, Feedback, Lane, Operator};

// What a block leaves behind: the operators and the feedback.
#[derive(Clone, Copy)]
pub struct Operators {
    pub operator: [Operator; 6],
    pub feedback_state: Feedback,
}

// What a block lends to each of its calls: the sine's values and differences, each operator's step and the amplitude
// that it goes to, the samples, and what an amplitude's way to its target and the feedback's sum are multiplied by.
#[derive(Clone, Copy)]
struct Lent<'a> {
    pairs: &'a [f32; 1024],
    steps: &'a [u32; 6],
    targets: &'a [f32; 6],
    samples: usize,
    ramp: f32,
    feedback_scale: f32,
}

// Where a quarter starts.
fn start(quarter: u8, samples: usize) -> usize
    requires { (quarter < 4) × (samples ≤ 1024) }
    ensures { (result ≡ quarter * samples) × (result + samples ≤ 4 * samples) }
{
    (quarter as usize) * samples
}

// A quarter to be read, copied aside: the block is lent to be written. Stays: a loop, for what `lent_bytes::put` says.
fn copy_aside(quarter: &[f32], aside: &mut [f32])
    requires { length quarter.now ≤ length aside.old }
    ensures { take (length quarter.now) aside.new ≡ quarter.now }
{
    for i in 0..quarter.len() {
        aside[i] = quarter[i];
    }
}

impl Operators {
    // N operators from `first` on, as they enter the block.
    fn take_out<const N: usize>(&self, lent: &Lent, first: usize) -> Chain<N>
        requires { first + N ≤ 6 }
        ensures { chain_of result ≡ chain_at (setting_of lent.now) self.now first N }
    {
        let mut lanes = [Lane::default(); N];
        for (k, lane) in lanes.iter_mut().enumerate() {
            let at = first + k;
            *lane = self.operator[at].enter(lent.steps[at], lent.targets[at], lent.ramp);
        }
        Chain {
            lanes,
            feedback: self.feedback_state,
        }
    }

    // And as they leave it.
    fn put_back<const N: usize>(&mut self, first: usize, chain: Chain<N>)
        requires { first + N ≤ 6 }
        ensures { self.new ≡ settled self.old first (chain_of chain.entry) }
    {
        for (k, lane) in chain.lanes.iter().enumerate() {
            self.operator[first + k] = lane.leave();
        }
        self.feedback_state = chain.feedback;
    }

    // A call with feedback: the last two samples of its last operator modulate its first.
    fn run_fed<const N: usize>(&mut self, lent: &Lent, call: Call, block: &mut [f32])
        requires { Callable call × Quartered lent.now.samples block.old × (call.input ≡ 3) × (call.n ≡ N) }
        ensures { desk lent.now.samples self.new block.new
            ≡ called lent.now.pairs.now (setting_of lent.now) call (desk lent.now.samples self.old block.old) }
    {
        let first = call.first as usize;
        let from = start(call.output, lent.samples);
        let chain: Chain<N> = self.take_out(lent, first);
        let left = operator::render_feedback(
            lent.pairs,
            chain,
            lent.feedback_scale,
            call.add,
            &mut block[from..from + lent.samples],
        );
        self.put_back(first, left);
    }

    // A call of one operator that nothing modulates.
    fn run_none(&mut self, lent: &Lent, call: Call, block: &mut [f32])
        requires { Callable call × Quartered lent.now.samples block.old × (call.input ≡ 0) × (call.n ≡ 1) }
        ensures { desk lent.now.samples self.new block.new
            ≡ called lent.now.pairs.now (setting_of lent.now) call (desk lent.now.samples self.old block.old) }
    {
        let first = call.first as usize;
        let from = start(call.output, lent.samples);
        let chain = self.take_out(lent, first);
        let left = operator::render_none(
            lent.pairs,
            chain,
            call.add,
            &mut block[from..from + lent.samples],
        );
        self.put_back(first, left);
    }

    // A call of one operator that the quarter which it reads modulates.
    fn run_external(&mut self, lent: &Lent, call: Call, aside: &mut [f32], block: &mut [f32])
        requires { Callable call × Quartered lent.now.samples block.old × (call.n ≡ 1)
            × (1 ≤ call.input) × (call.input < 3) × (lent.now.samples ≤ length aside.old) }
        ensures { desk lent.now.samples self.new block.new
            ≡ called lent.now.pairs.now (setting_of lent.now) call (desk lent.now.samples self.old block.old) }
    {
        let samples = lent.samples;
        let first = call.first as usize;
        let from = start(call.output, samples);
        let read = start(call.input, samples);
        copy_aside(&block[read..read + samples], aside);
        let chain = self.take_out(lent, first);
        let left = operator::render_external(
            lent.pairs,
            chain,
            call.add,
            &aside[..samples],
            &mut block[from..from + samples],
        );
        self.put_back(first, left);
    }

    // A call: its operators are taken out, rendered and put back.
    fn run_call(&mut self, lent: &Lent, call: Call, aside: &mut [f32], block: &mut [f32])
        requires { Callable call × Quartered lent.now.samples block.old × (lent.now.samples ≤ length aside.old) }
        ensures { desk lent.now.samples self.new block.new
            ≡ called lent.now.pairs.now (setting_of lent.now) call (desk lent.now.samples self.old block.old) }
    {
        // Stays: a call's numbers, which come from outside as any bytes. An enum would be made and matched here alone.
        match (call.n, call.input) {
            (1, 0) => self.run_none(lent, call, block),
            (1, 3) => self.run_fed::<1>(lent, call, block),
            (1, _) => self.run_external(lent, call, aside, block),
            (2, _) => self.run_fed::<2>(lent, call, block),
            _ => self.run_fed::<3>(lent, call, block),
        }
    }

    // The calls of a plan, in order.
    fn run_calls(&mut self, lent: &Lent, plan: Plan, aside: &mut [f32], block: &mut [f32])
        requires { Playable plan × Quartered lent.now.samples block.old × (lent.now.samples ≤ length aside.old) }
        ensures { desk lent.now.samples self.new block.new
            ≡ called_up_to lent.now.pairs.now (setting_of lent.now) plan.calls plan.count
            (desk lent.now.samples self.old block.old) }
    {
        for call in &plan.calls[..plan.count as usize] {
            self.run_call(lent, *call, aside, block);
        }
    }
}

// A plan's block. For speed a short block gets less room aside for a quarter: clearing more than it needs would cost it
// time.
pub fn run_plan(
    pairs: &[f32; 1024],
    plan: Plan,
    state: Operators,
    steps: [u32; 6],
    targets: [f32; 6],
    amount: u8,
    block: &mut [f32],
) -> Operators
    requires { Playable plan × (length block.old ≤ 4096) × (length block.old % 4 ≡ 0) }
    ensures { record { operators = result; block = block.new }
        ≡ ran pairs.now plan steps targets amount state block.old }
{
    let samples = block.len() / 4;
    let lent = Lent {
        pairs,
        steps: &steps,
        targets: &targets,
        samples,
        ramp: operator::ramp_scale(samples as u32),
        feedback_scale: operator::feedback_scale(amount),
    };
    let mut operators = state;
    if samples <= 64 {
        operators.run_calls(&lent, plan, &mut [0.0; 64], block);
        return operators;
    }
    operators.run_calls(&lent, plan, &mut [0.0; 1024], block);
    operators
}
