// The registry's old fault, shown gone: two workers that played different patches before give the same
// sample-and-hold sequence. A worker plays its own LFO for a while, and then the patch that is to be
// identified, with the generator's number 21 (hex); the draws are printed by their bits.
use crate::heading;
use lfo::Motion;
use patch::ModulationParameters;
use refusals::Refusal;
use std::io;
use streams::{Line, Streams};

// The number that every identification starts from.
const START: u32 = 0x21;

// Set to a rate and a wave, at 48,000 Hz.
fn ready(rate: u8, waveform: u8, state: u32) -> Result<Motion, Refusal> {
    let modulations = ModulationParameters {
        delay: 0,
        rate,
        pitch_mod_depth: 50,
        amp_mod_depth: 50,
        reset_phase: 1,
        waveform,
        pitch_mod_sensitivity: 3,
    };
    let set = lfo::set(lfo::init(48000.0)?, modulations)?;
    Ok(Motion {
        lfo: lfo::reset(set)?,
        state,
    })
}

// Some blocks of 64 samples.
fn played(from: Motion, blocks: u32) -> Result<Motion, Refusal> {
    let mut now = from;
    for _ in 0..blocks {
        now = lfo::step(now, 64.0)?;
    }
    Ok(now)
}

// What a worker played before, the number that its generator had then, and four draws of the patch that is to be
// identified, the fastest sample and hold, sixteen blocks apart.
fn put_worker(
    line: &mut Line,
    name: &str,
    rate: u8,
    waveform: u8,
    blocks: u32,
) -> Result<(), Refusal> {
    let before = played(ready(rate, waveform, START)?, blocks)?;
    let number = before.state;
    line.put(format_args!("{name}{number:08x}, draws"));
    let mut now = ready(99, 5, START)?;
    for _ in 0..4 {
        now = played(now, 16)?;
        let draw = numbers::f32_to_bits(now.lfo.value);
        line.put(format_args!(" {draw:08x}"));
    }
    Ok(())
}

// Its line; nothing that it plays is refused, and a refusal would be the line.
fn worker(to: Streams, name: &str, rate: u8, waveform: u8, blocks: u32) -> io::Result<()> {
    let mut line = Line::led_by(b"");
    if let Err(refusal) = put_worker(&mut line, name, rate, waveform, blocks) {
        line.put(refusal);
    }
    line.print(to)
}

pub fn run(to: Streams) -> io::Result<()> {
    heading(to, "LFOs")?;
    worker(to, "worker 1 played a triangle, number ", 40, 0, 100)?;
    worker(to, "worker 2 played a sample and hold, number ", 90, 5, 777)
}
