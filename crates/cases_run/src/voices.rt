// Voices: what was given, and what came back.
use crate::{heading, line};
use dx_units_step::Mark;
use patch::Patch;
use refusals::Refused;
use std::io;
use streams::{Line, Streams};
use voice::Voice;
use voice_render::{Rendered, VoiceParameters};

fn parameters(note: f32) -> VoiceParameters {
    VoiceParameters {
        sustain: false,
        gate: true,
        note: note,
        velocity: 0.8,
        brightness: 0.5,
        envelope_control: 0.5,
        pitch_mod: 0.0,
        amp_mod: 0.0,
    }
}

// The voice that a caller goes on with.
fn after(done: Result<Voice, Refused<Voice>>) -> Voice {
    done.unwrap_or_else(|e| e.state)
}

// A block's answer without its marks.
fn left(done: Result<Rendered, Refused<Voice>>) -> Result<Voice, Refused<Voice>> {
    done.map(|r| r.voice)
}

// The number of an answer: 0 for one that is no refusal.
fn number_of<T: Copy>(done: Result<T, Refused<Voice>>) -> u64 {
    match done {
        Ok(_) => 0,
        Err(e) => u64::from(e.refusal.number()),
    }
}

// A voice of six operators that has a packed patch.
fn loaded(packed: &[u8]) -> Voice {
    let table = algorithms_opcodes::opcodes_6_32();
    let p = patch::unpack(Patch::new(), packed).unwrap_or(Patch::new());
    let fresh = after(voice::init(6, 48000.0));
    after(voice::set_patch(fresh, p, &table))
}

// One with the patch of zeros.
fn dirty() -> Voice {
    let zeros = [0u8; 128];
    loaded(&zeros)
}

// One whose every second operator has 31 times the note's frequency, the others half of it; its pitch envelope stands
// at 50, which is none.
fn high() -> Voice {
    let mut packed = [0u8; 128];
    packed[15] = 62;
    packed[49] = 62;
    packed[83] = 62;
    packed[106] = 50;
    packed[107] = 50;
    packed[108] = 50;
    packed[109] = 50;
    loaded(&packed)
}

fn started(to: Streams, text: &str, operators: usize, sample_rate: f32) -> io::Result<()> {
    line(to, text, number_of(voice::init(operators, sample_rate)))
}

fn starts(to: Streams) -> io::Result<()> {
    started(to, "six operators at 48000: ", 6, 48000.0)?;
    started(to, "five operators at 7999: ", 5, 7999.0)?;
    started(to, "six operators at 7999: ", 6, 7999.0)
}

// The easy slip: a blank block does not record the gate.
fn gates(to: Streams) -> io::Result<()> {
    let mut block = [0.0f32; 8];
    let v = after(left(voice_render::render(dirty(), parameters(60.0), &mut block)));
    let w = after(left(voice_render::render(v, parameters(60.0), &mut block)));
    line(to, "gate after a blank block: ", v.gate as u64)?;
    line(to, "gate after a sounding block: ", w.gate as u64)
}

fn rendered(to: Streams, text: &str, note: f32, block: &mut [f32]) -> io::Result<()> {
    line(
        to,
        text,
        number_of(voice_render::render(dirty(), parameters(note), block)),
    )
}

fn blocks(to: Streams) -> io::Result<()> {
    let mut two = [0.0f32; 2];
    let mut five = [0.0f32; 5];
    let mut most = [0.0f32; 4096];
    let mut more = [0.0f32; 4100];
    rendered(to, "block of no numbers: ", 60.0, &mut two[..0])?;
    rendered(to, "block of 5 numbers: ", 60.0, &mut five)?;
    rendered(to, "block of 4096 numbers: ", 60.0, &mut most)?;
    rendered(to, "block of 4100 numbers: ", 60.0, &mut more)
}

// A mark's digit: 0 as asked, 1 held at the top, 2 held at zero.
fn digit(mark: Mark) -> char {
    match mark {
        Mark::AsAsked => '0',
        Mark::HeldAtTop => '1',
        Mark::HeldAtZero => '2',
    }
}

fn marked(to: Streams, text: &str, done: Result<Rendered, Refused<Voice>>) -> io::Result<()> {
    let mut line = Line::led_by(b"");
    line.put(text);
    for mark in voice_render::marks_told(&done) {
        line.put(digit(mark));
    }
    line.print(to)
}

// At note 100 and 48,000 Hz 31 times the frequency is above half the sample rate.
fn marks(to: Streams) -> io::Result<()> {
    let mut block = [0.0f32; 8];
    let blank = voice_render::render(high(), parameters(100.0), &mut block);
    let v = after(left(blank));
    marked(to, "marks of a blank block: ", blank)?;
    let sounding = voice_render::render(v, parameters(100.0), &mut block);
    marked(to, "marks of a sounding block: ", sounding)?;
    let refused = voice_render::render(v, parameters(128.0), &mut block);
    marked(to, "marks of a refused block: ", refused)?;
    let empty = voice_render::render(v, parameters(100.0), &mut block[..0]);
    marked(to, "marks of an empty block: ", empty)
}

// A voice whose patch has a transpose, its switch on or off.
fn transposing(transpose: u8, on: bool) -> Voice {
    let mut packed = [0u8; 128];
    packed[117] = transpose;
    after(voice::set_transposing(loaded(&packed), on))
}

// The note that a voice has after a blank block and a sounding one.
fn played(to: Streams, text: &str, v: Voice, note: f32) -> io::Result<()> {
    let mut block = [0.0f32; 8];
    let w = after(left(voice_render::render(v, parameters(note), &mut block)));
    let x = after(left(voice_render::render(w, parameters(note), &mut block)));
    line(to, text, numbers::f32_as_u32(x.note) as u64)
}

// The number of a blank block.
fn asked(to: Streams, text: &str, v: Voice, note: f32) -> io::Result<()> {
    let mut block = [0.0f32; 8];
    line(
        to,
        text,
        number_of(voice_render::render(v, parameters(note), &mut block)),
    )
}

// The shifted note at the ends of its range, and one step beyond each.
fn transposes(to: Streams) -> io::Result<()> {
    let low = transposing(0, true);
    let high = transposing(48, true);
    let none = after(voice::take_patch(high));
    played(
        to,
        "transpose 36, switch off, note 60 plays: ",
        transposing(36, false),
        60.0,
    )?;
    played(
        to,
        "transpose 36, switch on, note 60 plays: ",
        transposing(36, true),
        60.0,
    )?;
    asked(to, "transpose 0, switch on, note 24: ", low, 24.0)?;
    asked(
        to,
        "transpose 0, switch on, note 23.999998: ",
        low,
        23.999998,
    )?;
    asked(to, "transpose 48, switch on, note 103: ", high, 103.0)?;
    asked(
        to,
        "transpose 48, switch on, note 103.00001: ",
        high,
        103.00001,
    )?;
    asked(to, "no patch, switch on, note 103.00001: ", none, 103.00001)
}

fn taken_out(to: Streams, text: &str, v: Voice) -> io::Result<()> {
    line(to, text, number_of(voice::take_patch(v)))
}

fn refusals(to: Streams) -> io::Result<()> {
    let mut block = [0.0f32; 8];
    let v = dirty();
    let mut clean = v;
    clean.has_patch = false;
    clean.dirty = false;
    rendered(to, "note 128: ", 128.0, &mut block)?;
    taken_out(to, "taking the patch out: ", v)?;
    taken_out(to, "clean without a patch: ", clean)
}

pub fn run(to: Streams) -> io::Result<()> {
    heading(to, "voices")?;
    starts(to)?;
    gates(to)?;
    blocks(to)?;
    marks(to)?;
    transposes(to)?;
    refusals(to)
}
