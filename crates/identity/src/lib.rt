// A patch's identifier: three notes of the patch are played and every sample's bits go into one hash. Added by us: no
// Rust file. Two patches that sound alike in these notes have one identifier, and a patch has the same one wherever and
// whenever it is asked for: the generator's number is set at each note. A patch that a voice or an LFO refuses gets
// that refusal.
#![tactic(auto)]

ghost use Rattle.std.specs.Prelude.{◌≡◌, take};
ghost use Rattle.identity.specs.Hash.{hashed_byte, hashed_word, hashed_samples};
ghost use Rattle.identity.specs.Identity.{readied, built_in, parameters_of, set_up_for, block_played, blocks_played};
ghost use Rattle.identity.specs.Identity.{note_played, notes_played, identity_of};

use lfo::{Lfo, Motion};
use patch::Patch;
use refusals::Refusal;
use voice::Voice;
use voice_render::VoiceParameters;

const HASH_BASIS: u64 = 0xcbf2_9ce4_8422_2325;

// What each note starts from.
#[derive(Clone, Copy)]
pub struct Ready {
    pub voice: Voice,
    pub lfo: Lfo,
}

// What is carried from block to block.
#[derive(Clone, Copy)]
pub struct Playing {
    pub voice: Voice,
    pub motion: Motion,
    pub hash: u64,
}

// The tables that notes are played with: the LFO reads the sine's, the voice its pairs and the pitch ratios.
#[derive(Drop)]
pub struct Tables {
    pub lut: [f32; 641],
    pub pairs: [f32; 1024],
    pub high: [f32; 256],
    pub low: [f32; 256],
}

impl Tables {
    fn built_in() -> Tables
        ensures { result ≡ built_in }
    {
        Tables {
            lut: sine::lut_sine(),
            pairs: sine::sine_pairs(),
            high: units::lut_pitch_ratio_high(),
            low: units::lut_pitch_ratio_low(),
        }
    }
}

#[tactic(auto, unfolding(crate::specs::Hash::hashed_byte))]
fn hash_byte(h: u64, b: u8) -> u64
    ensures { result ≡ hashed_byte h b }
{
    (h ^ b as u64).wrapping_mul(0x100_0000_01b3)
}

#[tactic(auto, unfolding(crate::specs::Hash::hashed_word))]
fn hash_word(h: u64, w: u32) -> u64
    ensures { result ≡ hashed_word h w }
{
    w.to_le_bytes().iter().fold(h, |h, b| hash_byte(h, *b))
}

#[tactic(auto, unfolding(crate::specs::Hash::hashed_samples))]
fn hash_samples(h: u64, samples: &[f32]) -> u64
    ensures { result ≡ hashed_samples h samples.now }
{
    samples
        .iter()
        .fold(h, |h, x| hash_word(h, numbers::f32_to_bits(*x)))
}

// The output is the block's first quarter.
fn hash_output(h: u64, block: &[f32; 256]) -> u64
    ensures { result ≡ hashed_samples h (take 64 block.now) }
{
    hash_samples(h, &block[..64])
}

fn prepare(patch: Patch) -> Result<Ready, Refusal>
    ensures { result ≡ readied patch }
{
    let made = voice::init(6, 48000.0)?;
    let voice = voice::set_patch(made, patch, &algorithms_opcodes::opcodes_6_32())?;
    let started = lfo::init(48000.0)?;
    let set = lfo::set(started, patch.modulations)?;
    let lfo = lfo::reset(set)?;
    Ok(Ready { voice, lfo })
}

fn parameters(note: f32, gate: bool, pitch_mod: f32, amp_mod: f32) -> VoiceParameters
    ensures { result ≡ parameters_of note gate pitch_mod amp_mod }
{
    VoiceParameters {
        sustain: false,
        gate,
        note,
        velocity: 0.8,
        brightness: 0.5,
        envelope_control: 0.5,
        pitch_mod,
        amp_mod,
    }
}

// One block. The scratch quarters are cleared with the output: nothing that is heard depends on them.
fn play_block(tables: &Tables, note: f32, gate: bool, s: Playing) -> Result<Playing, Refusal>
    ensures { result ≡ block_played tables.now note gate s }
{
    let motion = lfo::step_with(&tables.lut, s.motion, 64.0)?;
    let pitch_mod = lfo::pitch_mod(motion.lfo)?;
    let amp_mod = lfo::amp_mod(motion.lfo)?;
    let p = parameters(note, gate, pitch_mod, amp_mod);
    let mut block = [0.0f32; 256];
    let rendered = voice_render::render_with(
        &tables.pairs,
        &tables.high,
        &tables.low,
        s.voice,
        p,
        &mut block,
    )?;
    Ok(Playing {
        voice: rendered.voice,
        motion,
        hash: hash_output(s.hash, &block),
    })
}

fn play_blocks(
    tables: &Tables,
    note: f32,
    gate: bool,
    n: u32,
    s: Playing,
) -> Result<Playing, Refusal>
    ensures { result ≡ blocks_played tables.now note gate n s }
{
    let mut now = s;
    for _ in 0..n {
        now = play_block(tables, note, gate, now)?;
    }
    Ok(now)
}

// The voice after the blank block that sets it up.
fn set_up(tables: &Tables, v: Voice, note: f32) -> Result<Voice, Refusal>
    ensures { result ≡ set_up_for tables.now v note }
{
    let p = parameters(note, false, 0.0, 0.0);
    let mut block = [0.0f32; 256];
    let rendered = voice_render::render_with(
        &tables.pairs,
        &tables.high,
        &tables.low,
        v,
        p,
        &mut block,
    )?;
    Ok(rendered.voice)
}

// A note from the beginning, and the hash after it.
#[tactic(auto, unfolding(crate::specs::Identity::note_played))]
fn play_note(tables: &Tables, r: Ready, note: f32, hash: u64) -> Result<u64, Refusal>
    ensures { result ≡ note_played tables.now r note hash }
{
    let voice = set_up(tables, r.voice, note)?;
    let motion = Motion {
        lfo: r.lfo,
        state: 0x21,
    };
    let s = Playing {
        voice,
        motion,
        hash,
    };
    let held = play_blocks(tables, note, true, 128, s)?;
    let released = play_blocks(tables, note, false, 64, held)?;
    Ok(released.hash)
}

fn play_notes(tables: &Tables, r: Ready) -> Result<u64, Refusal>
    ensures { result ≡ notes_played tables.now r }
{
    let h36 = play_note(tables, r, 36.0, HASH_BASIS)?;
    let h60 = play_note(tables, r, 60.0, h36)?;
    play_note(tables, r, 84.0, h60)
}

// A patch's identifier.
#[tactic(auto, unfolding(crate::specs::Identity::identity_of))]
pub fn identify(patch: Patch) -> Result<u64, Refusal>
    ensures { result ≡ identity_of patch }
{
    let ready = prepare(patch)?;
    play_notes(&Tables::built_in(), ready)
}
