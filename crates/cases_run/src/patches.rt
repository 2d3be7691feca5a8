// Patches and banks: what was given, and the number that came back.
ghost use Rattle.std.specs.Prelude.{◌<◌};

use crate::{heading, line};
use patch::Patch;
use refusals::Refusal;
use std::io;
use streams::Streams;

// A sound dump of zeros.
fn sound_dump() -> [u8; 4104] {
    let mut d = [0u8; 4104];
    d[0] = 0xF0;
    d[1] = 0x43;
    d[3] = 0x09;
    d[4] = 0x20;
    d[4103] = 0xF7;
    d
}

// The number of the sound dump with another byte at a place.
fn with(to: Streams, text: &str, place: usize, b: u8) -> io::Result<()>
    requires { place < 4104 }
{
    let mut d = sound_dump();
    d[place] = b;
    line(to, text, told(bank::validate(&d).err()))
}

// The number of a refusal; 0 for none.
fn told(refusal: Option<Refusal>) -> u64 {
    refusal.map_or(0, |r| r.number() as u64)
}

// 1 for fewer than 128 bytes.
fn unpacked(to: Streams, text: &str, bytes: &[u8]) -> io::Result<()> {
    line(
        to,
        text,
        told(patch::unpack(Patch::new(), bytes).err().map(|r| r.refusal)),
    )
}

fn lengths_of_patches(to: Streams) -> io::Result<()> {
    let long = [0u8; 129];
    unpacked(to, "patch of no bytes: ", &long[..0])?;
    unpacked(to, "patch of 127 bytes: ", &long[..127])?;
    unpacked(to, "patch of 128 bytes: ", &long[..128])?;
    unpacked(to, "patch of 129 bytes: ", &long)
}

fn zeros() -> Patch {
    let bytes = [0u8; 128];
    patch::unpack(Patch::new(), &bytes).unwrap_or(Patch::new())
}

// 6 for a number that is too large.
fn packed(to: Streams, text: &str, transpose: u8, active_operators: u8) -> io::Result<()> {
    let mut p = zeros();
    p.transpose = transpose;
    p.active_operators = active_operators;
    line(to, text, told(patch_packer::pack(p).err()))
}

fn packing(to: Streams) -> io::Result<()> {
    packed(to, "packing zeros: ", 0, 63)?;
    packed(to, "packing transpose 48: ", 48, 63)?;
    packed(to, "packing transpose 49: ", 49, 63)?;
    packed(to, "packing active operators 62: ", 0, 62)
}

fn sensitivity(to: Streams) -> io::Result<()> {
    let mut data = [0u8; 128];
    data[116] = 255;
    let p = patch::unpack(Patch::new(), &data).unwrap_or(Patch::new());
    let m = p.modulations;
    line(
        to,
        "sensitivity of byte 255: ",
        m.pitch_mod_sensitivity as u64,
    )?;
    line(to, "waveform of byte 255: ", m.waveform as u64)?;
    line(
        to,
        "check of that patch: ",
        told(patch_limits::check(p).err()),
    )?;
    line(
        to,
        "modulations fit 15: ",
        patch_limits::modulations_fit(m, 15) as u64,
    )?;
    line(
        to,
        "modulations fit 7: ",
        patch_limits::modulations_fit(m, 7) as u64,
    )
}

fn level(to: Streams) -> io::Result<()> {
    let mut p = zeros();
    let mut o = p.op[0];
    o.level = 100;
    p.op[0] = o;
    line(to, "level 100: ", told(patch_limits::check(p).err()))
}

fn checksums(to: Streams) -> io::Result<()> {
    let zeros = [0u8; 4096];
    let mut data = [0u8; 4096];
    data[0] = 1;
    line(to, "checksum of zeros: ", dump::checksum(&zeros) as u64)?;
    line(to, "checksum of a single 1: ", dump::checksum(&data) as u64)
}

fn lengths(to: Streams) -> io::Result<()> {
    let short = [0u8; 4103];
    let sound = sound_dump();
    let long = [0u8; 4105];
    line(
        to,
        "dump of 4103 bytes: ",
        told(bank::validate(&short).err()),
    )?;
    line(
        to,
        "dump of 4104 bytes: ",
        told(bank::validate(&sound).err()),
    )?;
    line(
        to,
        "dump of 4105 bytes: ",
        told(bank::validate(&long).err()),
    )
}

fn frame(to: Streams) -> io::Result<()> {
    with(to, "frame byte 0 damaged: ", 0, 0xF1)?;
    with(to, "frame byte 1 damaged: ", 1, 0x44)?;
    with(to, "frame byte 2 damaged: ", 2, 0x10)?;
    with(to, "frame byte 3 damaged: ", 3, 0x08)?;
    with(to, "frame byte 4 damaged: ", 4, 0x21)?;
    with(to, "frame byte 5 damaged: ", 5, 0x80)?;
    with(to, "last byte damaged: ", 4103, 0xF6)
}

// The number and the channel of that dump with another third byte and another checksum.
fn opened(to: Streams, number: &str, channel: &str, third: u8, sum: u8) -> io::Result<()> {
    let mut d = sound_dump();
    d[2] = third;
    d[4102] = sum;
    let r = bank::channel(&d);
    line(to, number, told(r.err()))?;
    line(to, channel, r.unwrap_or(0) as u64)
}

fn channels(to: Streams) -> io::Result<()> {
    opened(to, "third byte 00: ", "its channel: ", 0x00, 0)?;
    opened(to, "third byte 03: ", "its channel: ", 0x03, 0)?;
    opened(to, "third byte 0F: ", "its channel: ", 0x0F, 0)?;
    opened(to, "third byte 10: ", "its channel: ", 0x10, 0)?;
    opened(to, "third byte FF: ", "its channel: ", 0xFF, 0)?;
    opened(to, "third byte 03, checksum 1: ", "its channel: ", 0x03, 1)
}

fn contents(to: Streams) -> io::Result<()> {
    with(to, "first data byte 128: ", 6, 128)?;
    with(to, "last data byte 255: ", 4101, 255)?;
    with(to, "data byte 1 unsummed: ", 6, 1)?;
    with(to, "checksum 1: ", 4102, 1)?;
    with(to, "checksum 128: ", 4102, 128)
}

// The length of a part; 0 for one that is refused.
fn length(part: Result<&[u8], Refusal>) -> u64 {
    part.map_or(0, |p| p.len() as u64)
}

fn slots(to: Streams) -> io::Result<()> {
    let sound = sound_dump();
    let short = [0u8; 7];
    line(to, "slot 31: ", told(bank::check(&sound, 31).err()))?;
    line(to, "slot 32: ", told(bank::check(&sound, 32).err()))?;
    line(
        to,
        "slot 32 of a short dump: ",
        told(bank::check(&short, 32).err()),
    )?;
    line(to, "part of slot 31: ", length(bank::read(&sound, 31)))?;
    line(to, "part of slot 32: ", length(bank::read(&sound, 32)))?;
    line(to, "part of a short dump: ", length(bank::part(&short, 0)))
}

fn dumps(to: Streams) -> io::Result<()> {
    checksums(to)?;
    lengths(to)?;
    frame(to)?;
    channels(to)?;
    contents(to)?;
    slots(to)
}

pub fn run(to: Streams) -> io::Result<()> {
    heading(to, "patches and banks")?;
    lengths_of_patches(to)?;
    packing(to)?;
    sensitivity(to)?;
    level(to)?;
    dumps(to)
}
