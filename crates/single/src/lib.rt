// Single-voice dumps: read, written, and turned into packed patches and back. Added by us: no Rust file. Each entry is
// what specs/Single says, for accepted and refused input alike. Numbers given back: 1 fewer than 128 packed bytes, 6 a
// field above its largest number, a pitch sensitivity above 7 or a channel above 15, 10 wrong length, 11 wrong frame
// byte, 12 data byte above 127, 13 wrong checksum.
#![tactic(auto)]

ghost use Rattle.std.specs.Prelude.{◌≡◌, ◌<◌, length};
ghost use Rattle.dump.specs.Dump.{data_of};
ghost use Rattle.dump_writer.specs.Written.{written_of};
ghost use Rattle.single.specs.Single.{single_form, data_bytes, patch_in, single_fits, parsed_of, read_of};
ghost use Rattle.single.specs.Single.{write_of, from_packed_of, to_packed_of, turned_place, turned};

use dump::Form;
use patch::{Patch, largest};
use refusals::{Refusal, Refused};

pub const DUMP_SIZE: usize = 163;

// What reading gives.
#[derive(Clone, Copy)]
pub struct Parsed {
    pub channel: u8,
    pub patch: Patch,
}

// What a dump's packed form is: the dump's channel and the packed bytes.
#[derive(Clone, Copy)]
pub struct Repacked {
    pub channel: u8,
    pub bytes: [u8; 128],
}

// The form of a single-voice dump.
pub fn single_form() -> Form
    ensures { result ≡ single_form }
{
    dump::yamaha_form(0x00, 155)
}

// Detune stands last among an operator's 21 bytes in a dump, and in layout order behind rate scaling, six places
// before: the last seven turn by one place into a dump's order, and by six back. The place that the number at place i
// is taken from.
fn turned_place(by: usize, i: usize) -> usize
    requires { (by < 7) × (i < 155) }
    ensures { (result ≡ turned_place by i) × (result < 155) }
{
    let within = i % 21;
    if i >= 126 {
        return i;
    }
    if within < 14 {
        return i;
    }
    i - within + 14 + (within - 14 + by) % 7
}

// 155 numbers, each operator's last seven turned.
fn turned(by: usize, s: &[u8]) -> [u8; 155]
    requires { (by < 7) × (length s.now ≡ 155) }
    ensures { result ≡ turned by s.now }
{
    let mut out = [0u8; 155];
    for (i, number) in out.iter_mut().enumerate() {
        *number = s[turned_place(by, i)];
    }
    out
}

// Whether 6 accepts a patch here.
fn fits(p: Patch) -> bool
    ensures { result ≡ single_fits p }
{
    let m = p.modulations;
    patch_limits::patch_fits(p) & (m.pitch_mod_sensitivity <= largest::LFO_SENSITIVITY)
}

// The patch of the data in a dump of the right length.
fn patch_in(dump: &[u8]) -> Patch
    requires { length dump.now ≡ 163 }
    ensures { result ≡ patch_in (data_of single_form dump.now) }
{
    let numbers = turned(6, &dump[6..161]);
    patch_numbers::patch_of(&numbers)
}

// The patch in a dump, and its channel.
fn parse(dump: &[u8]) -> Result<Parsed, Refusal>
    ensures { result ≡ parsed_of dump.now }
{
    let channel = dump::channel(dump, single_form())?;
    let patch = patch_in(dump);
    if !fits(patch) {
        return Err(Refusal::Field);
    }
    Ok(Parsed { channel, patch })
}

// The same; refused, with the patch that was handed in.
pub fn read(patch: Patch, dump: &[u8]) -> Result<Parsed, Refused<Patch>>
    ensures { result ≡ read_of patch dump.now }
{
    match parse(dump) {
        Ok(parsed) => Ok(parsed),
        Err(refusal) => Err(Refused {
            refusal,
            state: patch,
        }),
    }
}

// The dump of a patch on a channel.
fn write_whole(p: Patch, channel: u8) -> [u8; 163]
    ensures { result ≡ written_of single_form channel (data_bytes p) }
{
    let numbers = patch_numbers::numbers(p);
    let bytes = turned(1, &numbers);
    let mut out = [0u8; 163];
    dump_writer::write(&mut out, single_form(), channel, &bytes);
    out
}

// A patch as a dump on a channel.
pub fn write(patch: Patch, channel: u8) -> Result<[u8; 163], Refusal>
    ensures { result ≡ write_of patch channel }
{
    if fits(patch) & (channel <= 15) {
        Ok(write_whole(patch, channel))
    } else {
        Err(Refusal::Field)
    }
}

// A packed patch as a dump on a channel.
pub fn from_packed(packed: &[u8], channel: u8) -> Result<[u8; 163], Refusal>
    ensures { result ≡ from_packed_of packed.now channel }
{
    let patch = patch::unpack(Patch::new(), packed)?;
    write(patch, channel)
}

// The packed form of the patch in a dump, and the dump's channel.
pub fn to_packed(dump: &[u8]) -> Result<Repacked, Refusal>
    ensures { result ≡ to_packed_of dump.now }
{
    let read = parse(dump)?;
    let bytes = patch_packer::pack(read.patch)?;
    Ok(Repacked {
        channel: read.channel,
        bytes,
    })
}
