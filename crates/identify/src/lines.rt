// The lines of a patch, a dump and a refusal, each led by the file's name if there is one. An error is that of a line
// which could not be written.
ghost use Rattle.std.specs.Prelude.{◌≡◌, length};

use patch::Patch;
use refusals::Refusal;
use std::io;
use streams::{Columns, Streams};

// The line of a slot's patch.
fn print_patch(to: Streams, name: &[u8], slot: usize, patch: Patch) -> io::Result<()> {
    let letters = patch.name;
    let columns = Columns {
        slot,
        name: letters,
    };
    match identity::identify(patch) {
        Ok(identifier) => {
            streams::print_line(to, name, format_args!("{columns}{identifier:016x}"))
        }
        Err(refusal) => {
            streams::tell_line(to, name, format_args!("{columns}{refusal}"));
            Ok(())
        }
    }
}

// The line of a packed patch.
fn print_packed(to: Streams, name: &[u8], slot: usize, bytes: &[u8]) -> io::Result<()> {
    match patch::unpack(Patch::new(), bytes) {
        Ok(patch) => print_patch(to, name, slot, patch),
        Err(refused) => {
            streams::tell_line(to, name, refused.refusal);
            Ok(())
        }
    }
}

fn print_bank(to: Streams, name: &[u8], dump: &[u8]) -> io::Result<()>
    requires { length dump.now ≡ 4104 }
{
    for slot in 0..32 {
        print_packed(to, name, slot, bank::slot_part(dump, slot))?;
    }
    Ok(())
}

// Bytes of a file that begin no dump: the place of the first, and how many there are.
pub fn tell_stray(to: Streams, name: &[u8], place: u64, count: u64) {
    streams::tell_line(
        to,
        name,
        format_args!("no dump begins at byte {place}, bytes passed over: {count}"),
    );
}

// The lines of a dump that begins at a place, which is validated once.
pub fn print_dump(to: Streams, name: &[u8], dump: &[u8], place: u64) -> io::Result<()> {
    match bank::validate(dump) {
        Ok(()) => print_bank(to, name, dump),
        Err(refusal) => {
            streams::tell_refusal_at(to, name, refusal, place);
            Ok(())
        }
    }
}

// The line of a single-voice dump that begins at a place.
pub fn print_single(to: Streams, name: &[u8], dump: &[u8], place: u64) -> io::Result<()> {
    match single::read(Patch::new(), dump) {
        Ok(read) => print_patch(to, name, 0, read.patch),
        Err(refused) => {
            streams::tell_refusal_at(to, name, refused.refusal, place);
            Ok(())
        }
    }
}

// The lines of one patch or one dump.
pub fn print_whole(to: Streams, name: &[u8], bytes: &[u8]) -> io::Result<()> {
    match bytes.len() {
        patch::SYX_SIZE => print_packed(to, name, 0, bytes),
        single::DUMP_SIZE => print_single(to, name, bytes, 0),
        size if size < patch::SYX_SIZE => {
            streams::tell_line(to, name, Refusal::ShortPatch);
            Ok(())
        }
        _ => print_dump(to, name, bytes, 0),
    }
}
