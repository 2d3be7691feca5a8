// How a file is cut into messages: the one place that knows where a message begins and ends.
const BEGIN: u8 = 0xF0;

const END: u8 = 0xF7;

// What begins at a byte: a dump of 32 patches, one of a single voice, a message that is neither, or no message.
#[derive(Clone, Copy, Debug, PartialEq, Eq)]
pub enum Found {
    Bank,
    Single,
    Message,
    Nothing,
}

// Whether the byte that ends a message of this size stands in its place.
fn ends(bytes: &[u8], size: usize) -> bool {
    bytes.get(size.wrapping_sub(1)) == Some(&END)
}

// What the first of some bytes begins. They reach to the file's end, or hold a whole dump. Bytes that could end both
// kinds are of a single voice where the fourth, the format's number, is 0.
pub fn beginning(bytes: &[u8]) -> Found {
    if bytes.first() != Some(&BEGIN) {
        return Found::Nothing;
    }
    let as_bank = ends(bytes, bank::DUMP_SIZE);
    let as_single = ends(bytes, single::DUMP_SIZE);
    if as_single && (!as_bank || bytes.get(3) == Some(&0)) {
        return Found::Single;
    }
    if as_bank { Found::Bank } else { Found::Message }
}

// Where a message that began before some bytes is over: behind its last byte, or before the next message. None where it
// goes on behind them.
pub fn message_end(bytes: &[u8]) -> Option<usize> {
    let end = bytes.iter().position(|b| (*b == BEGIN) | (*b == END))?;
    if bytes[end] == END {
        return Some(end + 1);
    }
    Some(end)
}

// Where bytes that begin no message are over: before the next message.
pub fn stray_end(bytes: &[u8]) -> Option<usize> {
    bytes.iter().position(|b| *b == BEGIN)
}
