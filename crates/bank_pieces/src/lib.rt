// A bank that comes in pieces: the reader takes each piece, reports complete patches as their bytes come, and says at
// the end whether the dump was sound. Added by us: no Rust file. Each entry is what specs/Pieces says, for every state,
// every piece and every buffer. Refused with 9 is a reader that has ended, or that no pieces leave so; at the end a
// dump is refused as any dump is.
#![tactic(auto)]

ghost use Rattle.std.specs.Prelude.{◌≡◌, true, false, ◌+◌, ◌-◌, ◌≤◌, ◌<◌, min, length};
ghost use Rattle.bank_pieces.specs.Pieces.{fresh, possible, is_right, frame_with, summed_with, checked_with};
ghost use Rattle.bank_pieces.specs.Pieces.{passed, passed_all, place_in, slot_at, took, take_of, end_of, closing};

use refusals::{Refusal, Refused};

// A reader between two pieces. How many bytes came: the count stops at the largest number. The frame: the third byte
// once it came, or 255 once another byte of the frame was wrong. The sum of the patches reported, modulo 128, and 128
// more once one of their bytes was above 127; behind the checksum what that leaves of it. Whether the end was told.
#[derive(Clone, Copy)]
pub struct Receiver {
    pub count: usize,
    pub frame: u8,
    pub sum: u8,
    pub ended: bool,
}

// What a piece gives: the reader behind it, how many bytes were taken, and the slot of the patch that they end, if they
// end one, which then stands in the lent buffer.
#[derive(Clone, Copy)]
pub struct Taken {
    pub receiver: Receiver,
    pub taken: usize,
    pub complete: Option<u8>,
}

// What the end of a sound dump gives: the reader behind it, and the dump's channel.
#[derive(Clone, Copy)]
pub struct Ended {
    pub receiver: Receiver,
    pub channel: u8,
}

// A reader before the first byte.
#[tactic(auto, unfolding(crate::specs::Pieces::fresh))]
pub fn open() -> Receiver
    ensures { result ≡ fresh }
{
    Receiver {
        count: 0,
        frame: 0,
        sum: 0,
        ended: false,
    }
}

// Whether some pieces leave a reader so, and no end came. Once a patch was complete, all numbers are possible.
#[tactic(auto, unfolding(crate::specs::Pieces::possible))]
fn is_possible(r: Receiver) -> bool
    ensures { result ≡ possible r }
{
    !r.ended
        && (r.count >= 134
            || r.sum == 0 && (r.count >= 3 || r.frame == 0 || r.frame == 255 && r.count > 0))
}

// Whether a byte is right at its place, which outside the frame every byte is.
#[tactic(auto, unfolding(crate::specs::Pieces::is_right))]
fn is_right(place: usize, b: u8) -> bool
    ensures { result ≡ is_right place b }
{
    let form = bank::bank_form();
    match place {
        0..=5 => form.header[place].contains(b),
        4103 => form.last.contains(b),
        _ => true,
    }
}

// What a byte that is no data leaves of the frame.
#[tactic(auto, unfolding(crate::specs::Pieces::frame_with))]
fn frame_with(place: usize, frame: u8, b: u8) -> u8
    ensures { result ≡ frame_with place frame b }
{
    if place == 2 {
        if frame == 255 {
            return 255;
        }
        return b;
    }
    if is_right(place, b) { frame } else { 255 }
}

// The sum with a patch more.
#[tactic(auto, unfolding(crate::specs::Pieces::summed_with))]
fn summed_with(sum: u8, patch: &[u8]) -> u8
    ensures { result ≡ summed_with sum patch.now }
{
    let t = dump::tally(patch);
    let low = (sum % 128 + t.sum) % 128;
    let came_high = sum > 127;
    if came_high || t.largest > 127 {
        return 128 + low;
    }
    low
}

// What the checksum leaves of the sum: 0 if it completes it.
#[tactic(auto, unfolding(crate::specs::Pieces::checked_with))]
fn checked_with(sum: u8, c: u8) -> u8
    ensures { result ≡ checked_with sum c }
{
    let high = sum / 128 * 128;
    if c > 127 {
        return high + 1;
    }
    high + (sum % 128 + c) % 128
}

// A byte that is no data.
#[tactic(auto, unfolding(crate::specs::Pieces::passed))]
fn pass(r: Receiver, b: u8) -> Receiver
    ensures { result ≡ passed r b }
{
    let sum = if r.count == 4102 {
        checked_with(r.sum, b)
    } else {
        r.sum
    };
    Receiver {
        count: r.count.saturating_add(1),
        frame: frame_with(r.count, r.frame, b),
        sum,
        ..r
    }
}

// Bytes that are no data, one after the other.
fn pass_all(receiver: Receiver, bytes: &[u8]) -> Receiver
    ensures { result ≡ passed_all receiver bytes.now }
{
    bytes.iter().fold(receiver, |r, b| pass(r, *b))
}

// The bytes of a piece that goes on with the data, up to the end of the patch at hand. A patch that comes whole is
// summed in the piece itself: the buffer, just written, would make the processor wait.
fn take_data(r: Receiver, piece: &[u8], patch: &mut [u8; 128]) -> Taken
    requires { (6 ≤ r.count) × (r.count < 4102) }
    ensures { record { taken = result; patch = patch.new }
        ≡ took r piece.now patch.old }
{
    let filled = (r.count - 6) % 128;
    let room = 128 - filled;
    if piece.len() < room {
        lent_bytes::put(patch, filled, piece);
        return Taken {
            receiver: Receiver {
                count: r.count + piece.len(),
                ..r
            },
            taken: piece.len(),
            complete: None,
        };
    }
    lent_bytes::put(patch, filled, &piece[..room]);
    let sum = if filled == 0 {
        summed_with(r.sum, &piece[..room])
    } else {
        summed_with(r.sum, patch)
    };
    Taken {
        receiver: Receiver {
            count: r.count + room,
            sum,
            ..r
        },
        taken: room,
        complete: Some(((r.count - 6) / 128) as u8),
    }
}

// The bytes behind the data: the checksum, the last byte, and what is too much, which is only counted.
fn pass_rest(r: Receiver, piece: &[u8]) -> Receiver
    requires { 4102 ≤ r.count }
    ensures { result ≡ passed_all r piece.now }
{
    let n = 4104usize.saturating_sub(r.count).min(piece.len());
    let q = pass_all(r, &piece[..n]);
    Receiver {
        count: q.count.saturating_add(piece.len() - n),
        ..q
    }
}

// A piece that begins within the first bytes of the frame.
fn take_first(r: Receiver, piece: &[u8], patch: &mut [u8; 128]) -> Taken
    requires { r.count < 6 }
    ensures { record { taken = result; patch = patch.new }
        ≡ took r piece.now patch.old }
{
    let n = (6 - r.count).min(piece.len());
    let q = pass_all(r, &piece[..n]);
    if n == piece.len() {
        return Taken {
            receiver: q,
            taken: n,
            complete: None,
        };
    }
    let t = take_data(q, &piece[n..], patch);
    Taken {
        taken: n + t.taken,
        ..t
    }
}

// Takes a piece up to the end of the patch at hand, whose bytes stand in the lent buffer, which is handed in again
// with the next piece. What was not taken is given again.
pub fn take(
    receiver: Receiver,
    piece: &[u8],
    patch: &mut [u8; 128],
) -> Result<Taken, Refused<Receiver>>
    ensures { record { answer = result; patch = patch.new }
        ≡ take_of receiver piece.now patch.old }
{
    if !is_possible(receiver) {
        return Err(Refused {
            refusal: Refusal::ForeignState,
            state: receiver,
        });
    }
    if receiver.count < 6 {
        return Ok(take_first(receiver, piece, patch));
    }
    if receiver.count < 4102 {
        return Ok(take_data(receiver, piece, patch));
    }
    Ok(Taken {
        receiver: pass_rest(receiver, piece),
        taken: piece.len(),
        complete: None,
    })
}

// Why the dump that came is refused, if it is.
#[tactic(auto, unfolding(crate::specs::Pieces::closing))]
fn closing(r: Receiver) -> Result<(), Refusal>
    ensures { result ≡ closing r }
{
    let is_short = r.count != 4104;
    if is_short {
        return Err(Refusal::WrongLength);
    }
    if r.frame > 15 {
        return Err(Refusal::FrameByte);
    }
    if r.sum > 127 {
        return Err(Refusal::HighByte);
    }
    if r.sum != 0 {
        return Err(Refusal::Checksum);
    }
    Ok(())
}

// Ends the reader, whether the dump was sound or not.
#[tactic(auto, unfolding(crate::specs::Pieces::end_of))]
pub fn end(receiver: Receiver) -> Result<Ended, Refused<Receiver>>
    ensures { result ≡ end_of receiver }
{
    if !is_possible(receiver) {
        return Err(Refused {
            refusal: Refusal::ForeignState,
            state: receiver,
        });
    }
    let state = Receiver {
        ended: true,
        ..receiver
    };
    match closing(receiver) {
        Ok(()) => Ok(Ended {
            receiver: state,
            channel: receiver.frame,
        }),
        Err(refusal) => Err(Refused { refusal, state }),
    }
}
