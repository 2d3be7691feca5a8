// Dumps: what every form of them has, a frame, a channel, data and a checksum. Added by us: no Rust file. Each function
// is what specs/Dump says, for sound and damaged dumps alike. A dump is refused for its length, a byte of its frame, a
// data byte above 127 or its checksum, in this order.
#![tactic(auto)]

ghost use Rattle.std.specs.Prelude.{◌≡◌, ◌+◌, ◌%◌, length};
ghost use Rattle.std.specs.List.{zip, list_all};
ghost use Rattle.dump.specs.Dump.{in_row, fixed, yamaha_form, framed, total, largest_of, checksum_of};
ghost use Rattle.dump.specs.Dump.{dump_check, dump_channel};

use refusals::Refusal;

// A byte of a frame: the least and the largest number that may stand there.
// Stays: a RangeInclusive is no Copy, and keeps besides whether it is used up.
#[derive(Clone, Copy)]
pub struct Row {
    pub from: u8,
    pub to: u8,
}

// A form of dump: the rows of the six bytes before the data, how many data bytes there are, and the row of the last
// byte, behind the checksum.
#[derive(Clone, Copy)]
pub struct Form {
    pub header: [Row; 6],
    pub count: usize,
    pub last: Row,
}

impl Row {
    // Whether a byte lies within its row.
    pub fn contains(self, b: u8) -> bool
        ensures { result ≡ in_row self b }
    {
        (self.from..=self.to).contains(&b)
    }
}

// The row of one fixed byte.
fn fixed(b: u8) -> Row
    ensures { result ≡ fixed b }
{
    Row { from: b, to: b }
}

// Yamaha's form: a format's number, and the length of its data, which the header has in two bytes of seven bits. The
// third byte is the channel's, 00 to 0F.
pub fn yamaha_form(format: u8, count: usize) -> Form
    ensures { result ≡ yamaha_form format count }
{
    let channel = Row {
        from: 0x00,
        to: 0x0F,
    };
    let header = [
        fixed(0xF0),
        fixed(0x43),
        channel,
        fixed(format),
        fixed((count / 128 % 128) as u8),
        fixed((count % 128) as u8),
    ];
    Form {
        header,
        count,
        last: fixed(0xF7),
    }
}

// The sum of some bytes, modulo 128, and the largest of them.
#[derive(Clone, Copy)]
pub struct Tallied {
    pub sum: u8,
    pub largest: u8,
}

pub fn tally(s: &[u8]) -> Tallied
    ensures { (result.sum ≡ total s.now % 128) × (result.largest ≡ largest_of s.now) }
{
    let mut sum = 0u8;
    let mut largest = 0u8;
    for b in s {
        sum = (sum + b % 128) % 128;
        largest = largest.max(*b);
    }
    Tallied { sum, largest }
}

// The checksum of data bytes: with it their sum is 0 modulo 128.
pub fn checksum(s: &[u8]) -> u8
    ensures { result ≡ checksum_of s.now }
{
    let t = tally(s);
    (128 - t.sum) % 128
}

// Whether the first bytes lie within their rows, one for each.
fn in_rows(dump: &[u8], rows: [Row; 6]) -> bool
    ensures { result ≡ list_all (λ p. in_row p.0 p.1) (zip rows dump.now) }
{
    rows.iter().zip(dump).all(|(row, b)| row.contains(*b))
}

// Whether every byte of the frame does.
fn framed_right(dump: &[u8], form: Form) -> bool
    requires { length dump.now ≡ 6 + form.count + 2 }
    ensures { result ≡ framed form dump.now }
{
    in_rows(dump, form.header) && form.last.contains(dump[6 + form.count + 1])
}

// Why a dump of a form is refused, if it is.
pub fn check(dump: &[u8], form: Form) -> Result<(), Refusal>
    ensures { result ≡ dump_check form dump.now }
{
    if dump.len() < 8 || dump.len() - 8 != form.count {
        return Err(Refusal::WrongLength);
    }
    if !framed_right(dump, form) {
        return Err(Refusal::FrameByte);
    }
    let end = 6 + form.count;
    let t = tally(&dump[6..end]);
    let c = dump[end];
    let has_high = t.largest > 127;
    if has_high {
        return Err(Refusal::HighByte);
    }
    if c > 127 || (t.sum + c) % 128 != 0 {
        return Err(Refusal::Checksum);
    }
    Ok(())
}

// The channel of a dump of a form.
pub fn channel(dump: &[u8], form: Form) -> Result<u8, Refusal>
    ensures { result ≡ dump_channel form dump.now }
{
    check(dump, form)?;
    let channel = dump[2];
    Ok(channel)
}
