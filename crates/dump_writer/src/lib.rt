// The writer of dumps, of every form: the frame and the checksum around some data. Added by us: no Rust file. Helpers:
// a caller has data and a buffer of the form's lengths; what they answer is in specs/Written.
#![tactic(auto)]

ghost use Rattle.std.specs.Prelude.{◌≡◌, ◌+◌, length};
ghost use Rattle.dump_writer.specs.Written.{header_of, written_of};

use dump::Form;

// The six bytes before the data, on a channel.
fn header(form: Form, channel: u8) -> [u8; 6]
    ensures { result ≡ header_of form channel }
{
    let [first, maker, _, format, high, low] = form.header;
    [
        first.from,
        maker.from,
        channel,
        format.from,
        high.from,
        low.from,
    ]
}

// A form's dump over a lent buffer of its size, on a channel.
pub fn write(out: &mut [u8], form: Form, channel: u8, data: &[u8])
    requires { (length «data».now ≡ form.count) × (length out.old ≡ 6 + form.count + 2) }
    ensures { out.new ≡ written_of form channel «data».now }
{
    let head = header(form, channel);
    let tail = [dump::checksum(data), form.last.from];
    lent_bytes::put(out, 0, &head);
    lent_bytes::put(out, 6, data);
    lent_bytes::put(out, 6 + form.count, &tail);
}
