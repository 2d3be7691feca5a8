// The judge's entries 58 to 5f and 74 to 77 (hex, docs/ORACLE.md): the crate `envelope`. The envelope is the
// register's. On the wire it is its stage in four bytes and eleven floats.
#![tactic(auto)]

use envelope::Rendered;
use envelope_inner::{Envelope, Position};
use judge_wire::{Answer, Fields};
use refusals::{Refusal, Refused};

// The length of a call of the entry; 0 for no entry of this crate.
pub fn length(entry: u8) -> usize {
    match entry {
        0x58 => 49,
        0x59 => 5,
        0x5a | 0x5d => 10,
        0x5b => 9,
        0x5c => 15,
        0x5e => 14,
        0x74 => 33,
        0x75 => 2,
        _ => 0,
    }
}

// Writes what the call answers.
pub fn answer(entry: u8, fields: &mut Fields<'_>, kept: &mut Envelope, out: &mut Answer<'_>) {
    match entry {
        0x58 => {
            *kept = read_envelope(fields);
            put_envelope(out, kept);
        }
        0x59 => {
            *kept = envelope::init(fields.float());
            put_envelope(out, kept);
        }
        0x5a | 0x5b | 0x74 => {
            *kept = out.told(prepared(entry, fields, *kept));
            put_envelope(out, kept);
        }
        0x5c => render(fields, kept, out),
        _ => {
            let value = out.value(valued(entry, fields, *kept), 0.0);
            out.float(value);
        }
    }
}

fn prepared(
    entry: u8,
    fields: &mut Fields<'_>,
    envelope: Envelope,
) -> Result<Envelope, Refused<Envelope>> {
    match entry {
        0x74 => envelope::set(envelope, fields.floats(), fields.floats()),
        0x5a => envelope::operator_set(envelope, fields.bytes(), fields.bytes(), fields.byte()),
        _ => envelope::pitch_set(envelope, fields.bytes(), fields.bytes()),
    }
}

fn render(fields: &mut Fields<'_>, kept: &mut Envelope, out: &mut Answer<'_>) {
    let refused = |e: Refused<Envelope>| Refused {
        refusal: e.refusal,
        state: Rendered {
            envelope: e.state,
            value: 0.0,
        },
    };
    let done = out.told(rendered(fields, *kept).map_err(refused));
    *kept = done.envelope;
    out.float(done.value);
    put_envelope(out, kept);
}

fn rendered(fields: &mut Fields<'_>, envelope: Envelope) -> Result<Rendered, Refused<Envelope>> {
    let reshape = fields.flag();
    let gate = fields.flag();
    let rate = fields.float();
    let ad_scale = fields.float();
    let release_scale = fields.float();
    envelope::render(envelope, gate, rate, ad_scale, release_scale, reshape)
}

fn valued(entry: u8, fields: &mut Fields<'_>, envelope: Envelope) -> Result<f32, Refusal> {
    let reshape = fields.flag();
    match entry {
        0x75 => envelope::current_value(envelope, reshape),
        0x5d => envelope::render_at_sample(envelope, reshape, fields.float(), fields.float()),
        _ => {
            let q = Position {
                stage: fields.word() as usize,
                phase: fields.float(),
                start: fields.float(),
            };
            envelope::value(envelope, reshape, q)
        }
    }
}

pub fn read_envelope(fields: &mut Fields<'_>) -> Envelope {
    Envelope {
        stage: fields.word() as usize,
        phase: fields.float(),
        start: fields.float(),
        increment: fields.floats(),
        level: fields.floats(),
        scale: fields.float(),
    }
}

pub fn put_envelope(out: &mut Answer<'_>, e: &Envelope) {
    out.word((e.stage % 0x1_0000_0000) as u32);
    out.floats(&[e.phase, e.start]);
    out.floats(&e.increment);
    out.floats(&e.level);
    out.float(e.scale);
}
