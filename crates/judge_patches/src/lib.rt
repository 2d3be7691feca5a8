// The judge's entries 20 to 23 and 29 (hex, docs/ORACLE.md): the crates `patch`, `patch_limits` and `patch_packer`. The
// patch is the register's. On the wire a patch is its 156 fields in the struct's order.
#![tactic(auto)]

use judge_wire::{Answer, Fields};
use patch::{Envelope, KeyboardScaling, ModulationParameters, Operator, Patch};

// The length of the call whose fields these are, its entry's byte included; 0 for no entry of this crate.
pub fn length(entry: u8, mut fields: Fields<'_>) -> usize {
    match entry {
        0x20 => 157,
        0x22 | 0x23 => 1,
        0x21 => 3 + fields.half() as usize,
        0x29 => 9,
        _ => 0,
    }
}

// Writes what the call answers.
pub fn answer(entry: u8, fields: &mut Fields<'_>, patch: &mut Patch, out: &mut Answer<'_>) {
    match entry {
        0x20 => {
            *patch = read_patch(fields);
            put_patch(out, patch);
        }
        0x21 => unpack(fields.slice(), patch, out),
        0x22 => pack(*patch, out),
        0x23 => out.value(patch_limits::check(*patch), ()),
        _ => {
            let modulations = read_modulations(fields);
            out.flag(patch_limits::modulations_fit(modulations, fields.byte()));
        }
    }
}

fn unpack(packed: &[u8], patch: &mut Patch, out: &mut Answer<'_>) {
    *patch = out.told(patch::unpack(*patch, packed));
    put_patch(out, patch);
}

fn pack(patch: Patch, out: &mut Answer<'_>) {
    let bytes = out.value(patch_packer::pack(patch), [0; 128]);
    out.bytes(&bytes);
}

pub fn read_patch(fields: &mut Fields<'_>) -> Patch {
    let mut patch = Patch::new();
    for o in patch.op.iter_mut() {
        *o = read_operator(fields);
    }
    patch.pitch_envelope = read_envelope(fields);
    patch.algorithm = fields.byte();
    patch.feedback = fields.byte();
    patch.reset_phase = fields.byte();
    patch.modulations = read_modulations(fields);
    patch.transpose = fields.byte();
    patch.name = fields.bytes();
    patch.active_operators = fields.byte();
    patch
}

fn read_operator(fields: &mut Fields<'_>) -> Operator {
    Operator {
        envelope: read_envelope(fields),
        keyboard_scaling: read_scaling(fields),
        rate_scaling: fields.byte(),
        amp_mod_sensitivity: fields.byte(),
        velocity_sensitivity: fields.byte(),
        level: fields.byte(),
        mode: fields.byte(),
        coarse: fields.byte(),
        fine: fields.byte(),
        detune: fields.byte(),
    }
}

pub fn read_scaling(fields: &mut Fields<'_>) -> KeyboardScaling {
    KeyboardScaling {
        left_depth: fields.byte(),
        right_depth: fields.byte(),
        left_curve: fields.byte(),
        right_curve: fields.byte(),
        break_point: fields.byte(),
    }
}

fn read_envelope(fields: &mut Fields<'_>) -> Envelope {
    Envelope {
        rate: fields.bytes(),
        level: fields.bytes(),
    }
}

pub fn read_modulations(fields: &mut Fields<'_>) -> ModulationParameters {
    ModulationParameters {
        delay: fields.byte(),
        rate: fields.byte(),
        pitch_mod_depth: fields.byte(),
        amp_mod_depth: fields.byte(),
        reset_phase: fields.byte(),
        waveform: fields.byte(),
        pitch_mod_sensitivity: fields.byte(),
    }
}

pub fn put_patch(out: &mut Answer<'_>, p: &Patch) {
    for o in &p.op {
        put_operator(out, o);
    }
    put_envelope(out, &p.pitch_envelope);
    out.bytes(&[p.algorithm, p.feedback, p.reset_phase]);
    put_modulations(out, &p.modulations);
    out.byte(p.transpose);
    out.bytes(&p.name);
    out.byte(p.active_operators);
}

fn put_operator(out: &mut Answer<'_>, o: &Operator) {
    let k = &o.keyboard_scaling;
    put_envelope(out, &o.envelope);
    out.bytes(&[
        k.left_depth,
        k.right_depth,
        k.left_curve,
        k.right_curve,
        k.break_point,
    ]);
    out.bytes(&[
        o.rate_scaling,
        o.amp_mod_sensitivity,
        o.velocity_sensitivity,
        o.level,
    ]);
    out.bytes(&[o.mode, o.coarse, o.fine, o.detune]);
}

fn put_envelope(out: &mut Answer<'_>, e: &Envelope) {
    out.bytes(&e.rate);
    out.bytes(&e.level);
}

fn put_modulations(out: &mut Answer<'_>, m: &ModulationParameters) {
    out.bytes(&[m.delay, m.rate, m.pitch_mod_depth, m.amp_mod_depth]);
    out.bytes(&[m.reset_phase, m.waveform, m.pitch_mod_sensitivity]);
}
