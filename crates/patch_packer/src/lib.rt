// The packer: a patch to its 128 packed bytes. Added to what patch.rs has. What packing means is derived in
// specs/Packing from the one table of `patch`'s specs/Layout. Number given back: 6 for a patch that
// `patch_limits::check` refuses.
#![tactic(auto)]

ghost use Rattle.std.specs.Prelude.{◌≡◌, true};
ghost use Rattle.patch.specs.Packed.{operator_fits, patch_fits};
ghost use Rattle.patch_packer.specs.Packing.{operator_bytes, shared_bytes, packed, pack_of};

use patch::{Operator, Patch};
use refusals::Refusal;

// The 17 bytes of an operator that fits, as a table in layout order: its numbers as they are, each lies within its
// field's bits.
// Stays: a table, a byte a line; copying the arrays into it would need a place for each part, and is no plainer.
fn operator_bytes(o: Operator) -> [u8; 17]
    requires { operator_fits o ≡ true }
    ensures { result ≡ operator_bytes o }
{
    let e = o.envelope;
    let rate = e.rate;
    let level = e.level;
    let k = o.keyboard_scaling;
    [
        // Bytes 0 to 7.
        rate[0],
        rate[1],
        rate[2],
        rate[3],
        level[0],
        level[1],
        level[2],
        level[3],
        // Bytes 8 to 16.
        k.break_point,
        k.left_depth,
        k.right_depth,
        k.left_curve + k.right_curve * 4,
        o.rate_scaling + o.detune * 8,
        o.amp_mod_sensitivity + o.velocity_sensitivity * 4,
        o.level,
        o.mode + o.coarse * 2,
        o.fine,
    ]
}

// The 26 bytes behind the operators, of a patch that fits, as such a table.
// Stays: as an operator's.
fn shared_bytes(p: Patch) -> [u8; 26]
    requires { patch_fits p ≡ true }
    ensures { result ≡ shared_bytes p }
{
    let e = p.pitch_envelope;
    let rate = e.rate;
    let level = e.level;
    let m = p.modulations;
    let name = p.name;
    [
        // Bytes 102 to 109, of the pitch.
        rate[0],
        rate[1],
        rate[2],
        rate[3],
        level[0],
        level[1],
        level[2],
        level[3],
        // Bytes 110 to 117.
        p.algorithm,
        p.feedback + p.reset_phase * 8,
        m.rate,
        m.delay,
        m.pitch_mod_depth,
        m.amp_mod_depth,
        m.reset_phase + m.waveform * 2 + m.pitch_mod_sensitivity * 16,
        p.transpose,
        // Bytes 118 to 127.
        name[0],
        name[1],
        name[2],
        name[3],
        name[4],
        name[5],
        name[6],
        name[7],
        name[8],
        name[9],
    ]
}

fn pack_whole(p: Patch) -> [u8; 128]
    requires { patch_fits p ≡ true }
    ensures { result ≡ packed p }
{
    let mut out = [0u8; 128];
    for (k, o) in p.op.iter().enumerate() {
        lent_bytes::put(&mut out, 17 * k, &operator_bytes(*o));
    }
    lent_bytes::put(&mut out, 102, &shared_bytes(p));
    out
}

// The 128 bytes of a patch, unused bits clear; 6 for a patch that does not fit. What fits needs no masks.
pub fn pack(patch: Patch) -> Result<[u8; 128], Refusal>
    ensures { result ≡ pack_of patch }
{
    patch_limits::check(patch)?;
    Ok(pack_whole(patch))
}
