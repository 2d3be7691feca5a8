// Bytes in a lent slice: a run of them put at a place, and a number in two of them, least first. Added by us: no Rust
// file. Helpers: each asks that the place lies within the slice, and answers what specs/TwoBytes says.
#![tactic(auto)]

ghost use Rattle.std.specs.Prelude.{◌≡◌, ◌+◌, ◌≤◌, length};
ghost use Rattle.std.proofs.Math.Seq.{paste};
ghost use Rattle.lent_bytes.specs.TwoBytes.{number_at, with_number};

// The bytes of `b` from index `at` on.
pub fn put(out: &mut [u8], at: usize, b: &[u8])
    requires { at + length b.now ≤ length out.old }
    ensures { out.new ≡ paste out.old at b.now (length b.now) }
{
    // Stays: a loop. `copy_from_slice` makes an archive for C ask for `memmove`, which it did not need.
    for (i, byte) in b.iter().enumerate() {
        out[at + i] = *byte;
    }
}

// The number at a place.
pub fn read_number(s: &[u8], at: usize) -> u16
    requires { at + 2 ≤ length s.now }
    ensures { result ≡ number_at s.now at }
{
    u16::from_le_bytes([s[at], s[at + 1]])
}

// A number put at a place.
pub fn write_number(s: &mut [u8], at: usize, number: u16)
    requires { at + 2 ≤ length s.old }
    ensures { s.new ≡ with_number s.old at number }
{
    s[at..at + 2].copy_from_slice(&number.to_le_bytes());
}
