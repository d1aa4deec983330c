// Numbers as little-endian bytes, written and read.
#![tactic(auto)]

ghost use Rattle.std.specs.Prelude.{◌≡◌, [], ◌∷◌, ◌+◌, ◌<◌, ◌≤◌, length};
ghost use Rattle.std.proofs.lemmas.List.Edits.{sets};
ghost use Rattle.ground.specs.Put.{Put};
ghost use Rattle.little.specs.Little.{le, pair_at};

// The number in the two bytes from `at` on.
pub fn pair_at(s: &[u8], at: usize) -> usize
    requires { at + 1 < length s.now }
    ensures { result ≡ pair_at s.now at }
{
    usize::from(u16::from_le_bytes([s[at], s[at + 1]]))
}

// Two bytes; the next place comes back.
pub fn put_pair(out: &mut [u8], at: usize, a: u8, b: u8) -> usize
    requires { at + 2 ≤ length out.old }
    ensures { Put out.old out.new at (a ∷ b ∷ []) result }
{
    out[at..at + 2].copy_from_slice(&[a, b]);
    at + 2
}

// A number in two bytes; the next place comes back.
pub fn put_two(out: &mut [u8], at: usize, x: u16) -> usize
    requires { at + 2 ≤ length out.old }
    ensures { Put out.old out.new at (le 2 x) result }
{
    out[at..at + 2].copy_from_slice(&x.to_le_bytes());
    at + 2
}

// A number in eight bytes.
pub fn put_eight(out: &mut [u8], at: usize, w: u64)
    requires { at + 8 ≤ length out.old }
    ensures { out.new ≡ sets out.old at (le 8 w) }
{
    out[at..at + 8].copy_from_slice(&w.to_le_bytes());
}
