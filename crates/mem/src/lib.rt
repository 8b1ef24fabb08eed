// Bytes of a lent slice: numbers in little-endian bytes, read and put; numbers in big-endian bytes, read; bytes moved, zeroed, and copied in.
#![tactic(auto)]

mod moves;

ghost use Rattle.std.specs.Prelude.{◌≡◌, ◌+◌, ◌≤◌, length};
ghost use Rattle.std.proofs.lemmas.List.Edits.{sets};
ghost use Rattle.mem.specs.Be.{be_at};
ghost use Rattle.mem.specs.Le.{le_at};
ghost use Rattle.rules.specs.Bytes.{bytes};

pub use moves::{put_bytes, shift_down, shift_up, zero};

// The four bytes of s from `at` on, as a number.
pub fn u32_le(s: &[u8], at: usize) -> u32
    requires { at + 4 ≤ length s.now }
    ensures { result ≡ le_at 4 s.now at }
{
    u32::from_le_bytes([s[at], s[at + 1], s[at + 2], s[at + 3]])
}

// The four bytes of s from `at` on, as a number with the first byte the highest: such numbers have the order of the bytes.
pub fn u32_be(s: &[u8], at: usize) -> u32
    requires { at + 4 ≤ length s.now }
    ensures { result ≡ be_at 4 s.now at }
{
    u32::from_be_bytes([s[at], s[at + 1], s[at + 2], s[at + 3]])
}

// The four bytes of v are put into s from `at` on.
pub fn put_u32(s: &mut [u8], at: usize, v: u32)
    requires { at + 4 ≤ length s.old }
    ensures { s.new ≡ sets s.old at (bytes 4 v) }
{
    s[at..at + 4].copy_from_slice(&v.to_le_bytes());
}
