// Bytes moved within a slice, zeroed, and copied in.
ghost use Rattle.std.specs.Prelude.{◌≡◌, ◌+◌, ◌≤◌, length};
ghost use Rattle.std.proofs.lemmas.List.Edits.{sets};
ghost use Rattle.mem.specs.Moves.{shifted_up, shifted_down, zeroed};

// Moves the bytes from `from` to `to` up by `by`.
pub fn shift_up(a: &mut [u8], from: usize, to: usize, by: usize)
    requires { (from ≤ to) × (to + by ≤ length a.old) }
    ensures { a.new ≡ shifted_up from to by a.old }
{
    // `copy_within` misses the bar of speed: it asks at each call which way to go.
    for i in (from..to).rev() {
        a[i + by] = a[i];
    }
}

// Moves `n` bytes from `from + by` on down by `by`.
pub fn shift_down(a: &mut [u8], from: usize, by: usize, n: usize)
    requires { from + by + n ≤ length a.old }
    ensures { a.new ≡ shifted_down from by n a.old }
{
    // So here: a record's move grew from 8 instructions to 19.
    for i in 0..n {
        a[from + i] = a[from + by + i];
    }
}

// Zeroes the bytes from `from` to `to`.
pub fn zero(a: &mut [u8], from: usize, to: usize)
    requires { (from ≤ to) × (to ≤ length a.old) }
    ensures { a.new ≡ zeroed from to a.old }
{
    a[from..to].fill(0);
}

// Copies `src` into `a` from `at` on.
pub fn put_bytes(a: &mut [u8], at: usize, src: &[u8])
    requires { at + length src.now ≤ length a.old }
    ensures { a.new ≡ sets a.old at src.now }
{
    a[at..at + src.len()].copy_from_slice(src);
}
