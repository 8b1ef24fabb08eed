// The passes that keep some records of a table, by one of their fields.
ghost use Rattle.std.specs.Prelude.{◌≡◌, ℕ, ◌+◌, ◌*◌, ◌-◌, ◌^◌, ◌<◌, ◌≤◌, Bool, leb, length};
ghost use Rattle.rules.specs.Lists.{keep};
ghost use Rattle.rules.specs.Counts.{columns};
ghost use Rattle.rules.specs.Records.{records, laid};
ghost use Rattle.rules.specs.Board.{pending_size, confirmed_size, confirmed_of};
ghost use Rattle.expiry.specs.Fields.{passing, waiting};

use kinds::{CONFIRMED_SIZE, HEIGHT_AT, Height, MAX_CONF_TARGET, THROUGH_AT};

// Keeps the records whose field at byte `off` passes the test, in order, and zeroes the places that are left. Few go, so those between two of them move as one. The
// answer is how many stay.
fn keep_passing<F: Fn(u32) -> bool>(
    table: &mut [u8],
    size: usize,
    used: usize,
    off: usize,
    test: F,
) -> usize
    ghost passes: { ℕ → Bool }
    requires off_in_size { (off + 4 ≤ size) × (used * size ≤ length table.old) }
    requires callable { F.IsAlwaysCallable test }
    requires told { (v : ℕ) (r : Bool) → v < 2 ^ 32 → F.post test v r → r ≡ passes v }
    ensures value { result ≡ length (keep (passing off passes) (records size used table.old)) }
    ensures table_after { table.new ≡ laid size used (keep (passing off passes) (records size used table.old)) table.old }
{
    let mut k = 0;
    let mut from = 0;
    for i in 0..used {
        if !test(mem::u32_le(table, i * size + off)) {
            k = table::keep_run(table, size, k, from, i);
            from = i + 1;
        }
    }
    k = table::keep_run(table, size, k, from, used);
    mem::zero(table, k * size, used * size);
    k
}

// Drops the pending records that are resolved through the last column. The answer is how many stay.
pub(crate) fn drop_resolved(table: &mut [u8], size: usize, used: usize) -> usize
    requires { (pending_size ≤ size) × (used * size ≤ length table.old) }
    ensures value { result ≡ length (keep waiting (records size used table.old)) }
    ensures table_after { table.new ≡ laid size used (keep waiting (records size used table.old)) table.old }
{
    let last = MAX_CONF_TARGET as u32;
    keep_passing(table, size, used, THROUGH_AT, |through| through < last)
}

// Drops the confirmed records with h minus height above the last column; heights above h stay. The answer is how many stay.
pub fn prune_confirmed(table: &mut [u8], used: usize, h: Height) -> usize
    requires { used * confirmed_size ≤ length table.old }
    ensures value { result ≡ length (keep (λ b. leb (h.0 - (confirmed_of b).height) columns) (records confirmed_size used table.old)) }
    ensures table_after { table.new ≡ laid confirmed_size used (keep (λ b. leb (h.0 - (confirmed_of b).height) columns) (records confirmed_size used table.old)) table.old }
{
    let least = h.0.saturating_sub(MAX_CONF_TARGET as u32);
    keep_passing(table, CONFIRMED_SIZE, used, HEIGHT_AT, |height| {
        least <= height
    })
}
