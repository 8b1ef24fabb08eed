// Of neighbours with one id the first stays.
ghost use Rattle.std.specs.Prelude.{◌≡◌, not, ◌+◌, ◌*◌, ◌-◌, ◌≤◌, ◌<◌, length, take, drop};
ghost use Rattle.rules.specs.Ids.{same};
ghost use Rattle.rules.specs.Records.{id_of};
ghost use Rattle.table.specs.Edit.{Moved};
ghost use Rattle.settle.specs.Once.{Kept};

// Whether the ids at `p` and at `q` are the same.
fn same_ids(table: &[u8], p: usize, q: usize) -> bool
    requires { (p + 32 ≤ length table.now) × (q + 32 ≤ length table.now) }
    ensures { result ≡ same (take 32 (drop p table.now)) (take 32 (drop q table.now)) }
{
    ids::compare(table, p, table, q).is_eq()
}

// One turn of `drop_repeats`: record `i` becomes record `k` if its id is another than that of record `k - 1`, and the answer is the next `k`.
fn keep_other(table: &mut [u8], size: usize, k: usize, i: usize) -> usize
    requires { (32 ≤ size) × ((0 < k) × ((k ≤ i) × (i * size + size ≤ length table.old))) }
    ensures { Moved (λ b. not (same (take 32 (drop ((k - 1) * size) table.old)) (id_of b))) size k i table.old table.new result }
{
    let repeated = same_ids(table, (k - 1) * size, i * size);
    table::keep_record(table, size, k, i, !repeated)
}

// The answer is how many stay.
pub(crate) fn drop_repeats(table: &mut [u8], size: usize, used: usize) -> usize
    requires { (32 ≤ size) × (used * size ≤ length table.old) }
    ensures { Kept size used table.old table.new result }
{
    if used == 0 {
        return 0;
    }
    let mut k = 1;
    for i in 1..used {
        k = keep_other(table, size, k, i);
    }
    k
}
