// Records put where their ids stand already.
ghost use Rattle.std.specs.Prelude.{◌≡◌, true, map, ◌*◌, ◌≤◌, length};
ghost use Rattle.rules.specs.Lists.{any, every};
ghost use Rattle.rules.specs.Ids.{same, rising, placed};
ghost use Rattle.rules.specs.Records.{records, id_of, laid};
ghost use Rattle.format.specs.File.{settled};

// `rec` in the place of the record of its id.
fn renew(table: &mut [u8], size: usize, used: usize, rec: &[u8])
    requires le_size { (32 ≤ size) × (used * size ≤ length table.old) }
    requires rec_len { length rec.now ≡ size }
    requires table_value { rising (map id_of (records size used table.old)) ≡ true }
    requires table_value_2 { any (λ r. same (id_of r) (id_of rec.now)) (records size used table.old) ≡ true }
    ensures { table.new ≡ laid size used (placed id_of rec.now (records size used table.old)) table.old }
{
    if let Ok(i) = ids::find(table, size, used, ids::id_at(rec, 0)) {
        mem::put_bytes(table, i * size, rec);
    }
}

// The first `n` records of `src`, one after the other.
pub(crate) fn renew_all(table: &mut [u8], src: &[u8], size: usize, used: usize, n: usize)
    requires le_size { (32 ≤ size) × (used * size ≤ length table.old) }
    requires size_in_bounds { n * size ≤ length src.now }
    requires table_value { rising (map id_of (records size used table.old)) ≡ true }
    requires src_value { every (λ q. any (λ r. same (id_of r) (id_of q)) (records size used table.old)) (records size n src.now) ≡ true }
    ensures { table.new ≡ laid size used (settled id_of (records size used table.old) (records size n src.now)) table.old }
{
    for i in 0..n {
        let from = i * size;
        renew(table, size, used, &src[from..from + size]);
    }
}
