// Decay: every count times the factor, once for each height. A bucket's counts are taken out once, multiplied for all the heights, and stored once. A row, the
// counts of one kind of one bucket, that holds only zeros is not written: the factor is above zero, so that each of them would be stored as it stands.
#![tactic(auto)]

ghost use Rattle.std.specs.Prelude.{◌≡◌, cond, ◌++◌, map, ◌≤◌, length, take, drop};
ghost use Rattle.rules.specs.Counts.{columns, places_of_counts, apply_decay};
ghost use Rattle.floats.specs.Factor.{Factor};
ghost use Rattle.bucket.specs.Holds.{Holds, BothHold};
ghost use Rattle.lists.specs.Part.{part_put};
ghost use Rattle.decay.specs.Decay.{often, row_decayed};

use bucket::{Bucket, both_in_use, bucket_in, bucket_out, row_in, row_is_empty};
use kinds::{BUCKET_COUNT, Blocks, MAX_CONF_TARGET};

// Puts a row back into the slice of one kind, unless the row that stands there is empty: then nothing is stored.
fn put_back(counts: &mut [f64], b: usize, row: [f64; MAX_CONF_TARGET], empty: bool)
    requires { Holds counts.old b }
    ensures { counts.new ≡ cond empty counts.old (part_put columns b row counts.old) }
{
    if !empty {
        row_in(counts, b, row);
    }
}

// One row times the factor.
fn decay_row(row: &mut [f64; MAX_CONF_TARGET], factor: f64)
    ensures { row.new ≡ apply_decay factor row.old }
{
    for count in row {
        *count *= factor;
    }
}

// One row times the factor, `times` times.
fn row_decayed(row: [f64; MAX_CONF_TARGET], factor: f64, times: u32) -> [f64; MAX_CONF_TARGET]
    ensures { result ≡ map (often times factor) row }
{
    let mut y = row;
    for _ in 0..times {
        decay_row(&mut y, factor);
    }
    y
}

// Both kinds of counts of one bucket, times the factor, `times` times.
fn decayed(x: Bucket, factor: f64, times: u32) -> Bucket
    ensures { (result.confirmed ≡ map (often times factor) x.confirmed) × (result.resolved ≡ map (often times factor) x.resolved) }
{
    let c = x.confirmed;
    let r = x.resolved;
    let confirmed = row_decayed(c, factor, times);
    let resolved = row_decayed(r, factor, times);
    Bucket {
        confirmed,
        resolved,
    }
}

// Multiplies the counts of bucket b by the factor, `times` times, and stores only the rows that are not empty.
fn decay_rows(confirmed: &mut [f64], resolved: &mut [f64], b: usize, factor: f64, times: u32)
    requires held { BothHold confirmed.old resolved.old b }
    requires factor { Factor factor }
    ensures confirmed_after { confirmed.new ≡ row_decayed b factor times confirmed.old }
    ensures resolved_after { resolved.new ≡ row_decayed b factor times resolved.old }
{
    let no_confirmed = row_is_empty(confirmed, b);
    let no_resolved = row_is_empty(resolved, b);
    if no_confirmed & no_resolved {
        return;
    }
    let y = decayed(bucket_out(confirmed, resolved, b), factor, times);
    let c = y.confirmed;
    let r = y.resolved;
    put_back(confirmed, b, c, no_confirmed);
    put_back(resolved, b, r, no_resolved);
}

// Multiplies the counts of bucket b by the factor, `times` times: the whole bucket where both rows are seen to be in use, else row by row.
fn decay_bucket(confirmed: &mut [f64], resolved: &mut [f64], b: usize, factor: f64, times: u32)
    requires held { BothHold confirmed.old resolved.old b }
    requires factor { Factor factor }
    ensures confirmed_after { confirmed.new ≡ row_decayed b factor times confirmed.old }
    ensures resolved_after { resolved.new ≡ row_decayed b factor times resolved.old }
{
    if both_in_use(confirmed, resolved, b) {
        let x = bucket_out(confirmed, resolved, b);
        bucket_in(confirmed, resolved, b, decayed(x, factor, times));
        return;
    }
    decay_rows(confirmed, resolved, b, factor, times);
}

// Multiplies every count of both slices by the factor, once for each of the heights.
pub fn apply_decay(confirmed: &mut [f64], resolved: &mut [f64], factor: f64, heights: Blocks)
    requires places_of_counts_in_bounds { (places_of_counts ≤ length confirmed.old) × (places_of_counts ≤ length resolved.old) }
    requires factor { Factor factor }
    ensures confirmed_after { confirmed.new ≡ map (often heights.0 factor) (take places_of_counts confirmed.old) ++ drop places_of_counts confirmed.old }
    ensures resolved_after { resolved.new ≡ map (often heights.0 factor) (take places_of_counts resolved.old) ++ drop places_of_counts resolved.old }
{
    for b in 0..BUCKET_COUNT {
        decay_bucket(confirmed, resolved, b, factor, heights.0);
    }
}
