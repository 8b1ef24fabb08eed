// One bucket's counts, taken out of the lent slices by value, and put back.
ghost use Rattle.std.specs.Prelude.{◌≡◌};
ghost use Rattle.rules.specs.Counts.{columns};
ghost use Rattle.bucket.specs.Holds.{Holds, BothHold};
ghost use Rattle.lists.specs.Part.{part, part_put};

use crate::Bucket;
use kinds::MAX_CONF_TARGET;

// The counts of bucket b, out of the slice of one kind.
fn row_out(counts: &[f64], b: usize) -> [f64; MAX_CONF_TARGET]
    requires { Holds counts.now b }
    ensures { result ≡ part columns b counts.now }
{
    let at = b * MAX_CONF_TARGET;
    let mut row = [0.0f64; MAX_CONF_TARGET];
    // `copy_from_slice` misses the bar of speed: a row is longer than what the compiler copies in place, and each copy is a call.
    for i in 0..MAX_CONF_TARGET {
        row[i] = counts[at + i];
    }
    row
}

// Puts the counts of bucket b into the slice of one kind.
pub fn row_in(counts: &mut [f64], b: usize, row: [f64; MAX_CONF_TARGET])
    requires { Holds counts.old b }
    ensures { counts.new ≡ part_put columns b row counts.old }
{
    let at = b * MAX_CONF_TARGET;
    // So here: each copy would be a call.
    for i in 0..MAX_CONF_TARGET {
        counts[at + i] = row[i];
    }
}

// Both kinds of counts of bucket b.
pub fn bucket_out(confirmed: &[f64], resolved: &[f64], b: usize) -> Bucket
    requires { BothHold confirmed.now resolved.now b }
    ensures { (result.confirmed ≡ part columns b confirmed.now) × (result.resolved ≡ part columns b resolved.now) }
{
    let c = row_out(confirmed, b);
    let r = row_out(resolved, b);
    Bucket {
        confirmed: c,
        resolved: r,
    }
}

// Puts both kinds of counts of bucket b back.
pub fn bucket_in(confirmed: &mut [f64], resolved: &mut [f64], b: usize, x: Bucket)
    requires { BothHold confirmed.old resolved.old b }
    ensures { (confirmed.new ≡ part_put columns b x.confirmed confirmed.old) × (resolved.new ≡ part_put columns b x.resolved resolved.old) }
{
    let c = x.confirmed;
    let r = x.resolved;
    row_in(confirmed, b, c);
    row_in(resolved, b, r);
}
