// The estimate's scan: from the highest bucket to the lowest both counts of a column are summed, and the last bucket that passes gives the rate.
#![tactic(auto)]

ghost use Rattle.std.specs.Prelude.{◌≡◌, ◌≤◌, ◌<◌, length, option_map, IfSome};
ghost use Rattle.rules.specs.Ladder.{buckets};
ghost use Rattle.rules.specs.Counts.{columns, places_of_counts};
ghost use Rattle.rules.specs.Estimate.{passes, add_bucket, rate_in_column};
ghost use Rattle.scan.specs.Sums.{shown};

use kinds::{BUCKET_COUNT, FeeRate, MAX_CONF_TARGET, MIN_OBSERVATIONS, SUCCESS_THRESHOLD};

// The sums on the way down, and the bucket that gives the rate so far.
#[derive(Clone, Copy)]
pub(crate) struct Scan {
    confirmed: f64,
    resolved: f64,
    best: Option<usize>,
}

// Whether the sums give a bucket's rate.
fn sums_pass(confirmed: f64, resolved: f64) -> bool
    ensures { result ≡ passes confirmed resolved }
{
    MIN_OBSERVATIONS <= resolved && SUCCESS_THRESHOLD <= confirmed / resolved
}

// The scan with the sums of one bucket more.
fn add_bucket(s: Scan, b: usize, confirmed: f64, resolved: f64) -> Scan
    requires bucket { b < buckets }
    requires best { IfSome s.best (λ n. n < buckets) }
    ensures sums { shown result ≡ add_bucket b confirmed resolved (shown s) }
    ensures best { IfSome result.best (λ n. n < buckets) }
{
    let c = s.confirmed + confirmed;
    let r = s.resolved + resolved;
    let a = s.best;
    if sums_pass(c, r) {
        return Scan {
            confirmed: c,
            resolved: r,
            best: Some(b),
        };
    }
    Scan {
        confirmed: c,
        resolved: r,
        best: a,
    }
}

// The rate of column c, if some bucket gives one.
pub fn rate_in_column(confirmed: &[f64], resolved: &[f64], c: usize) -> Option<FeeRate>
    requires { (0 < c) × (c ≤ columns) × (places_of_counts ≤ length confirmed.now) × (places_of_counts ≤ length resolved.now) }
    ensures { option_map (λ r. r.0) result ≡ rate_in_column c confirmed.now resolved.now }
{
    let place = c - 1;
    let mut s = Scan {
        confirmed: 0.0,
        resolved: 0.0,
        best: None,
    };
    for b in (0..BUCKET_COUNT).rev() {
        let at = b * MAX_CONF_TARGET + place;
        s = add_bucket(s, b, confirmed[at], resolved[at]);
    }
    let best = s.best?;
    Some(ladder::rate_at(best))
}
