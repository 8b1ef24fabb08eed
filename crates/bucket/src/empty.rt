// Rows that hold only zeros, and buckets whose rows are seen to be in use.
ghost use Rattle.std.specs.Prelude.{◌≡◌, not, ◌&&◌};
ghost use Rattle.rules.specs.Counts.{columns, cell, is_zero, empty_row};
ghost use Rattle.bucket.specs.Holds.{Holds, BothHold};
ghost use Rattle.lists.specs.Part.{part};

use kinds::MAX_CONF_TARGET;

// The place of a row's last count.
const LAST: usize = MAX_CONF_TARGET - 1;

// Whether the row of bucket b, in the slice of one kind, holds only zeros, of either sign. The fold has no way out, so that it goes several counts at a time.
pub fn row_is_empty(counts: &[f64], b: usize) -> bool
    requires { Holds counts.now b }
    ensures { result ≡ empty_row (part columns b counts.now) }
{
    let at = b * MAX_CONF_TARGET;
    counts[at..at + MAX_CONF_TARGET]
        .iter()
        .fold(true, |empty, x| empty & (*x == 0.0))
}

// Whether in both rows of bucket b the last count is not zero. A row that holds anything mostly holds something there, and then none of its other counts is
// looked at.
pub fn both_in_use(confirmed: &[f64], resolved: &[f64], b: usize) -> bool
    requires { BothHold confirmed.now resolved.now b }
    ensures { result ≡ (not (is_zero (cell confirmed.now b columns)) && not (is_zero (cell resolved.now b columns))) }
{
    let last = b * MAX_CONF_TARGET + LAST;
    (confirmed[last] != 0.0) & (resolved[last] != 0.0)
}
