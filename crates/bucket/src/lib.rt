// One bucket's counts: out of the lent slices by value, and back; and which of them are zeros.
// `row`: a bucket and its rows, taken out and put in. `empty`: rows that hold only zeros.
#![tactic(auto)]

mod empty;
mod row;

pub use empty::{both_in_use, row_is_empty};
pub use row::{bucket_in, bucket_out, row_in};

// The counts of one bucket.
#[derive(Clone, Copy)]
pub struct Bucket {
    pub confirmed: [f64; kinds::MAX_CONF_TARGET],
    pub resolved: [f64; kinds::MAX_CONF_TARGET],
}
