// The buckets of a file, the bytes of each taken as one part.
ghost use Rattle.std.specs.Prelude.{◌≡◌, true, [], ◌∷◌, ◌++◌, ◌+◌, ◌*◌, ◌≤◌, ◌<◌, length, drop};
ghost use Rattle.rules.specs.Ladder.{ladder, buckets};
ghost use Rattle.rules.specs.Counts.{places_of_counts};
ghost use Rattle.format.specs.Parts.{is_read};
ghost use Rattle.format.specs.File.{rates, read_buckets};
ghost use Rattle.codec.specs.Places.{bucket_size, confirmed_row, resolved_row, buckets_size, rows_at};

use codec::buckets::{bucket_ok, load_bucket};
use kinds::{BUCKET_COUNT, BUCKET_SIZE};
use reader::part;

// Whether bucket i of those from `at` on stands there.
fn bucket_stands(s: &[u8], at: usize, i: usize) -> bool
    requires { (at + buckets_size ≤ length s.now) × (i < buckets) }
    ensures { result ≡ is_read (read_buckets (ladder i ∷ []) (drop (at + bucket_size * i) s.now)) }
{
    bucket_ok(
        part(s, at + BUCKET_SIZE * i, BUCKET_SIZE),
        ladder::rate_at(i),
    )
}

// Whether all buckets stand from `at` on.
pub(crate) fn buckets_ok(s: &[u8], at: usize) -> bool
    requires { at + buckets_size ≤ length s.now }
    ensures { result ≡ is_read (read_buckets rates (drop at s.now)) }
{
    (0..BUCKET_COUNT).all(|i| bucket_stands(s, at, i))
}

// The counts of all buckets from `at` on are stored into both lists.
pub fn load_buckets(s: &[u8], at: usize, confirmed: &mut [f64], resolved: &mut [f64])
    requires buckets_size_in_bounds { (at + buckets_size ≤ length s.now) × ((places_of_counts ≤ length confirmed.old) × (places_of_counts ≤ length resolved.old)) }
    requires s_value { is_read (read_buckets rates (drop at s.now)) ≡ true }
    ensures { (confirmed.new ≡ rows_at buckets s.now (at + confirmed_row) ++ drop places_of_counts confirmed.old)
        × (resolved.new ≡ rows_at buckets s.now (at + resolved_row) ++ drop places_of_counts resolved.old) }
{
    for i in 0..BUCKET_COUNT {
        let bytes = part(s, at + BUCKET_SIZE * i, BUCKET_SIZE);
        load_bucket(bytes, confirmed, resolved, i);
    }
}
