// What has been outwaited at a height: pending records gain the columns that they have outwaited, and records that need no more waiting go.
#![tactic(auto)]

mod keep;

ghost use Rattle.std.specs.Prelude.{◌≡◌, [], ◌∷◌, map, ◌*◌, ◌≤◌, ◌<◌, length, get_or, set};
ghost use Rattle.rules.specs.Lists.{keep};
ghost use Rattle.rules.specs.Ladder.{buckets};
ghost use Rattle.rules.specs.Counts.{places_of_counts};
ghost use Rattle.rules.specs.Records.{records, laid};
ghost use Rattle.rules.specs.Board.{board_of};
ghost use Rattle.rules.specs.Estimator.{expire_targets};
ghost use Rattle.rules.specs.Memory.{pending_records};
ghost use Rattle.rules.proofs.All.{All};
ghost use Rattle.rules.proofs.Well.{WellPending};
ghost use Rattle.expiry.specs.Fields.{raised, waiting};

pub use keep::prune_confirmed;
use kinds::{Height, Horizon, THROUGH_AT};

// Expires pending record number `i` at height h: one resolved for each column that it has outwaited since it was last looked at, and its resolved-through moves up to
// what it has outwaited.
fn expire_one(
    resolved: &mut [f64],
    pending: &mut [u8],
    used: usize,
    i: usize,
    h: Height,
    on: Horizon,
)
    requires places_of_counts_in_bounds { (places_of_counts ≤ length resolved.old) × (i < used) × (used * (board_of on).table.size ≤ length pending.old) }
    requires i_bound { ((board_of on).table.read (get_or (records (board_of on).table.size used pending.old) i [])).bucket < buckets }
    ensures resolved_after { resolved.new ≡ expire_targets (board_of on) h.0 ((board_of on).table.read (get_or (records (board_of on).table.size used pending.old) i []) ∷ []) resolved.old }
    ensures pending_after { pending.new ≡ laid (board_of on).table.size used (set (records (board_of on).table.size used pending.old) i (raised (board_of on).width h.0 (get_or (records (board_of on).table.size used pending.old) i []))) pending.old }
{
    let size = boards::record_size(on);
    let width = boards::width_of(on);
    let r = table::pending_at(pending, size, used, i);
    let reach = boards::outwaited(h, r.entry, width);
    counts::gain_columns(
        resolved,
        r.bucket as usize,
        r.through as usize,
        reach as usize,
    );
    if r.through < reach {
        table::put_field(pending, size, used, i, THROUGH_AT, reach);
    }
}

// Expires every pending record at height h, and drops none.
fn expire_all(resolved: &mut [f64], pending: &mut [u8], used: usize, h: Height, on: Horizon)
    requires places_of_counts_in_bounds { (places_of_counts ≤ length resolved.old) × (used * (board_of on).table.size ≤ length pending.old) }
    requires all { All WellPending (pending_records (board_of on) used pending.old) }
    ensures resolved_after { resolved.new ≡ expire_targets (board_of on) h.0 (pending_records (board_of on) used pending.old) resolved.old }
    ensures pending_after { pending.new ≡ laid (board_of on).table.size used (map (raised (board_of on).width h.0) (records (board_of on).table.size used pending.old)) pending.old }
{
    for i in 0..used {
        expire_one(resolved, pending, used, i, h, on);
    }
}

// Expires the pending records at height h: each is counted, its resolved-through moves to what it has outwaited, and it goes if that is every column. The answer
// is how many stay.
pub fn expire_pending(
    resolved: &mut [f64],
    pending: &mut [u8],
    used: usize,
    h: Height,
    on: Horizon,
) -> usize
    requires places_of_counts_in_bounds { (places_of_counts ≤ length resolved.old) × (used * (board_of on).table.size ≤ length pending.old) }
    requires all { All WellPending (pending_records (board_of on) used pending.old) }
    ensures resolved_after { resolved.new ≡ expire_targets (board_of on) h.0 (pending_records (board_of on) used pending.old) resolved.old }
    ensures value { result ≡ length (keep waiting (map (raised (board_of on).width h.0) (records (board_of on).table.size used pending.old))) }
    ensures pending_after { pending.new ≡ laid (board_of on).table.size used (keep waiting (map (raised (board_of on).width h.0) (records (board_of on).table.size used pending.old))) pending.old }
{
    let size = boards::record_size(on);
    expire_all(resolved, pending, used, h, on);
    keep::drop_resolved(pending, size, used)
}
