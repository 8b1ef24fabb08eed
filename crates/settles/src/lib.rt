// Listed pending records are settled: each is counted, and its confirmed record, if it has one, gets the block's height.
#![tactic(auto)]

ghost use Rattle.std.specs.Prelude.{◌≡◌, true, [], ◌*◌, ◌≤◌, ◌<◌, leb, ltb, length, get_or};
ghost use Rattle.rules.specs.Ladder.{last_bucket};
ghost use Rattle.rules.specs.Counts.{places_of_counts, gain};
ghost use Rattle.rules.specs.Records.{records, sound_table};
ghost use Rattle.rules.specs.Board.{board_of, pending_most, confirmed_size, confirmed_most};
ghost use Rattle.rules.specs.Estimator.{wait};
ghost use Rattle.rules.specs.Memory.{lent, view, confirmed_records, lay_confirmed};
ghost use Rattle.batch.specs.Batch.{renewed};
ghost use Rattle.ready.specs.Ready.{Ready};
ghost use Rattle.settles.specs.Settled.{looked, Settled, AllSettled};

use boards::waited;
use ids::{find, id_at};
use kinds::{CONFIRMED_SIZE, HEIGHT_AT, Height, Horizon, State};
use table::{PendingEntry, height_at, pending_at, put_field};

// What a look at the confirmed record of an id tells: it holds exactly the height, or another one, or there is none.
#[derive(Clone, Copy)]
enum Held {
    Exactly,
    Another,
    Nothing,
}

// The confirmed record of the id, if there is one, gets h. The answer is what it held before.
fn renew(recent: &mut [u8], kept: usize, id: &[u8; 32], h: Height) -> Held
    requires recent_value { sound_table confirmed_size confirmed_most kept recent.old ≡ true }
    ensures value { result ≡ looked h.0 id.now (confirmed_records kept recent.old) }
    ensures recent_after { recent.new ≡ lay_confirmed (renewed h.0 id.now (confirmed_records kept recent.old)) recent.old }
{
    match find(recent, CONFIRMED_SIZE, kept, id) {
        Ok(k) => {
            let was = height_at(recent, kept, k).0;
            if was == h.0 {
                return Held::Exactly;
            }
            put_field(recent, CONFIRMED_SIZE, kept, k, HEIGHT_AT, h.0);
            Held::Another
        }
        Err(_) => Held::Nothing,
    }
}

// Counts the confirmation at h of a pending record.
fn count(confirmed: &mut [f64], resolved: &mut [f64], r: PendingEntry, h: Height, on: Horizon)
    requires { (r.bucket ≤ last_bucket) × (places_of_counts ≤ length confirmed.old) × (places_of_counts ≤ length resolved.old) }
    ensures confirmed_after { confirmed.new ≡ gain r.bucket (λ c. leb (wait h.0 r.entry.0) ((board_of on).width * c)) confirmed.old }
    ensures resolved_after { resolved.new ≡ gain r.bucket (λ c. ltb r.through c) resolved.old }
{
    let first = boards::first_column(waited(r.entry, h), boards::width_of(on));
    counts::count_confirmation(confirmed, resolved, r.bucket as usize, r.through, first);
}

// Pending record number `i` is settled at h: it is counted, unless its confirmed record holds exactly h. The answer is the mark that it
// then has, 1 if it has no confirmed record and 2 if it has one: a number, as the definitions `Settled` and `picked` have it.
fn settle(
    confirmed: &mut [f64],
    resolved: &mut [f64],
    pending: &[u8],
    used: usize,
    recent: &mut [u8],
    kept: usize,
    i: usize,
    h: Height,
    on: Horizon,
) -> u8
    requires i_lt_used { (i < used) × (sound_table (board_of on).table.size pending_most used pending.now ≡ true) }
    requires i_bound { (((board_of on).table.read (get_or (records (board_of on).table.size used pending.now) i [])).bucket ≤ last_bucket)
        × (places_of_counts ≤ length confirmed.old) × (places_of_counts ≤ length resolved.old) }
    requires recent_value { sound_table confirmed_size confirmed_most kept recent.old ≡ true }
    ensures { Settled (board_of on) h.0 ((board_of on).table.read (get_or (records (board_of on).table.size used pending.now) i [])) (confirmed_records kept recent.old)
        confirmed.old resolved.old recent.old confirmed.new resolved.new recent.new result }
{
    let size = boards::record_size(on);
    let from = i * size;
    let mark = match renew(recent, kept, id_at(pending, from), h) {
        Held::Exactly => return 2,
        Held::Another => 2,
        Held::Nothing => 1,
    };
    count(
        confirmed,
        resolved,
        pending_at(pending, size, used, i),
        h,
        on,
    );
    mark
}

// Every pending record whose mark is 1 is settled at h, in table order. Its mark stays 1 if it has no confirmed record, and becomes 2 if it has one.
pub fn settle_all(
    state: State,
    confirmed: &mut [f64],
    resolved: &mut [f64],
    pending: &[u8],
    recent: &mut [u8],
    marks: &mut [u8],
    h: Height,
    on: Horizon,
)
    requires ready { Ready (board_of on) state (lent confirmed.old resolved.old pending.now recent.old) }
    requires pending_in_bounds { state.pending ≤ length marks.old }
    ensures { AllSettled (board_of on) h.0 (view (board_of on) state (lent confirmed.old resolved.old pending.now recent.old)) (lent confirmed.old resolved.old pending.now recent.old) marks.old
        (lent confirmed.new resolved.new pending.now recent.new) marks.new }
{
    let used = state.pending;
    let kept = state.recent;
    for i in 0..used {
        if marks[i] == 1 {
            marks[i] = settle(confirmed, resolved, pending, used, recent, kept, i, h, on);
        }
    }
}
