// Whether the confirmed table has room for a block's list: answer 7, judged before anything is written.
// `skipped`: what the skipped heights leave. `count`: how many confirmed records there will be.
#![tactic(auto)]

mod count;
mod skipped;

ghost use Rattle.std.specs.Prelude.{◌≡◌, true, leb};
ghost use Rattle.rules.specs.Records.{sound_table};
ghost use Rattle.rules.specs.Board.{board_of, pending_most, confirmed_size, confirmed_most};
ghost use Rattle.rules.specs.Memory.{pending_records, confirmed_records, confirmed_capacity};
ghost use Rattle.rules.specs.Calls.{ids_of};
ghost use Rattle.batch.specs.Needed.{needed};

use count::{count_new, count_staying};
use kinds::{CONFIRMED_SIZE, Height, Horizon, MAX_CONFIRMED_RECORDS, State};
use marks::{mark_listed, no_marks};
use skipped::{last_skipped, least_height};

// How many confirmed records there will be once the list is in.
fn needed(
    state: State,
    pending: &[u8],
    recent: &[u8],
    ids: &[u8],
    height: Height,
    on: Horizon,
) -> usize
    requires pending_value { sound_table (board_of on).table.size pending_most state.pending pending.now ≡ true }
    requires recent_value { sound_table confirmed_size confirmed_most state.recent recent.now ≡ true }
    ensures { result ≡ needed (board_of on) (ids_of ids.now) height.0 state.last
        (pending_records (board_of on) state.pending pending.now) (confirmed_records state.recent recent.now) }
{
    let last = state.last;
    let used = state.pending;
    let kept = state.recent;
    let size = boards::record_size(on);
    let mut marks = no_marks();
    mark_listed(pending, size, used, ids, &mut marks);
    let skipped = last_skipped(last, height);
    let old = count_staying(recent, kept, least_height(skipped));
    old + count_new(pending, used, recent, kept, &marks, skipped, on)
}

// Whether there is room for all confirmed records that there will be once the list is in. Where every pending record would find a free place, nothing more is
// looked at.
pub fn finds_room(
    state: State,
    pending: &[u8],
    recent: &[u8],
    ids: &[u8],
    height: Height,
    on: Horizon,
) -> bool
    requires pending_value { sound_table (board_of on).table.size pending_most state.pending pending.now ≡ true }
    requires recent_value { sound_table confirmed_size confirmed_most state.recent recent.now ≡ true }
    ensures { result ≡ leb
        (needed (board_of on) (ids_of ids.now) height.0 state.last
        (pending_records (board_of on) state.pending pending.now) (confirmed_records state.recent recent.now))
        (confirmed_capacity recent.now) }
{
    let used = state.pending;
    let kept = state.recent;
    let room = table::capacity(recent, CONFIRMED_SIZE, MAX_CONFIRMED_RECORDS);
    if used <= room - kept {
        return true;
    }
    needed(state, pending, recent, ids, height, on) <= room
}
