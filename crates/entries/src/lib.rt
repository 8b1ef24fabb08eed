// The bodies of entering and of leaving, over the horizon. Each is what its definition in rules/specs/Calls says, for every input; neither asks anything of
// its caller. Both judge the table, search it once, and put the record in or take it out where the search has ended; an enter below the floor ends before it
// searches.
#![tactic(auto)]

ghost use Rattle.std.specs.Prelude.{◌≡◌};
ghost use Rattle.kinds.specs.Answers.{enter_answer, leave_answer, state_or};
ghost use Rattle.rules.specs.Board.{board_of};
ghost use Rattle.rules.specs.Calls.{outcome, enter_call, leave_call};

use boards::record_size;
use by_id::forget;
use ids::find;
use judge::judge_pending;
use kinds::{EnterError, FeeRate, Height, Horizon, LeaveError, MAX_PENDING_ENTRIES, State};
use ladder::bucket_index_for_rate;
use table::{capacity, insert_pending};

// Enter (id, rate, height).
pub fn tx_entered(
    state: State,
    pending: &mut [u8],
    id: &[u8; 32],
    rate: FeeRate,
    height: Height,
    on: Horizon,
) -> Result<State, EnterError>
    ensures { outcome (enter_answer result) (state_or state result) pending.new ≡ enter_call (board_of on) state pending.old id.now rate height }
{
    let used = state.pending;
    if !judge_pending(pending, used, on) {
        return Err(EnterError::Damaged);
    }
    let Some(bucket) = bucket_index_for_rate(rate) else {
        return Err(EnterError::BelowFloor);
    };
    let size = record_size(on);
    let Err(at) = find(pending, size, used, id) else {
        return Err(EnterError::AlreadyPending);
    };
    if used == capacity(pending, size, MAX_PENDING_ENTRIES) {
        return Err(EnterError::PendingFull);
    }
    let bucket = bucket as u32;
    insert_pending(pending, used, at, id, bucket, height, on);
    Ok(state.with_pending(used + 1))
}

// Leave (id).
pub fn tx_left(
    state: State,
    pending: &mut [u8],
    id: &[u8; 32],
    on: Horizon,
) -> Result<State, LeaveError>
    ensures { outcome (leave_answer result) (state_or state result) pending.new ≡ leave_call (board_of on) state pending.old id.now }
{
    let used = state.pending;
    if !judge_pending(pending, used, on) {
        return Err(LeaveError::Damaged);
    }
    let left = forget(pending, used, id, on);
    if left == used {
        return Err(LeaveError::Absent);
    }
    Ok(state.with_pending(left))
}
