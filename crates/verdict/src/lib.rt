// Whether a block is refused, and why. All is judged over what is only lent to be read, so a refusal cannot have written.
#![tactic(auto)]

ghost use Rattle.std.specs.Prelude.{◌≡◌};
ghost use Rattle.kinds.specs.Answers.{answer_of, block_refusal};
ghost use Rattle.rules.specs.Board.{board_of};
ghost use Rattle.rules.specs.Memory.{lent};
ghost use Rattle.rules.specs.Calls.{gap, block_call};

use kinds::{
    BlockError, Blocks, CONFIRMED_SIZE, Height, Horizon, MAX_CONFIRMED_RECORDS, MAX_GAP, State,
};

// The height minus the last one, 0 if negative or if there is none.
#[tactic(auto, unfolding(rules::specs::Calls::gap))]
fn gap(last: Option<Height>, h: Height) -> Blocks
    ensures { result.0 ≡ gap last h }
{
    match last {
        Some(low) => Blocks(h.0.saturating_sub(low.0)),
        None => Blocks(0),
    }
}

// The first refusal of a block, if there is one. A list that is no longer than the free places finds room, and is not looked at.
#[tactic(auto, using(crate::proofs::Judging::wide_gap))]
pub fn judge_block(
    state: State,
    confirmed: &[f64],
    resolved: &[f64],
    pending: &[u8],
    recent: &[u8],
    ids: &[u8],
    height: Height,
    on: Horizon,
) -> Result<(), BlockError>
    ensures { answer_of block_refusal result ≡ (block_call (board_of on) state (lent confirmed.now resolved.now pending.now recent.now) ids.now height).answer }
{
    if !judge::judge_memory(state, confirmed, resolved, pending, recent, on) {
        return Err(BlockError::Damaged);
    }
    if ids.len() % 32 != 0 {
        return Err(BlockError::BadList);
    }
    let last = state.last;
    let skipped = gap(last, height);
    if MAX_GAP < skipped.0 {
        return Err(BlockError::GapTooWide);
    }
    let kept = state.recent;
    let free = table::capacity(recent, CONFIRMED_SIZE, MAX_CONFIRMED_RECORDS) - kept;
    if ids.len() / 32 <= free {
        return Ok(());
    }
    if !room::finds_room(state, pending, recent, ids, height, on) {
        return Err(BlockError::ConfirmedFull);
    }
    Ok(())
}
