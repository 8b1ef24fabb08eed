// The body of a block, over the horizon. It is what its definition in rules/specs/Calls says, for every input; it asks nothing of its caller. First the whole
// block is judged (`verdict`), then, if it is not refused, its steps are taken (`accept`).
#![tactic(auto)]

mod accept;

ghost use Rattle.std.specs.Prelude.{◌≡◌};
ghost use Rattle.kinds.specs.Answers.{block_answer, state_or};
ghost use Rattle.rules.specs.Board.{board_of};
ghost use Rattle.rules.specs.Slices.{before, after};
ghost use Rattle.rules.specs.Calls.{outcome, block_call};

use accept::connect;
use kinds::{BlockError, Height, Horizon, State};
use verdict::judge_block;

// Block (ids, height).
pub fn block_connected(
    state: State,
    confirmed: &mut [f64],
    resolved: &mut [f64],
    pending: &mut [u8],
    recent: &mut [u8],
    ids: &[u8],
    height: Height,
    on: Horizon,
) -> Result<State, BlockError>
    ensures { outcome (block_answer result) (state_or state result) (after confirmed resolved pending recent)
        ≡ block_call (board_of on) state (before confirmed resolved pending recent) ids.now height }
{
    judge_block(state, confirmed, resolved, pending, recent, ids, height, on)?;
    Ok(connect(state, confirmed, resolved, pending, recent, ids, height, on))
}
