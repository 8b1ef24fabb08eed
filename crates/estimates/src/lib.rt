// The body of an estimate, over the horizon. It is what its definition in rules/specs/Calls says, for every input; it asks nothing of its caller.
#![tactic(auto)]

ghost use Rattle.std.specs.Prelude.{◌≡◌};
ghost use Rattle.kinds.specs.Answers.{estimate_answer};
ghost use Rattle.rules.specs.Board.{board_of};
ghost use Rattle.rules.specs.Calls.{estimate_call};

use boards::column_of;
use judge::sound_counts;
use kinds::{Blocks, Damaged, FeeRate, Horizon, State};
use scan::rate_in_column;

// The rate at which a transaction is confirmed within the target, if there is one.
pub fn estimate(
    state: State,
    confirmed: &[f64],
    resolved: &[f64],
    target: Blocks,
    on: Horizon,
) -> Result<Option<FeeRate>, Damaged>
    ensures { estimate_answer result ≡ estimate_call (board_of on) state confirmed.now resolved.now target }
{
    if !sound_counts(confirmed) {
        return Err(Damaged);
    }
    if !sound_counts(resolved) {
        return Err(Damaged);
    }
    if target.0 == 0 {
        return Ok(None);
    }
    Ok(rate_in_column(confirmed, resolved, column_of(target, on)))
}
