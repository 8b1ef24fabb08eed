// The body of a fresh start, over the horizon. It is what its definition in rules/specs/Calls says, for every input; it asks nothing of its caller.
#![tactic(auto)]

ghost use Rattle.std.specs.Prelude.{◌≡◌};
ghost use Rattle.kinds.specs.Answers.{start_answer, state_or};
ghost use Rattle.rules.specs.Board.{board_of};
ghost use Rattle.rules.specs.Estimator.{fresh};
ghost use Rattle.rules.specs.Memory.{state_of};
ghost use Rattle.rules.specs.Slices.{before, after};
ghost use Rattle.rules.specs.Calls.{outcome, start_call};

use boards::record_size;
use counts::clear_counts;
use kinds::{
    CONFIRMED_SIZE, COUNTS, Damaged, Horizon, MAX_CONFIRMED_RECORDS, MAX_PENDING_ENTRIES, State,
};
use table::clear_table;

// A fresh start: no count, no record, no last height.
pub fn new(
    confirmed: &mut [f64],
    resolved: &mut [f64],
    pending: &mut [u8],
    recent: &mut [u8],
    on: Horizon,
) -> Result<State, Damaged>
    ensures { outcome (start_answer result) (state_or (state_of fresh) result) (after confirmed resolved pending recent)
        ≡ start_call (board_of on) (before confirmed resolved pending recent) }
{
    if confirmed.len() < COUNTS {
        return Err(Damaged);
    }
    if resolved.len() < COUNTS {
        return Err(Damaged);
    }
    clear_counts(confirmed);
    clear_counts(resolved);
    clear_table(pending, record_size(on), MAX_PENDING_ENTRIES);
    clear_table(recent, CONFIRMED_SIZE, MAX_CONFIRMED_RECORDS);
    Ok(State::empty())
}
