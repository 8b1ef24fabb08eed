// What is judged: counts, tables, and all of the lent memory.
#![tactic(auto)]

mod counts;
mod tables;

ghost use Rattle.std.specs.Prelude.{◌≡◌};
ghost use Rattle.rules.specs.Board.{board_of};
ghost use Rattle.rules.specs.Memory.{sound, lent};

pub use counts::{sound_count, sound_counts};
use kinds::{Horizon, State};
use tables::judge_confirmed;
pub use tables::{in_range, judge_pending};

// Whether all of the lent memory is sound.
#[tactic(auto, unfolding(rules::specs::Memory::sound))]
pub fn judge_memory(
    state: State,
    confirmed: &[f64],
    resolved: &[f64],
    pending: &[u8],
    recent: &[u8],
    on: Horizon,
) -> bool
    ensures { result ≡ sound (board_of on) state (lent confirmed.now resolved.now pending.now recent.now) }
{
    sound_counts(confirmed)
        && sound_counts(resolved)
        && judge_pending(pending, state.pending, on)
        && judge_confirmed(recent, state.recent)
}
