// What a block does that is not refused.
ghost use Rattle.std.specs.Prelude.{◌≡◌, ◌≤◌};
ghost use Rattle.kinds.specs.Answers.{done};
ghost use Rattle.rules.specs.Board.{board_of};
ghost use Rattle.rules.specs.Estimator.{advances, block_connected};
ghost use Rattle.rules.specs.Memory.{view, confirmed_capacity};
ghost use Rattle.rules.specs.Slices.{given, before, after};
ghost use Rattle.rules.specs.Calls.{outcome, accepted, ids_of, held_once_listed};
ghost use Rattle.ready.specs.Ready.{Ready};

use kinds::{Height, Horizon, State};

// Whether a block advances: if there is no last height, or its height is above it.
#[tactic(auto, unfolding(rules::specs::Estimator::advances))]
fn advances(last: Option<Height>, h: Height) -> bool
    ensures { result ≡ advances last h.0 }
{
    match last {
        Some(low) => low.0 < h.0,
        None => true,
    }
}

// The block: the skipped heights, the listed ids, and its own height if it advances.
pub(crate) fn connect(
    state: State,
    confirmed: &mut [f64],
    resolved: &mut [f64],
    pending: &mut [u8],
    recent: &mut [u8],
    ids: &[u8],
    height: Height,
    on: Horizon,
) -> State
    requires ready { Ready (board_of on) state (given confirmed resolved pending recent) }
    requires recent_bound { held_once_listed (board_of on) (ids_of ids.now) height.0 (view (board_of on) state (given confirmed resolved pending recent)) ≤ confirmed_capacity recent.old }
    ensures { outcome done result (after confirmed resolved pending recent)
        ≡ accepted (board_of on) (block_connected (board_of on) (ids_of ids.now) height.0 (view (board_of on) state (before confirmed resolved pending recent)))
        (before confirmed resolved pending recent) }
{
    let last = state.last;
    let skipped = heights::skip_heights(state, confirmed, resolved, pending, recent, height, on);
    let listed = confirms::confirm_all(
        skipped, confirmed, resolved, pending, recent, ids, height, on,
    );
    if advances(last, height) {
        return heights::advance_height(listed, confirmed, resolved, pending, recent, height, on);
    }
    listed
}
