// Heights advanced over the lent memory: one by one while there are records, and at once where only counts are left.
#![tactic(auto)]

ghost use Rattle.std.specs.Prelude.{◌≡◌, ◌+◌, ◌^◌, ◌<◌};
ghost use Rattle.kinds.specs.Answers.{done};
ghost use Rattle.rules.specs.Board.{board_of};
ghost use Rattle.rules.specs.Estimator.{advance_height, advance_heights, skip_heights};
ghost use Rattle.rules.specs.Memory.{view};
ghost use Rattle.rules.specs.Slices.{given, before, after};
ghost use Rattle.rules.specs.Calls.{outcome, accepted};
ghost use Rattle.ready.specs.Ready.{Ready};

use kinds::{Blocks, Height, Horizon, State};

// Advances height h: pending records gain what they have outwaited, every count decays, and old confirmed records go.
pub fn advance_height(
    state: State,
    confirmed: &mut [f64],
    resolved: &mut [f64],
    pending: &mut [u8],
    recent: &mut [u8],
    h: Height,
    on: Horizon,
) -> State
    requires { Ready (board_of on) state (given confirmed resolved pending recent) }
    ensures { outcome done result (after confirmed resolved pending recent)
        ≡ accepted (board_of on) (advance_height (board_of on) h.0 (view (board_of on) state (before confirmed resolved pending recent))) (before confirmed resolved pending recent) }
{
    let used = state.pending;
    let kept = state.recent;
    let waiting = expiry::expire_pending(resolved, pending, used, h, on);
    decay::apply_decay(confirmed, resolved, boards::factor_of(on), Blocks(1));
    let young = expiry::prune_confirmed(recent, kept, h);
    State {
        last: Some(h),
        pending: waiting,
        recent: young,
    }
}

// Advances the n heights after `low`: one by one while there are records, and then at once, since nothing but the counts is left to change.
fn advance_heights(
    state: State,
    confirmed: &mut [f64],
    resolved: &mut [f64],
    pending: &mut [u8],
    recent: &mut [u8],
    low: Height,
    n: Blocks,
    on: Horizon,
) -> State
    requires ready { Ready (board_of on) state (given confirmed resolved pending recent) }
    requires n_bound { low.0 + n.0 < 2 ^ 32 }
    ensures { outcome done result (after confirmed resolved pending recent)
        ≡ accepted (board_of on) (advance_heights (board_of on) low.0 n.0 (view (board_of on) state (before confirmed resolved pending recent))) (before confirmed resolved pending recent) }
{
    let from = low.0;
    let count = n.0;
    let mut s = state;
    for i in 0..count {
        if s.pending == 0 && s.recent == 0 {
            let left = count - i;
            let top = from + count;
            decay::apply_decay(confirmed, resolved, boards::factor_of(on), Blocks(left));
            return State {
                last: Some(Height(top)),
                pending: 0,
                recent: 0,
            };
        }
        let next = from + (i + 1);
        s = advance_height(s, confirmed, resolved, pending, recent, Height(next), on);
    }
    s
}

// Advances every height strictly between the last height, if there is one, and h.
pub fn skip_heights(
    state: State,
    confirmed: &mut [f64],
    resolved: &mut [f64],
    pending: &mut [u8],
    recent: &mut [u8],
    h: Height,
    on: Horizon,
) -> State
    requires { Ready (board_of on) state (given confirmed resolved pending recent) }
    ensures { outcome done result (after confirmed resolved pending recent)
        ≡ accepted (board_of on) (skip_heights (board_of on) state.last h.0 (view (board_of on) state (before confirmed resolved pending recent))) (before confirmed resolved pending recent) }
{
    let last = state.last;
    let Some(low) = last else {
        return state;
    };
    let from = low.0;
    let to = h.0;
    if to <= from {
        return state;
    }
    let between = to - from - 1;
    advance_heights(
        state,
        confirmed,
        resolved,
        pending,
        recent,
        low,
        Blocks(between),
        on,
    )
}
