// The listed ids of a block, all at once: those that are pending go to the confirmed records, and are counted.
#![tactic(auto)]

ghost use Rattle.std.specs.Prelude.{◌≡◌, ◌≤◌, ◌==◌, length, take, count_by};
ghost use Rattle.kinds.specs.Answers.{done};
ghost use Rattle.rules.specs.Board.{board_of};
ghost use Rattle.rules.specs.Estimator.{confirm_all};
ghost use Rattle.rules.specs.Memory.{view, confirmed_capacity};
ghost use Rattle.rules.specs.Slices.{given, before, after};
ghost use Rattle.rules.specs.Calls.{outcome, accepted, ids_of};
ghost use Rattle.ready.specs.Ready.{Ready};

use kinds::{Height, Horizon, ID_SIZE, State};
use marks::{drop_marked, mark_listed, no_marks};
use merges::merge;
use settles::settle_all;

// How many of the first `used` marks are 1.
fn count_new(marks: &[u8], used: usize) -> usize
    requires { used ≤ length marks.now }
    ensures { result ≡ count_by (λ m. m == 1) (take used marks.now) }
{
    marks[..used].iter().filter(|m| **m == 1).count()
}

// Confirms the listed ids at h.
#[tactic(auto, using(crate::proofs::Together::none_listed))]
pub fn confirm_all(
    state: State,
    confirmed: &mut [f64],
    resolved: &mut [f64],
    pending: &mut [u8],
    recent: &mut [u8],
    ids: &[u8],
    h: Height,
    on: Horizon,
) -> State
    requires ready { Ready (board_of on) state (given confirmed resolved pending recent) }
    requires recent_len_bound { length (confirm_all (board_of on) h.0 (ids_of ids.now) (view (board_of on) state (given confirmed resolved pending recent))).recent ≤ confirmed_capacity recent.old }
    ensures { outcome done result (after confirmed resolved pending recent)
        ≡ accepted (board_of on) (confirm_all (board_of on) h.0 (ids_of ids.now) (view (board_of on) state (before confirmed resolved pending recent)))
        (before confirmed resolved pending recent) }
{
    if ids.len() < ID_SIZE {
        return state;
    }
    let used = state.pending;
    let kept = state.recent;
    let size = boards::record_size(on);
    let mut marks = no_marks();
    mark_listed(pending, size, used, ids, &mut marks);
    settle_all(
        state, confirmed, resolved, pending, recent, &mut marks, h, on,
    );
    let fresh = count_new(&marks, used);
    merge(pending, size, used, &marks, recent, kept, fresh, h);
    let left = drop_marked(pending, size, used, &marks);
    State {
        last: state.last,
        pending: left,
        recent: kept + fresh,
    }
}
