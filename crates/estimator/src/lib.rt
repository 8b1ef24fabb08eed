// THE PUBLIC CALLS, of either board: the base board, or the wide one, the slower horizon, whose columns are six blocks each. Each is what its definition in
// rules/specs/Calls or format/specs/Calls says, for every input; none asks anything of its caller. The bodies are in `starts`, `entries`, `blocks`, `estimates`
// and `history`.
// (Functions and not `pub use` of the bodies: here a reader finds all contracts, and `told` takes them from here.)
// The four lent slices stay four parameters here and below. Tried as one struct of `&mut` slices: that a slice keeps its length, and that a byte is below 256, is
// not known of slices in a struct, so that every contract would have to say it.
#![tactic(auto)]

ghost use Rattle.std.specs.Prelude.{◌≡◌};
ghost use Rattle.kinds.specs.Answers.{start_answer, enter_answer, leave_answer, block_answer, estimate_answer, write_answer, read_answer, state_or, length_of};
ghost use Rattle.rules.specs.Ladder.{bucket_for};
ghost use Rattle.rules.specs.Board.{board_of};
ghost use Rattle.rules.specs.Estimator.{fresh};
ghost use Rattle.rules.specs.Memory.{lent, state_of};
ghost use Rattle.rules.specs.Slices.{before, after};
ghost use Rattle.rules.specs.Calls.{outcome, start_call, enter_call, leave_call, block_call, estimate_call};
ghost use Rattle.format.specs.File.{version_of};
ghost use Rattle.format.specs.Calls.{output, write_call, read_call};

use history::own_version;
use kinds::{
    BlockError, Blocks, Damaged, EnterError, FeeRate, Height, Horizon, LeaveError, ReadError,
    State, WriteError,
};

// A fresh start: no count, no record, no last height.
pub fn new(
    confirmed: &mut [f64],
    resolved: &mut [f64],
    pending: &mut [u8],
    recent: &mut [u8],
    on: Horizon,
) -> Result<State, Damaged>
    ensures { outcome (start_answer result) (state_or (state_of fresh) result) (after confirmed resolved pending recent)
        ≡ start_call (board_of on) (before confirmed resolved pending recent) }
{
    starts::new(confirmed, resolved, pending, recent, on)
}

// Enter (id, rate, height).
pub fn tx_entered(
    state: State,
    pending: &mut [u8],
    id: &[u8; 32],
    rate: FeeRate,
    height: Height,
    on: Horizon,
) -> Result<State, EnterError>
    ensures { outcome (enter_answer result) (state_or state result) pending.new ≡ enter_call (board_of on) state pending.old id.now rate height }
{
    entries::tx_entered(state, pending, id, rate, height, on)
}

// Leave (id).
pub fn tx_left(
    state: State,
    pending: &mut [u8],
    id: &[u8; 32],
    on: Horizon,
) -> Result<State, LeaveError>
    ensures { outcome (leave_answer result) (state_or state result) pending.new ≡ leave_call (board_of on) state pending.old id.now }
{
    entries::tx_left(state, pending, id, on)
}

// Block (ids, height).
pub fn block_connected(
    state: State,
    confirmed: &mut [f64],
    resolved: &mut [f64],
    pending: &mut [u8],
    recent: &mut [u8],
    ids: &[u8],
    height: Height,
    on: Horizon,
) -> Result<State, BlockError>
    ensures { outcome (block_answer result) (state_or state result) (after confirmed resolved pending recent)
        ≡ block_call (board_of on) state (before confirmed resolved pending recent) ids.now height }
{
    blocks::block_connected(state, confirmed, resolved, pending, recent, ids, height, on)
}

// The rate at which a transaction is confirmed within the target, in blocks: up to 25 on the base board, up to 150 on the wide one, in the column that covers it.
pub fn estimate(
    state: State,
    confirmed: &[f64],
    resolved: &[f64],
    target: Blocks,
    on: Horizon,
) -> Result<Option<FeeRate>, Damaged>
    ensures { estimate_answer result ≡ estimate_call (board_of on) state confirmed.now resolved.now target }
{
    estimates::estimate(state, confirmed, resolved, target, on)
}

// The bucket that a rate belongs to, on either board; below the floor there is none.
pub fn bucket_index_for_rate(rate: FeeRate) -> Option<usize>
    ensures { result ≡ bucket_for rate.0 }
{
    ladder::bucket_index_for_rate(rate)
}

// Writes the history file, of the board's own version (1 or 3), into out, if it has room.
pub fn to_history_bytes(
    state: State,
    confirmed: &[f64],
    resolved: &[f64],
    pending: &[u8],
    recent: &[u8],
    out: &mut [u8],
    on: Horizon,
) -> Result<usize, WriteError>
    ensures { outcome (write_answer result) state (output (length_of result) out.new)
        ≡ write_call (version_of on) (board_of on) state (lent confirmed.now resolved.now pending.now recent.now) out.old }
{
    history::to_history_bytes(
        state,
        confirmed,
        resolved,
        pending,
        recent,
        out,
        own_version(on),
        on,
    )
}

// Reads a history file of the board's own version into the lent memory.
pub fn from_history_bytes(
    bytes: &[u8],
    confirmed: &mut [f64],
    resolved: &mut [f64],
    pending: &mut [u8],
    recent: &mut [u8],
    on: Horizon,
) -> Result<State, ReadError>
    ensures { outcome (read_answer result) (state_or (state_of fresh) result) (after confirmed resolved pending recent)
        ≡ read_call (version_of on) (board_of on) (before confirmed resolved pending recent) bytes.now }
{
    history::from_history_bytes(
        bytes,
        confirmed,
        resolved,
        pending,
        recent,
        own_version(on),
        on,
    )
}
