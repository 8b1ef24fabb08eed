// The bodies of the exported calls, over the horizon: each judges the words that it is given, makes the call on the state that they hold, and tells its
// outcome in words; the lookup, which is of no board, has numbers alone. Each is what its definition in boundary/specs/Calls says, for every input; none asks
// anything of its caller. Words that hold no state, an id that is not 32 bytes and a `carried` of no words are Damaged, and nothing is changed.
// Answers stay numbers here, 1 for Damaged, since C takes no enum; a slice stays by itself, since C lends each.
#![tactic(auto)]

ghost use Rattle.std.specs.Prelude.{◌≡◌, []};
ghost use Rattle.rules.specs.Memory.{lent};
ghost use Rattle.rules.specs.Slices.{before, after};
ghost use Rattle.boundary.specs.Calls.{izr_bucket_index_for_rate, seen, izr_new, izr_tx_entered, izr_tx_left, izr_block_connected, izr_estimate, izr_to_history_bytes, izr_from_history_bytes};

use kinds::{BUCKET_COUNT, Blocks, FeeRate, Height, Horizon};
use words::{
    holds_state, id_in, room_and_word, state_and_id, state_and_word, state_in, tell,
    tell_estimated, tell_reading, tell_written,
};

// The bucket of a rate, or 142 where there is none.
pub fn bucket_index_for_rate(rate: u64) -> u64
    ensures { result ≡ izr_bucket_index_for_rate rate }
{
    match estimator::bucket_index_for_rate(FeeRate(rate)) {
        None => BUCKET_COUNT as u64,
        Some(b) => b as u64,
    }
}

// A fresh start.
pub fn new(
    confirmed: &mut [f64],
    resolved: &mut [f64],
    pending: &mut [u8],
    recent: &mut [u8],
    state: &mut [u64],
    on: Horizon,
) -> u32
    ensures { seen result state.new [] (after confirmed resolved pending recent)
        ≡ izr_new on state.old (before confirmed resolved pending recent) }
{
    if state.len() < 4 {
        return 1;
    }
    let started = estimator::new(confirmed, resolved, pending, recent, on);
    tell(state, started)
}

// Enter (id, rate, height).
pub fn tx_entered(
    state: &mut [u64],
    pending: &mut [u8],
    id: &[u8],
    rate: u64,
    height: u32,
    on: Horizon,
) -> u32
    ensures { seen result state.new [] pending.new ≡ izr_tx_entered on state.old pending.old id.now rate height }
{
    if !state_and_id(state, id) {
        return 1;
    }
    let given = id_in(id);
    let entered = estimator::tx_entered(
        state_in(state),
        pending,
        &given,
        FeeRate(rate),
        Height(height),
        on,
    );
    tell(state, entered)
}

// Leave (id).
pub fn tx_left(state: &mut [u64], pending: &mut [u8], id: &[u8], on: Horizon) -> u32
    ensures { seen result state.new [] pending.new ≡ izr_tx_left on state.old pending.old id.now }
{
    if !state_and_id(state, id) {
        return 1;
    }
    let given = id_in(id);
    let left = estimator::tx_left(state_in(state), pending, &given, on);
    tell(state, left)
}

// Block (ids, height).
pub fn block_connected(
    state: &mut [u64],
    confirmed: &mut [f64],
    resolved: &mut [f64],
    pending: &mut [u8],
    recent: &mut [u8],
    ids: &[u8],
    height: u32,
    on: Horizon,
) -> u32
    ensures { seen result state.new [] (after confirmed resolved pending recent)
        ≡ izr_block_connected on state.old (before confirmed resolved pending recent) ids.now height }
{
    if !holds_state(state) {
        return 1;
    }
    let connected = estimator::block_connected(
        state_in(state),
        confirmed,
        resolved,
        pending,
        recent,
        ids,
        Height(height),
        on,
    );
    tell(state, connected)
}

// Estimate (target). It carries the rate, or 0 where there is none.
pub fn estimate(
    state: &[u64],
    confirmed: &[f64],
    resolved: &[f64],
    target: u32,
    carried: &mut [u64],
    on: Horizon,
) -> u32
    ensures { seen result state.now carried.new tt ≡ izr_estimate on state.now confirmed.now resolved.now target carried.old }
{
    if !state_and_word(state, carried) {
        return 1;
    }
    let estimated = estimator::estimate(state_in(state), confirmed, resolved, Blocks(target), on);
    tell_estimated(carried, estimated)
}

// Writes the history file of the board's own version. It carries how many bytes were written, or are needed.
pub fn to_history_bytes(
    state: &[u64],
    confirmed: &[f64],
    resolved: &[f64],
    pending: &[u8],
    recent: &[u8],
    out: &mut [u8],
    carried: &mut [u64],
    on: Horizon,
) -> u32
    ensures { seen result state.now carried.new out.new
        ≡ izr_to_history_bytes on state.now (lent confirmed.now resolved.now pending.now recent.now) out.old carried.old }
{
    if !state_and_word(state, carried) {
        return 1;
    }
    let written = estimator::to_history_bytes(
        state_in(state),
        confirmed,
        resolved,
        pending,
        recent,
        out,
        on,
    );
    tell_written(carried, written)
}

// Reads a history file of the board's own version. It carries the version, where that is another.
pub fn from_history_bytes(
    bytes: &[u8],
    confirmed: &mut [f64],
    resolved: &mut [f64],
    pending: &mut [u8],
    recent: &mut [u8],
    state: &mut [u64],
    carried: &mut [u64],
    on: Horizon,
) -> u32
    ensures { seen result state.new carried.new (after confirmed resolved pending recent)
        ≡ izr_from_history_bytes on bytes.now (before confirmed resolved pending recent) state.old carried.old }
{
    if !room_and_word(state, carried) {
        return 1;
    }
    let reading = estimator::from_history_bytes(bytes, confirmed, resolved, pending, recent, on);
    tell_reading(state, carried, reading)
}
