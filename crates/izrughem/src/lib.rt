// THE C ABI: the public calls of either board for C and Rust, on numbers and slices only, a slice passing as a pointer and a length. Each answers document
// 01's number, and puts what the answer carries, if anything, into `carried`. The state is four lent words (boundary/specs/Words). Each is what its definition
// in boundary/specs/Calls says, for every input; none asks anything of its caller. The bodies are in `exports`.
// The calls of the two boards differ in the board alone and stand in pairs, since C calls each by its name.
#![tactic(auto)]

ghost use Rattle.std.specs.Prelude.{◌≡◌, []};
ghost use Rattle.kinds.specs.declared.Horizon.{Horizon};
ghost use Rattle.rules.specs.Memory.{lent};
ghost use Rattle.rules.specs.Slices.{before, after};
ghost use Rattle.boundary.specs.Calls.{abi_version, izr_bucket_index_for_rate, seen, izr_new, izr_tx_entered, izr_tx_left, izr_block_connected, izr_estimate, izr_to_history_bytes, izr_from_history_bytes};

use kinds::Horizon;

// ---- of no board

// The version of this ABI. A caller holds it against the number that it was written for.
#[unsafe(no_mangle)]
pub extern "C" fn izr_version() -> u32
    ensures { result ≡ abi_version }
{
    3
}

// The bucket that a rate belongs to, on either board, or 142 below the floor, where there is none.
#[unsafe(no_mangle)]
pub extern "C" fn izr_bucket_index_for_rate(rate: u64) -> u64
    ensures { result ≡ izr_bucket_index_for_rate rate }
{
    exports::bucket_index_for_rate(rate)
}

// ---- the base board: columns of one block, version 1 of the file

// A fresh start.
#[unsafe(no_mangle)]
pub extern "C" fn izr_new(
    confirmed: &mut [f64],
    resolved: &mut [f64],
    pending: &mut [u8],
    recent: &mut [u8],
    state: &mut [u64],
) -> u32
    ensures { seen result state.new [] (after confirmed resolved pending recent)
        ≡ izr_new Horizon.Base state.old (before confirmed resolved pending recent) }
{
    exports::new(confirmed, resolved, pending, recent, state, Horizon::Base)
}

// Enter (id, rate, height).
#[unsafe(no_mangle)]
pub extern "C" fn izr_tx_entered(
    state: &mut [u64],
    pending: &mut [u8],
    id: &[u8],
    rate: u64,
    height: u32,
) -> u32
    ensures { seen result state.new [] pending.new ≡ izr_tx_entered Horizon.Base state.old pending.old id.now rate height }
{
    exports::tx_entered(state, pending, id, rate, height, Horizon::Base)
}

// Leave (id).
#[unsafe(no_mangle)]
pub extern "C" fn izr_tx_left(state: &mut [u64], pending: &mut [u8], id: &[u8]) -> u32
    ensures { seen result state.new [] pending.new ≡ izr_tx_left Horizon.Base state.old pending.old id.now }
{
    exports::tx_left(state, pending, id, Horizon::Base)
}

// Block (ids, height).
#[unsafe(no_mangle)]
pub extern "C" fn izr_block_connected(
    state: &mut [u64],
    confirmed: &mut [f64],
    resolved: &mut [f64],
    pending: &mut [u8],
    recent: &mut [u8],
    ids: &[u8],
    height: u32,
) -> u32
    ensures { seen result state.new [] (after confirmed resolved pending recent)
        ≡ izr_block_connected Horizon.Base state.old (before confirmed resolved pending recent) ids.now height }
{
    exports::block_connected(
        state,
        confirmed,
        resolved,
        pending,
        recent,
        ids,
        height,
        Horizon::Base,
    )
}

// Estimate (target). It carries the rate, or 0 where there is none.
#[unsafe(no_mangle)]
pub extern "C" fn izr_estimate(
    state: &[u64],
    confirmed: &[f64],
    resolved: &[f64],
    target: u32,
    carried: &mut [u64],
) -> u32
    ensures { seen result state.now carried.new tt ≡ izr_estimate Horizon.Base state.now confirmed.now resolved.now target carried.old }
{
    exports::estimate(state, confirmed, resolved, target, carried, Horizon::Base)
}

// Writes the history file, version 1. It carries how many bytes were written, or are needed.
#[unsafe(no_mangle)]
pub extern "C" fn izr_to_history_bytes(
    state: &[u64],
    confirmed: &[f64],
    resolved: &[f64],
    pending: &[u8],
    recent: &[u8],
    out: &mut [u8],
    carried: &mut [u64],
) -> u32
    ensures { seen result state.now carried.new out.new
        ≡ izr_to_history_bytes Horizon.Base state.now (lent confirmed.now resolved.now pending.now recent.now) out.old carried.old }
{
    exports::to_history_bytes(
        state,
        confirmed,
        resolved,
        pending,
        recent,
        out,
        carried,
        Horizon::Base,
    )
}

// Reads a history file of version 1. It carries the version, where that is another.
#[unsafe(no_mangle)]
pub extern "C" fn izr_from_history_bytes(
    bytes: &[u8],
    confirmed: &mut [f64],
    resolved: &mut [f64],
    pending: &mut [u8],
    recent: &mut [u8],
    state: &mut [u64],
    carried: &mut [u64],
) -> u32
    ensures { seen result state.new carried.new (after confirmed resolved pending recent)
        ≡ izr_from_history_bytes Horizon.Base bytes.now (before confirmed resolved pending recent) state.old carried.old }
{
    exports::from_history_bytes(
        bytes,
        confirmed,
        resolved,
        pending,
        recent,
        state,
        carried,
        Horizon::Base,
    )
}

// ---- the wide board: columns of six blocks, version 3 of the file

// A fresh start.
#[unsafe(no_mangle)]
pub extern "C" fn izr_wide_new(
    confirmed: &mut [f64],
    resolved: &mut [f64],
    pending: &mut [u8],
    recent: &mut [u8],
    state: &mut [u64],
) -> u32
    ensures { seen result state.new [] (after confirmed resolved pending recent)
        ≡ izr_new Horizon.Wide state.old (before confirmed resolved pending recent) }
{
    exports::new(confirmed, resolved, pending, recent, state, Horizon::Wide)
}

// Enter (id, rate, height).
#[unsafe(no_mangle)]
pub extern "C" fn izr_wide_tx_entered(
    state: &mut [u64],
    pending: &mut [u8],
    id: &[u8],
    rate: u64,
    height: u32,
) -> u32
    ensures { seen result state.new [] pending.new ≡ izr_tx_entered Horizon.Wide state.old pending.old id.now rate height }
{
    exports::tx_entered(state, pending, id, rate, height, Horizon::Wide)
}

// Leave (id).
#[unsafe(no_mangle)]
pub extern "C" fn izr_wide_tx_left(state: &mut [u64], pending: &mut [u8], id: &[u8]) -> u32
    ensures { seen result state.new [] pending.new ≡ izr_tx_left Horizon.Wide state.old pending.old id.now }
{
    exports::tx_left(state, pending, id, Horizon::Wide)
}

// Block (ids, height).
#[unsafe(no_mangle)]
pub extern "C" fn izr_wide_block_connected(
    state: &mut [u64],
    confirmed: &mut [f64],
    resolved: &mut [f64],
    pending: &mut [u8],
    recent: &mut [u8],
    ids: &[u8],
    height: u32,
) -> u32
    ensures { seen result state.new [] (after confirmed resolved pending recent)
        ≡ izr_block_connected Horizon.Wide state.old (before confirmed resolved pending recent) ids.now height }
{
    exports::block_connected(
        state,
        confirmed,
        resolved,
        pending,
        recent,
        ids,
        height,
        Horizon::Wide,
    )
}

// Estimate (target, in blocks: up to 150, in the column that covers it). It carries the rate, or 0 where there is none.
#[unsafe(no_mangle)]
pub extern "C" fn izr_wide_estimate(
    state: &[u64],
    confirmed: &[f64],
    resolved: &[f64],
    target: u32,
    carried: &mut [u64],
) -> u32
    ensures { seen result state.now carried.new tt ≡ izr_estimate Horizon.Wide state.now confirmed.now resolved.now target carried.old }
{
    exports::estimate(state, confirmed, resolved, target, carried, Horizon::Wide)
}

// Writes the history file, version 3. It carries how many bytes were written, or are needed.
#[unsafe(no_mangle)]
pub extern "C" fn izr_wide_to_history_bytes(
    state: &[u64],
    confirmed: &[f64],
    resolved: &[f64],
    pending: &[u8],
    recent: &[u8],
    out: &mut [u8],
    carried: &mut [u64],
) -> u32
    ensures { seen result state.now carried.new out.new
        ≡ izr_to_history_bytes Horizon.Wide state.now (lent confirmed.now resolved.now pending.now recent.now) out.old carried.old }
{
    exports::to_history_bytes(
        state,
        confirmed,
        resolved,
        pending,
        recent,
        out,
        carried,
        Horizon::Wide,
    )
}

// Reads a history file of version 3. It carries the version, where that is another.
#[unsafe(no_mangle)]
pub extern "C" fn izr_wide_from_history_bytes(
    bytes: &[u8],
    confirmed: &mut [f64],
    resolved: &mut [f64],
    pending: &mut [u8],
    recent: &mut [u8],
    state: &mut [u64],
    carried: &mut [u64],
) -> u32
    ensures { seen result state.new carried.new (after confirmed resolved pending recent)
        ≡ izr_from_history_bytes Horizon.Wide bytes.now (before confirmed resolved pending recent) state.old carried.old }
{
    exports::from_history_bytes(
        bytes,
        confirmed,
        resolved,
        pending,
        recent,
        state,
        carried,
        Horizon::Wide,
    )
}
