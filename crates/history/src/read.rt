// Reading a history file into the lent memory. Nothing is stored before the whole file is accepted.
ghost use Rattle.std.specs.Prelude.{◌≡◌, ◌≤◌, length};
ghost use Rattle.kinds.specs.Answers.{read_answer, state_or};
ghost use Rattle.rules.specs.Board.{board_of};
ghost use Rattle.rules.specs.Counts.{places_of_counts};
ghost use Rattle.rules.specs.Estimator.{fresh};
ghost use Rattle.rules.specs.Memory.{state_of};
ghost use Rattle.rules.specs.Slices.{before, after};
ghost use Rattle.rules.specs.Calls.{outcome};
ghost use Rattle.format.specs.Parts.{good};
ghost use Rattle.format.specs.File.{version_told, read_history};
ghost use Rattle.format.specs.Calls.{taken_in, read_call};
ghost use Rattle.parse.specs.Says.{filed};

use kinds::{
    BUCKETS_SIZE, CONFIRMED_SIZE, COUNTS, FileVersion, Horizon, MAX_CONFIRMED_RECORDS,
    MAX_PENDING_ENTRIES, ReadError, State,
};
use parse::{Checked, check, header_len, load_buckets};
use reader::part;
use settle::load_table;
use version::record_size;

// What becomes of a file that was read: its counts and records are stored if both tables have room for its records, repeats counted.
// Between the header and the records stand the buckets, and before each table's records their number in four bytes.
fn take_in(
    bytes: &[u8],
    read: Checked,
    confirmed: &mut [f64],
    resolved: &mut [f64],
    pending: &mut [u8],
    recent: &mut [u8],
    version: FileVersion,
    on: Horizon,
) -> Result<State, ReadError>
    requires bytes_value { read_history (version_told version) bytes.now ≡ good (filed (version_told version) read bytes.now) }
    requires places_of_counts_in_bounds { (places_of_counts ≤ length confirmed.old) × (places_of_counts ≤ length resolved.old) }
    ensures { outcome (read_answer result) (state_or (state_of fresh) result) (after confirmed resolved pending recent)
        ≡ taken_in (board_of on) (before confirmed resolved pending recent) (good (filed (version_told version) read bytes.now)) }
{
    let size = boards::record_size(on);
    let most = table::capacity(pending, size, MAX_PENDING_ENTRIES);
    if most < read.pending {
        return Err(ReadError::NoRoom);
    }
    let more = table::capacity(recent, CONFIRMED_SIZE, MAX_CONFIRMED_RECORDS);
    if more < read.recent {
        return Err(ReadError::NoRoom);
    }
    let at = header_len(read.last, version);
    let first = at + BUCKETS_SIZE + 4;
    let len = read.pending * record_size(version);
    let next = first + len + 4;
    load_buckets(bytes, at, confirmed, resolved);
    let p = load_table(pending, part(bytes, first, len), size, read.pending, most);
    let rest = part(bytes, next, read.recent * CONFIRMED_SIZE);
    let q = load_table(recent, rest, CONFIRMED_SIZE, read.recent, more);
    Ok(State {
        last: read.last,
        pending: p,
        recent: q,
    })
}

// Reads a history file, of this version and into the memory of this board.
pub fn from_history_bytes(
    bytes: &[u8],
    confirmed: &mut [f64],
    resolved: &mut [f64],
    pending: &mut [u8],
    recent: &mut [u8],
    version: FileVersion,
    on: Horizon,
) -> Result<State, ReadError>
    ensures { outcome (read_answer result) (state_or (state_of fresh) result) (after confirmed resolved pending recent)
        ≡ read_call (version_told version) (board_of on) (before confirmed resolved pending recent) bytes.now }
{
    if confirmed.len() < COUNTS {
        return Err(ReadError::Damaged);
    }
    if resolved.len() < COUNTS {
        return Err(ReadError::Damaged);
    }
    let read = check(bytes, version)?;
    take_in(
        bytes, read, confirmed, resolved, pending, recent, version, on,
    )
}
