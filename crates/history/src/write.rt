// Writing the history file from the lent memory.
ghost use Rattle.std.specs.Prelude.{◌≡◌, true, ◌≤◌, length};
ghost use Rattle.std.proofs.lemmas.List.Edits.{sets};
ghost use Rattle.kinds.specs.Answers.{write_answer, length_of};
ghost use Rattle.rules.specs.Memory.{sound, view, lent};
ghost use Rattle.rules.specs.Calls.{outcome};
ghost use Rattle.format.specs.File.{version_told, history_of, history_length};
ghost use Rattle.format.specs.Calls.{output, write_call};
ghost use Rattle.rules.specs.Board.{board_of, pending_most, confirmed_most};

use codec::buckets::put_buckets;
use codec::numbers::put_records;
use judge::judge_memory;
use kinds::{BUCKETS_SIZE, CONFIRMED_SIZE, FileVersion, Horizon, State, WriteError};
use parse::{header_len, put_header};
use version::record_size;

// How long the file is: the header, the buckets, and each table with its number of records in four bytes.
fn history_len(s: State, version: FileVersion) -> usize
    requires { (s.pending ≤ pending_most) × (s.recent ≤ confirmed_most) }
    ensures { result ≡ history_length (version_told version) s.last s.pending s.recent }
{
    let tables = 8 + s.pending * record_size(version) + s.recent * CONFIRMED_SIZE;
    header_len(s.last, version) + BUCKETS_SIZE + tables
}

// The file of sound memory is put first into out: header, buckets, pending records, confirmed records.
fn encode(
    s: State,
    confirmed: &[f64],
    resolved: &[f64],
    pending: &[u8],
    recent: &[u8],
    out: &mut [u8],
    version: FileVersion,
    on: Horizon,
)
    requires recent_value { sound (board_of on) s (lent confirmed.now resolved.now pending.now recent.now) ≡ true }
    requires recent_in_bounds { history_length (version_told version) s.last s.pending s.recent ≤ length out.old }
    ensures { out.new ≡ sets out.old 0 (history_of (version_told version) (view (board_of on) s (lent confirmed.now resolved.now pending.now recent.now))) }
{
    let size = boards::record_size(on);
    let at = header_len(s.last, version);
    let first = at + BUCKETS_SIZE;
    let next = first + 4 + s.pending * record_size(version);
    put_header(out, s.last, version);
    put_buckets(out, at, confirmed, resolved);
    put_records(out, first, pending, size, s.pending);
    put_records(out, next, recent, CONFIRMED_SIZE, s.recent);
}

// Writes the history file, of this version and from the memory of this board: how many bytes it has.
pub fn to_history_bytes(
    s: State,
    confirmed: &[f64],
    resolved: &[f64],
    pending: &[u8],
    recent: &[u8],
    out: &mut [u8],
    version: FileVersion,
    on: Horizon,
) -> Result<usize, WriteError>
    ensures { outcome (write_answer result) s (output (length_of result) out.new)
        ≡ write_call (version_told version) (board_of on) s (lent confirmed.now resolved.now pending.now recent.now) out.old }
{
    if !judge_memory(s, confirmed, resolved, pending, recent, on) {
        return Err(WriteError::Damaged);
    }
    let n = history_len(s, version);
    if out.len() < n {
        return Err(WriteError::ShortOutput(n));
    }
    encode(s, confirmed, resolved, pending, recent, out, version, on);
    Ok(n)
}
