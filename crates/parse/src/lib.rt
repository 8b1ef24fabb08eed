// The history file: its header, put, its buckets, and the whole of it, judged before anything is stored.
#![tactic(auto)]

mod buckets;
mod head;

ghost use Rattle.std.specs.Prelude.{◌≡◌};
ghost use Rattle.format.specs.File.{version_told, read_history};
ghost use Rattle.parse.specs.Says.{file_says};

use buckets::buckets_ok;
pub use buckets::load_buckets;
pub use head::{header_len, put_header};
use header::read_header;
use kinds::{BUCKETS_SIZE, FileVersion, Height, ReadError};
use tables::read_tables;

// What is read of a file before its counts and records: the last height, and how many records each table has.
#[derive(Clone, Copy, Debug, PartialEq, Eq)]
pub struct Checked {
    pub last: Option<Height>,
    pub pending: usize,
    pub recent: usize,
}

// Whether the bytes are a history file, and which: the header, then the buckets, then the tables.
pub fn check(s: &[u8], version: FileVersion) -> Result<Checked, ReadError>
    ensures { file_says (version_told version) result s.now ≡ read_history (version_told version) s.now }
{
    let last = read_header(s, version)?;
    let at = header_len(last, version);
    if s.len() - at < BUCKETS_SIZE {
        return Err(ReadError::Corrupt);
    }
    if !buckets_ok(s, at) {
        return Err(ReadError::Corrupt);
    }
    let sizes = read_tables(s, at + BUCKETS_SIZE, version).ok_or(ReadError::Corrupt)?;
    Ok(Checked {
        last,
        pending: sizes.pending,
        recent: sizes.recent,
    })
}
