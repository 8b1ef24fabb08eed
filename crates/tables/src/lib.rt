// The two tables of a file, and its end.
#![tactic(auto)]

ghost use Rattle.std.specs.Prelude.{◌≡◌, ◌≤◌, length, drop, is_some, IfSome};
ghost use Rattle.rules.specs.Board.{confirmed_most};
ghost use Rattle.mem.specs.Le.{le_at};
ghost use Rattle.format.specs.Parts.{ended};
ghost use Rattle.format.specs.File.{version_told, read_tables};
ghost use Rattle.tables.specs.Places.{has_table};
ghost use Rattle.tables.specs.Says.{tables_say};

use kinds::{CONFIRMED_SIZE, FileVersion, MAX_CONFIRMED_RECORDS, MAX_PENDING_ENTRIES};
use reader::{number, part};
use version::record_size;

// How many records each table has.
#[derive(Clone, Copy, Debug, PartialEq, Eq)]
pub struct Sizes {
    pub pending: usize,
    pub recent: usize,
}

// The number of records of `size` bytes that stands at `at`, if it is at most `most` and the file has so many.
fn listed(s: &[u8], at: usize, size: usize, most: usize) -> Option<usize>
    requires { (at ≤ length s.now) × ((size ≤ 64) × (most ≤ confirmed_most)) }
    ensures some { is_some result ≡ has_table size most s.now at }
    ensures count { IfSome result (λ n. n ≡ le_at 4 s.now at) }
{
    if s.len() - at < 4 {
        return None;
    }
    let n = number(s, at) as usize;
    if most < n {
        return None;
    }
    if s.len() - at - 4 < n * size {
        return None;
    }
    Some(n)
}

// Both tables, from `at` on to the end of the file, if they are good and end it.
pub fn read_tables(s: &[u8], at: usize, version: FileVersion) -> Option<Sizes>
    requires { at ≤ length s.now }
    ensures { tables_say (version_told version) result s.now at ≡ ended (read_tables (version_told version) (drop at s.now)) }
{
    let size = record_size(version);
    let n = listed(s, at, size, MAX_PENDING_ENTRIES)?;
    if !judge::in_range(part(s, at + 4, n * size), size, n) {
        return None;
    }
    let next = at + 4 + n * size;
    let m = listed(s, next, CONFIRMED_SIZE, MAX_CONFIRMED_RECORDS)?;
    if next + 4 + m * CONFIRMED_SIZE < s.len() {
        return None;
    }
    Some(Sizes {
        pending: n,
        recent: m,
    })
}
