// What is done to the lent memory itself.
ghost use Rattle.std.specs.Prelude.{◌≡◌, ◌+◌, leb, length, replicate};
ghost use Rattle.rules.specs.Counts.{nought};
ghost use Rattle.rules.specs.Slices.{before, after};
ghost use Rattle.desk_lays.specs.Lays.{cleared, laid, with_bytes, with_count, byte_lays, count_lays, has_room, has_place, lain, line_lays};

use lines::Line;
use page::Operation;
use print::put;
use script::sums::double_of;

// lend: what was lent becomes zero.
#[tactic(auto, unfolding(crate::specs::Lays::cleared))]
fn clear(pending: &mut [u8], recent: &mut [u8], confirmed: &mut [f64], resolved: &mut [f64])
    ensures { after confirmed resolved pending recent ≡ cleared (before confirmed resolved pending recent) }
{
    pending.fill(0);
    recent.fill(0);
    confirmed.fill(0.0);
    resolved.fill(0.0);
}

// Whether n bytes at `at` are within so many.
fn has_room(at: usize, n: usize, all: usize) -> bool
    ensures { result ≡ leb (at + n) all }
{
    if all < at {
        return false;
    }
    n <= all - at
}

// The bytes of text stand at `at`, if there is room: whether there is.
fn put_bytes(table: &mut [u8], at: usize, text: &[u8]) -> bool
    ensures { (result ≡ has_room at text.now table.old) × (table.new ≡ with_bytes at text.now table.old) }
{
    let fits = has_room(at, text.len(), table.len());
    put(table, at, text);
    fits
}

// The count at `at` becomes the double of these bits, if there is such a place: whether there is.
#[tactic(auto, unfolding(crate::specs::Lays::with_count))]
fn put_count(counts: &mut [f64], at: usize, bits: u64) -> bool
    ensures { (result ≡ has_place at counts.old) × (counts.new ≡ with_count at bits counts.old) }
{
    if at < counts.len() {
        counts[at] = double_of(bits);
        return true;
    }
    false
}

// byte: the table that the line names gets the bytes, if they fit it.
#[tactic(auto, using(crate::proofs::Laying::in_first, crate::proofs::Laying::in_second), unfolding(crate::specs::Lays::byte_lays))]
fn lay_bytes(line: Line, text: &[u8], pending: &mut [u8], recent: &mut [u8]) -> bool
    ensures { laid result pending.new recent.new
        ≡ byte_lays line text.now pending.old recent.old }
{
    let at = line.b as usize;
    if line.a == 0 {
        return put_bytes(pending, at, text);
    }
    put_bytes(recent, at, text)
}

// count: one count of the kind that the line names becomes another, if there is such a place.
#[tactic(auto, using(crate::proofs::Laying::in_first, crate::proofs::Laying::in_second), unfolding(crate::specs::Lays::count_lays))]
fn lay_count(line: Line, confirmed: &mut [f64], resolved: &mut [f64]) -> bool
    ensures { laid result confirmed.new resolved.new
        ≡ count_lays line confirmed.old resolved.old }
{
    let at = line.b as usize;
    if line.a == 0 {
        return put_count(confirmed, at, line.c);
    }
    put_count(resolved, at, line.c)
}

// The lines that work on lent memory itself: whether they fit it. Any other line fits, and leaves it as it is.
#[tactic(auto, using(crate::proofs::Rows::others), unfolding(crate::specs::Lays::operation_lays))]
pub fn lay(
    line: Line,
    text: &[u8],
    pending: &mut [u8],
    recent: &mut [u8],
    confirmed: &mut [f64],
    resolved: &mut [f64],
) -> bool
    ensures { lain result (after confirmed resolved pending recent)
        ≡ line_lays line text.now (before confirmed resolved pending recent) }
{
    let of = line.operation;
    match of {
        Operation::Lend => {
            clear(pending, recent, confirmed, resolved);
            true
        }
        Operation::Byte => lay_bytes(line, text, pending, recent),
        Operation::Count => lay_count(line, confirmed, resolved),
        _ => true,
    }
}
