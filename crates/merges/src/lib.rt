// New confirmed records are merged into the table in place, from the last to the first. Each record moves at most once, together with those between two new ones.
#![tactic(auto)]

ghost use Rattle.std.specs.Prelude.{◌≡◌, true, map, ◌+◌, ◌*◌, ◌≤◌, ◌<◌, length};
ghost use Rattle.rules.specs.Ids.{rising};
ghost use Rattle.rules.specs.Board.{confirmed_size, confirmed_bytes};
ghost use Rattle.rules.specs.Records.{records, id_of, laid};
ghost use Rattle.ids.specs.Search.{find_in};
ghost use Rattle.batch.specs.Batch.{merged};
ghost use Rattle.batch.specs.Picked.{picked};
ghost use Rattle.merges.specs.New.{at_height, rank_of, opened, Given};

use kinds::{CONFIRMED_SIZE, HEIGHT_AT, Height};

// How many of the first `n` confirmed records do not stand above the id.
fn rank(recent: &[u8], n: usize, id: &[u8; 32]) -> usize
    requires confirmed_size_in_bounds { n * confirmed_size ≤ length recent.now }
    requires recent_value { rising (map id_of (records confirmed_size n recent.now)) ≡ true }
    ensures { result ≡ rank_of (find_in id.now (map id_of (records confirmed_size n recent.now))) }
{
    match ids::find(recent, CONFIRMED_SIZE, n, id) {
        Ok(i) => i + 1,
        Err(i) => i,
    }
}

// The confirmed records from number `i` to `n` move up by `left` places, and a record of the id and of `h` is put below them.
fn put_below(recent: &mut [u8], i: usize, n: usize, left: usize, id: &[u8; 32], h: Height)
    requires i_le_n { (i ≤ n) × ((0 < left) × ((n + left) * confirmed_size ≤ length recent.old)) }
    ensures { recent.new ≡ opened i n left (confirmed_bytes (record { id = id.entry.now; height = h.0 })) recent.old }
{
    mem::shift_up(
        recent,
        i * CONFIRMED_SIZE,
        n * CONFIRMED_SIZE,
        left * CONFIRMED_SIZE,
    );
    let at = (i + left - 1) * CONFIRMED_SIZE;
    mem::put_bytes(recent, at, id);
    mem::put_u32(recent, at + HEIGHT_AT, h.0);
}

// A record of the id and of `h` goes in above those of the first `n` confirmed records that it is not below; the answer is how many these are.
fn place(recent: &mut [u8], n: usize, left: usize, id: &[u8; 32], h: Height) -> usize
    requires left_nonzero { (0 < left) × ((n + left) * confirmed_size ≤ length recent.old) }
    requires recent_value { rising (map id_of (records confirmed_size n recent.old)) ≡ true }
    ensures value { result ≡ rank_of (find_in id.now (map id_of (records confirmed_size n recent.old))) }
    ensures recent_after { recent.new ≡ opened result n left (confirmed_bytes (record { id = id.entry.now; height = h.0 })) recent.old }
{
    let i = rank(recent, n, id);
    put_below(recent, i, n, left, id, h);
    i
}

// The new records are those of the ids of `table` whose mark is 1, `fresh` of them.
pub fn merge(
    table: &[u8],
    size: usize,
    used: usize,
    marks: &[u8],
    recent: &mut [u8],
    kept: usize,
    fresh: usize,
    h: Height,
)
    requires { Given size used kept fresh table.now marks.now recent.old }
    ensures { recent.new
        ≡ laid confirmed_size (kept + fresh) (merged id_of (picked 1 marks.now (map (at_height h.0) (records size used table.now))) (records confirmed_size kept recent.old)) recent.old }
{
    let mut n = kept;
    let mut left = fresh;
    for j in (0..used).rev() {
        if left == 0 {
            break;
        }
        if marks[j] == 1 {
            let at = j * size;
            n = place(recent, n, left, ids::id_at(table, at), h);
            left -= 1;
        }
    }
}
