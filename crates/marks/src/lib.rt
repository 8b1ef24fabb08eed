// Which records of a table are listed: a byte for each record, by its place. And the records whose mark is 0 stay.
// Bytes and no enum: the definitions beside, noted and picked speak of the numbers 0, 1 and 2.
#![tactic(auto)]

ghost use Rattle.std.specs.Prelude.{◌≡◌, true, map, ◌++◌, ◌*◌, ◌≤◌, length, take, drop, replicate};
ghost use Rattle.rules.specs.Ids.{rising};
ghost use Rattle.rules.specs.Records.{records, id_of, laid};
ghost use Rattle.rules.specs.Board.{pending_most};
ghost use Rattle.rules.specs.Calls.{ids_of};
ghost use Rattle.ids.specs.Search.{find_in};
ghost use Rattle.batch.specs.Needed.{listed};
ghost use Rattle.batch.specs.Picked.{picked};
ghost use Rattle.marks.specs.Marks.{beside, noted};

use ids::{find, id_at};
use kinds::{ID_SIZE, MAX_PENDING_ENTRIES};

// A mark for each pending record that there may be: none is marked.
pub fn no_marks() -> [u8; MAX_PENDING_ENTRIES]
    ensures { result ≡ replicate pending_most 0 }
{
    [0u8; MAX_PENDING_ENTRIES]
}

// The record of the id is marked, if there is one.
fn mark(table: &[u8], size: usize, used: usize, id: &[u8; 32], marks: &mut [u8])
    requires le_size { (32 ≤ size) × (used * size ≤ length table.now) }
    requires table_value { rising (map id_of (records size used table.now)) ≡ true }
    requires used_in_bounds { used ≤ length marks.old }
    ensures { marks.new ≡ noted (find_in id.now (map id_of (records size used table.now))) marks.old }
{
    if let Ok(i) = find(table, size, used, id) {
        marks[i] = 1;
    }
}

// Each record whose id is listed is marked, once or often.
pub fn mark_listed(table: &[u8], size: usize, used: usize, ids: &[u8], marks: &mut [u8])
    requires le_size { (32 ≤ size) × (used * size ≤ length table.now) }
    requires table_value { rising (map id_of (records size used table.now)) ≡ true }
    requires used_in_bounds { (used ≤ length marks.old) × (take used marks.old ≡ replicate used 0) }
    ensures { marks.new ≡ beside id_of (listed (ids_of ids.now)) (records size used table.now) ++ drop used marks.old }
{
    for id in ids.chunks_exact(ID_SIZE) {
        mark(table, size, used, id_at(id, 0), marks);
    }
}

// Keeps the records whose mark is 0, in order, and zeroes the places that are left. The answer is how many stay.
pub fn drop_marked(table: &mut [u8], size: usize, used: usize, marks: &[u8]) -> usize
    requires { (32 ≤ size) × ((used * size ≤ length table.old) × (used ≤ length marks.now)) }
    ensures value { result ≡ length (picked 0 marks.now (records size used table.old)) }
    ensures table_after { table.new ≡ laid size used (picked 0 marks.now (records size used table.old)) table.old }
{
    let mut k = 0;
    for i in 0..used {
        k = table::keep_record(table, size, k, i, marks[i] == 0);
    }
    mem::zero(table, k * size, used * size);
    k
}
