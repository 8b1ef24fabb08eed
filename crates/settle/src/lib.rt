// The records of a file, in any order and with repeats, brought into a lent table where their ids rise. Of a repeated id the last record holds.
#![tactic(auto)]

mod once;
mod renew;

ghost use Rattle.std.specs.Prelude.{◌≡◌, [], ◌*◌, ◌≤◌, length};
ghost use Rattle.rules.specs.Records.{records, id_of, laid};
ghost use Rattle.format.specs.File.{settled};
ghost use Rattle.sort.specs.Order.{Shuffled, Ordered};

// The records of `src`, which stand in `table` in the order of their ids, each id once. Where no id is repeated there is nothing to do. Else each is kept once, and
// then each record of `src`, in turn, is put where its id stands.
fn settle(table: &mut [u8], src: &[u8], size: usize, n: usize, room: usize) -> usize
    requires le_size { (32 ≤ size) × ((n ≤ room) × ((n * size ≤ length src.now) × (room * size ≤ length table.old))) }
    requires shuffled { Shuffled (records size n src.now) (records size n table.old) }
    requires ordered { Ordered (records size n table.old) }
    ensures value { result ≡ length (settled id_of [] (records size n src.now)) }
    ensures table_after { table.new ≡ laid size room (settled id_of [] (records size n src.now)) table.old }
{
    if ids::ids_rise(table, size, n) {
        mem::zero(table, n * size, room * size);
        return n;
    }
    let k = once::drop_repeats(table, size, n);
    mem::zero(table, k * size, room * size);
    renew::renew_all(table, src, size, k, n);
    k
}

// The first `n` records of `src` come to stand in `table`, with zeros up to `room` places. The answer is how many there are then.
// Where their ids rise they are copied. Else they are sorted, too.
pub fn load_table(table: &mut [u8], src: &[u8], size: usize, n: usize, room: usize) -> usize
    requires { ((32 ≤ size) × (size ≤ 64)) × ((n ≤ room) × ((n * size ≤ length src.now) × (room * size ≤ length table.old))) }
    ensures value { result ≡ length (settled id_of [] (records size n src.now)) }
    ensures table_after { table.new ≡ laid size room (settled id_of [] (records size n src.now)) table.old }
{
    mem::put_bytes(table, 0, &src[..n * size]);
    if ids::ids_rise(table, size, n) {
        mem::zero(table, n * size, room * size);
        return n;
    }
    sort::by_id(table, size, n);
    settle(table, src, size, n, room)
}
