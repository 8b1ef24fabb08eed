// Whether tables are sound.
ghost use Rattle.std.specs.Prelude.{◌≡◌, ◌&&◌, [], map, ◌*◌, ◌≤◌, ◌<◌, leb, length, get_or};
ghost use Rattle.std.proofs.Math.Seq.{slice};
ghost use Rattle.rules.specs.Lists.{every};
ghost use Rattle.rules.specs.Ids.{rising};
ghost use Rattle.rules.specs.Records.{records, id_of, capacity, all_zero};
ghost use Rattle.rules.specs.Memory.{sound_pending, sound_confirmed};
ghost use Rattle.rules.specs.Board.{board_of, pending_size, pending_of, in_range};

use kinds::{
    BUCKET_COUNT, CONFIRMED_SIZE, Horizon, MAX_CONF_TARGET, MAX_CONFIRMED_RECORDS,
    MAX_PENDING_ENTRIES,
};

// Whether the bytes from `from` to `to` are all zero. The fold has no way out, so that many bytes are looked at together.
fn zero_between(table: &[u8], from: usize, to: usize) -> bool
    requires { (from ≤ to) × (to ≤ length table.now) }
    ensures { result ≡ all_zero (slice from to table.now) }
{
    table[from..to].iter().fold(true, |ok, x| ok & (*x == 0))
}

// Whether there is room for the first `used` records, with zeros behind them up to the capacity.
fn room_and_zeros(table: &[u8], size: usize, most: usize, used: usize) -> bool
    requires { 32 ≤ size }
    ensures { result ≡ (leb used (capacity size most table.now) && all_zero (slice (used * size) (capacity size most table.now * size) table.now)) }
{
    let cap = table::capacity(table, size, most);
    used <= cap && zero_between(table, used * size, cap * size)
}

// Whether pending record number `i` has a bucket that there is, and a resolved-through not above the last column.
#[tactic(auto, using(crate::proofs::Records::no_bucket, crate::proofs::Records::a_bucket))]
fn one_in_range(table: &[u8], size: usize, used: usize, i: usize) -> bool
    requires { (pending_size ≤ size) × ((i < used) × (used * size ≤ length table.now)) }
    ensures { result ≡ in_range (pending_of (get_or (records size used table.now) i [])) }
{
    let r = table::pending_at(table, size, used, i);
    (r.bucket as usize) < BUCKET_COUNT && r.through as usize <= MAX_CONF_TARGET
}

// Whether the fields of each of `used` pending records of `size` bytes are in range, in a table or in a file.
pub fn in_range(table: &[u8], size: usize, used: usize) -> bool
    requires { (pending_size ≤ size) × (used * size ≤ length table.now) }
    ensures { result ≡ every in_range (map pending_of (records size used table.now)) }
{
    (0..used).all(|i| one_in_range(table, size, used, i))
}

// Whether the ids of the first `used` pending records rise strictly, and the fields of each are in range: one pass, as `ids_rise` and `in_range` are two.
fn records_sound(table: &[u8], size: usize, used: usize) -> bool
    requires { (pending_size ≤ size) × (used * size ≤ length table.now) }
    ensures { result ≡ (rising (map id_of (records size used table.now)) && every in_range (map pending_of (records size used table.now))) }
{
    if used == 0 {
        return true;
    }
    if !one_in_range(table, size, used, 0) {
        return false;
    }
    let mut last = mem::u32_be(table, 0);
    for i in 1..used {
        let at = i * size;
        let next = mem::u32_be(table, at);
        if next <= last {
            if !ids::is_below(table, at - size, table, at) {
                return false;
            }
        }
        if !one_in_range(table, size, used, i) {
            return false;
        }
        last = next;
    }
    true
}

// Whether a pending table is sound.
pub fn judge_pending(table: &[u8], used: usize, on: Horizon) -> bool
    ensures { result ≡ sound_pending (board_of on) used table.now }
{
    let size = boards::record_size(on);
    room_and_zeros(table, size, MAX_PENDING_ENTRIES, used) && records_sound(table, size, used)
}

// Whether a confirmed table is sound.
pub(crate) fn judge_confirmed(table: &[u8], used: usize) -> bool
    ensures { result ≡ sound_confirmed used table.now }
{
    room_and_zeros(table, CONFIRMED_SIZE, MAX_CONFIRMED_RECORDS, used)
        && ids::ids_rise(table, CONFIRMED_SIZE, used)
}
