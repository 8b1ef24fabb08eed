// How many confirmed records there will be: those that stay, and one for each listed pending record that lasts and has none of them.
ghost use Rattle.std.specs.Prelude.{◌≡◌, true, ◌&&◌, [], ◌*◌, ◌≤◌, ◌<◌, leb, eqb, length, get_or};
ghost use Rattle.rules.specs.Lists.{count};
ghost use Rattle.rules.specs.Records.{records, sound_table};
ghost use Rattle.rules.specs.Board.{board_of, pending_most, confirmed_size, confirmed_most};
ghost use Rattle.rules.specs.Memory.{pending_records, confirmed_records};
ghost use Rattle.room.specs.Room.{held_above, comes_new, marked_count};

use crate::skipped::{lasts, least_height};
use ids::{find, id_at};
use kinds::{CONFIRMED_SIZE, Height, Horizon};
use table::height_at;

// How many confirmed records have at least the height.
pub(crate) fn count_staying(recent: &[u8], kept: usize, least: Height) -> usize
    requires { kept * confirmed_size ≤ length recent.now }
    ensures { result ≡ count (λ c. leb least.0 c.height) (confirmed_records kept recent.now) }
{
    let low = least.0;
    if low == 0 {
        return kept;
    }
    let mut n: usize = 0;
    for i in 0..kept {
        if low <= height_at(recent, kept, i).0 {
            n += 1;
        }
    }
    n
}

// Whether there is a confirmed record of the id that has at least the height.
fn held_above(recent: &[u8], kept: usize, id: &[u8; 32], least: Height) -> bool
    requires recent_value { sound_table confirmed_size confirmed_most kept recent.now ≡ true }
    ensures { result ≡ held_above least.0 (confirmed_records kept recent.now) id.now }
{
    match find(recent, CONFIRMED_SIZE, kept, id) {
        Ok(i) => least.0 <= height_at(recent, kept, i).0,
        Err(_) => false,
    }
}

// Whether pending record number `i` makes one confirmed record more: it is marked, lasts, and has no confirmed record that stays.
fn adds_one(
    pending: &[u8],
    used: usize,
    i: usize,
    mark: u8,
    recent: &[u8],
    kept: usize,
    skipped: Option<Height>,
    on: Horizon,
) -> bool
    requires i_lt_used { (i < used) × (sound_table (board_of on).table.size pending_most used pending.now ≡ true) }
    requires recent_value { sound_table confirmed_size confirmed_most kept recent.now ≡ true }
    ensures { result
        ≡ (eqb mark 1
        && comes_new (board_of on) skipped (confirmed_records kept recent.now) ((board_of on).table.read (get_or (records (board_of on).table.size used pending.now) i []))) }
{
    if mark != 1 {
        return false;
    }
    if !lasts(pending, used, i, skipped, on) {
        return false;
    }
    let at = i * boards::record_size(on);
    !held_above(recent, kept, id_at(pending, at), least_height(skipped))
}

// How many pending records make one confirmed record more.
pub(crate) fn count_new(
    pending: &[u8],
    used: usize,
    recent: &[u8],
    kept: usize,
    marks: &[u8],
    skipped: Option<Height>,
    on: Horizon,
) -> usize
    requires pending_value { sound_table (board_of on).table.size pending_most used pending.now ≡ true }
    requires recent_value { sound_table confirmed_size confirmed_most kept recent.now ≡ true }
    requires used_in_bounds { used ≤ length marks.now }
    ensures { result ≡ marked_count (comes_new (board_of on) skipped (confirmed_records kept recent.now)) marks.now (pending_records (board_of on) used pending.now) }
{
    let mut n: usize = 0;
    for i in 0..used {
        if adds_one(pending, used, i, marks[i], recent, kept, skipped, on) {
            n += 1;
        }
    }
    n
}
