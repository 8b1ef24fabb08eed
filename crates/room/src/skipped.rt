// What the skipped heights leave: the last of them decides.
ghost use Rattle.std.specs.Prelude.{◌≡◌, [], ◌*◌, ◌≤◌, ◌<◌, length, get_or};
ghost use Rattle.rules.specs.Records.{records};
ghost use Rattle.rules.specs.Board.{board_of};
ghost use Rattle.room.specs.Room.{last_skipped, least_height, lasts_through};

use kinds::{Height, Horizon, MAX_CONF_TARGET};

// The last of the heights that a block at h skips, if it skips any.
#[tactic(auto, unfolding(crate::specs::Room::last_skipped, batch::specs::Needed::skips))]
pub(crate) fn last_skipped(last: Option<Height>, h: Height) -> Option<Height>
    ensures { result ≡ last_skipped last h.0 }
{
    let low = last?;
    let before = h.0.saturating_sub(1);
    if low.0 < before {
        return Some(Height(before));
    }
    None
}

// The least height of a confirmed record that stays through the skipped heights, by the last of them.
#[tactic(auto, unfolding(crate::specs::Room::least_height))]
pub(crate) fn least_height(skipped: Option<Height>) -> Height
    ensures { result.0 ≡ least_height skipped }
{
    match skipped {
        Some(h) => Height(h.0.saturating_sub(MAX_CONF_TARGET as u32)),
        None => Height(0),
    }
}

// Whether pending record number `i` lasts through the skipped heights: some column is left that it is not resolved through and has not outwaited.
pub(crate) fn lasts(
    pending: &[u8],
    used: usize,
    i: usize,
    skipped: Option<Height>,
    on: Horizon,
) -> bool
    requires { (i < used) × (used * (board_of on).table.size ≤ length pending.now) }
    ensures { result ≡ lasts_through (board_of on) skipped ((board_of on).table.read (get_or (records (board_of on).table.size used pending.now) i [])) }
{
    let Some(h) = skipped else {
        return true;
    };
    let size = boards::record_size(on);
    let width = boards::width_of(on);
    let most = MAX_CONF_TARGET as u32;
    let r = table::pending_at(pending, size, used, i);
    let reach = boards::outwaited(h, r.entry, width);
    r.through.max(reach) < most
}
