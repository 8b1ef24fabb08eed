// From time to column: column c of a board is for waits up to c widths.
ghost use Rattle.std.specs.Prelude.{◌≡◌, ℕ, ◌*◌, ◌<◌, leb};
ghost use Rattle.rules.specs.Board.{board_of};
ghost use Rattle.rules.specs.Estimate.{column_of};

use crate::width_of;
use kinds::{Blocks, Horizon, MAX_CONF_TARGET};

// The first column that a wait fits, where columns are `width` wide.
pub fn first_column(wait: Blocks, width: Blocks) -> u32
    requires { 0 < width.0 }
    ensures { (c : ℕ) → leb result c ≡ leb wait.0 (width.0 * c) }
{
    wait.0.div_ceil(width.0)
}

// The column that covers a target: the first that it fits, or the last where it fits none.
pub fn column_of(target: Blocks, on: Horizon) -> usize
    ensures { result ≡ column_of (board_of on) target.0 }
{
    let c = first_column(target, width_of(on)) as usize;
    c.min(MAX_CONF_TARGET)
}
