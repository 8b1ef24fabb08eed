// What a horizon stands for in numbers: how wide a record and a column of its board are, how its counts decay, and from time to column.
#![tactic(auto)]

mod columns;
mod waits;

ghost use Rattle.std.specs.Prelude.{◌≡◌, ◌≤◌, ◌<◌};
ghost use Rattle.rules.specs.Board.{board_of, pending_size};
ghost use Rattle.floats.specs.Factor.{Factor};

pub use columns::{column_of, first_column};
use kinds::{Blocks, DECAY_FACTOR, Horizon, PENDING_SIZE, WIDE_DECAY_FACTOR, WIDE_WIDTH, WIDTH};
pub use waits::{outwaited, waited};

// How many bytes a pending record takes: at least an id and three numbers.
pub fn record_size(on: Horizon) -> usize
    ensures value { result ≡ (board_of on).table.size }
    ensures lower_bound { pending_size ≤ result }
{
    match on {
        Horizon::Base => PENDING_SIZE,
        Horizon::Wide => PENDING_SIZE,
    }
}

// How many blocks a column is wide.
pub fn width_of(on: Horizon) -> Blocks
    ensures result_value { result.0 ≡ (board_of on).width }
    ensures result_nonzero { 0 < result.0 }
{
    match on {
        Horizon::Base => Blocks(WIDTH),
        Horizon::Wide => Blocks(WIDE_WIDTH),
    }
}

// What every count is multiplied by at a height: above 0 and at most 1.
pub fn factor_of(on: Horizon) -> f64
    ensures value { result ≡ (board_of on).decay }
    ensures factor { Factor result }
{
    match on {
        Horizon::Base => DECAY_FACTOR,
        Horizon::Wide => WIDE_DECAY_FACTOR,
    }
}
