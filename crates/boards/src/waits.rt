// From time to column: what heights and waits are in columns of a width.
ghost use Rattle.std.specs.Prelude.{◌≡◌, ◌-◌, ◌/◌, min, ◌<◌};
ghost use Rattle.rules.specs.Counts.{columns};
ghost use Rattle.rules.specs.Estimator.{wait};

use kinds::{Blocks, Height, MAX_CONF_TARGET};

// How long a transaction has waited at height h: at least one block.
pub fn waited(entry: Height, h: Height) -> Blocks
    ensures { result.0 ≡ wait h.0 entry.0 }
{
    Blocks(h.0.saturating_sub(entry.0).max(1))
}

// How many whole widths a wait has. (Columns of one block need no division, which a pass over many records would pay for.)
fn whole_widths(wait: u32, width: Blocks) -> u32
    requires { 0 < width.0 }
    ensures { result ≡ wait / width.0 }
{
    if width.0 == 1 {
        return wait;
    }
    wait / width.0
}

// How many columns a record has outwaited at height h.
pub fn outwaited(h: Height, entry: Height, width: Blocks) -> u32
    requires { 0 < width.0 }
    ensures { result ≡ min columns ((h.0 - entry.0) / width.0) }
{
    let most = MAX_CONF_TARGET as u32;
    whole_widths(h.0.saturating_sub(entry.0), width).min(most)
}
