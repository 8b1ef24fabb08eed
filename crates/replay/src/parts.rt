// Numbers and slices, cut to what there is.
ghost use Rattle.std.specs.Prelude.{◌≤◌};

use kinds::Horizon;

// The first n bytes, or all where there are fewer.
pub(crate) fn front(s: &[u8], n: usize) -> &[u8] {
    &s[..n.min(s.len())]
}

// Where a board's own places begin, of all that there are: the narrow board has the first `most`, and the wide one those behind them.
pub(crate) fn begins(most: usize, all: usize, on: Horizon) -> usize
    ensures { (result ≤ most) × (result ≤ all) }
{
    match on {
        Horizon::Base => 0,
        Horizon::Wide => most.min(all),
    }
}

// Where n places from there on end.
pub(crate) fn ends(from: usize, n: usize, all: usize) -> usize
    requires { from ≤ all }
    ensures { (from ≤ result) × (result ≤ all) }
{
    from + n.min(all - from)
}
