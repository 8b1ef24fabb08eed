// Whether counts are sound.
ghost use Rattle.std.specs.Prelude.{◌≡◌};
ghost use Rattle.rules.specs.Counts.{sound_count};
ghost use Rattle.rules.specs.Memory.{sound_counts};

use kinds::COUNTS;

// Whether a count is finite and not below 0: x - x is 0 for a finite x, and no number otherwise.
pub fn sound_count(x: f64) -> bool
    ensures { result ≡ sound_count x }
{
    x - x <= x
}

// Whether a slice has the counts of a kind, each of them sound. The fold has no way out, so that several counts are looked at together.
pub fn sound_counts(counts: &[f64]) -> bool
    ensures { result ≡ sound_counts counts.now }
{
    if counts.len() < COUNTS {
        return false;
    }
    counts[..COUNTS]
        .iter()
        .fold(true, |ok, x| ok & sound_count(*x))
}
