// Counts, cleared.
ghost use Rattle.std.specs.Prelude.{◌≡◌, ◌++◌, ◌≤◌, length, drop};
ghost use Rattle.rules.specs.Counts.{no_counts, places_of_counts};

use kinds::COUNTS;

// Every count of a kind becomes +0.0.
pub fn clear_counts(counts: &mut [f64])
    requires { places_of_counts ≤ length counts.old }
    ensures { counts.new ≡ no_counts ++ drop places_of_counts counts.old }
{
    counts[..COUNTS].fill(0.0);
}
