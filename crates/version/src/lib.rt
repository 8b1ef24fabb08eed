// What one version of the file differs from another in, as numbers.
#![tactic(auto)]

ghost use Rattle.std.specs.Prelude.{◌≡◌, ◌≤◌, length};
ghost use Rattle.rules.specs.Board.{pending_size};
ghost use Rattle.format.specs.File.{version_told};

use kinds::{FileVersion, PENDING_SIZE};

// The number of a version. (No `From`: an impl would stand in `kinds`, below the definition `version_told` that the contract names.)
pub fn number_of(version: FileVersion) -> u32
    ensures { result ≡ (version_told version).number }
{
    match version {
        FileVersion::One => kinds::HISTORY_VERSION,
        FileVersion::Three => kinds::WIDE_HISTORY_VERSION,
    }
}

// How many bytes stand directly after the number.
pub fn after_len(version: FileVersion) -> usize
    ensures value { result ≡ length (version_told version).after }
    ensures upper_bound { result ≤ 4 }
{
    match version {
        FileVersion::One => 0,
        FileVersion::Three => 4,
    }
}

// How many bytes a pending record takes in the file: at least an id and three numbers.
pub fn record_size(version: FileVersion) -> usize
    ensures value { result ≡ (version_told version).records.size }
    ensures lower_bound { (pending_size ≤ result) × (result ≤ 64) }
{
    match version {
        FileVersion::One | FileVersion::Three => PENDING_SIZE,
    }
}
