// The header, read: magic, version and what stands after it, last height, bucket count.
#![tactic(auto)]

ghost use Rattle.std.specs.Prelude.{◌≡◌, ◌≤◌, length, drop};
ghost use Rattle.format.specs.Parts.{begun, is_read};
ghost use Rattle.format.specs.File.{version_told, with_bucket_count, read_start, read_after, read_head};
ghost use Rattle.header.specs.Says.{header_says};

use codec::numbers::u64_le;
use kinds::{BUCKET_COUNT, FileVersion, Height, ReadError, WIDE_WIDTH};
use reader::{number, part};
use version::{after_len, number_of};

// BRSEFEES as a number of eight bytes, the first of them lowest.
pub const MAGIC: u64 = 0x5345454645535242;

// The header's end, after the last height: the bucket count, at `at`.
fn ends(s: &[u8], at: usize, last: Option<Height>) -> Result<Option<Height>, ReadError>
    requires { at ≤ length s.now }
    ensures { header_says result ≡ begun (with_bucket_count last (drop at s.now)) }
{
    if s.len() - at < 4 {
        return Err(ReadError::Corrupt);
    }
    if number(s, at) == BUCKET_COUNT as u32 {
        return Ok(last);
    }
    Err(ReadError::Corrupt)
}

// Whether the bytes of the version stand directly after its number.
fn followed(s: &[u8], version: FileVersion) -> bool
    requires { 12 ≤ length s.now }
    ensures { result ≡ is_read (read_after (version_told version) (drop 12 s.now)) }
{
    match version {
        FileVersion::One => true,
        FileVersion::Three => {
            if s.len() < 16 {
                return false;
            }
            number(s, 12) == WIDE_WIDTH
        }
    }
}

// The last height and the bucket count, from `at` on.
fn starts(s: &[u8], at: usize) -> Result<Option<Height>, ReadError>
    requires { at ≤ length s.now }
    ensures { header_says result ≡ begun (read_start (drop at s.now)) }
{
    if s.len() - at < 1 {
        return Err(ReadError::Corrupt);
    }
    let flag = part(s, at, 1)[0];
    match flag {
        0 => ends(s, at + 1, None),
        1 => {
            if s.len() - at < 5 {
                return Err(ReadError::Corrupt);
            }
            let h = number(s, at + 1);
            ends(s, at + 5, Some(Height(h)))
        }
        _ => Err(ReadError::Corrupt),
    }
}

// The header of a history file, up to the buckets: its last height.
pub fn read_header(s: &[u8], version: FileVersion) -> Result<Option<Height>, ReadError>
    ensures { header_says result ≡ begun (read_head (version_told version) s.now) }
{
    if s.len() < 8 {
        return Err(ReadError::Corrupt);
    }
    let m = u64_le(part(s, 0, 8), 0);
    if m != MAGIC {
        return Err(ReadError::BadMagic);
    }
    if s.len() < 12 {
        return Err(ReadError::Corrupt);
    }
    let v = number(s, 8);
    if v != number_of(version) {
        return Err(ReadError::UnknownVersion(v));
    }
    if !followed(s, version) {
        return Err(ReadError::Corrupt);
    }
    starts(s, 12 + after_len(version))
}
