// The header, put: magic, version and what stands after it, last height, bucket count.
ghost use Rattle.std.specs.Prelude.{◌≡◌, ◌++◌, ◌+◌, ◌≤◌, length};
ghost use Rattle.std.proofs.lemmas.List.Edits.{sets};
ghost use Rattle.rules.specs.Ladder.{buckets};
ghost use Rattle.rules.specs.Bytes.{bytes};
ghost use Rattle.format.specs.File.{version_told, last_bytes, head_bytes, height_length};
ghost use Rattle.parse.specs.Says.{head_size};

use codec::numbers::{put_u8, put_u64};
use header::MAGIC;
use kinds::{BUCKET_COUNT, FileVersion, Height, WIDE_WIDTH};
use version::{after_len, number_of};

// How many bytes a header with this last height has.
pub fn header_len(last: Option<Height>, version: FileVersion) -> usize
    ensures value { result ≡ head_size (version_told version) last }
    ensures upper_bound { result ≤ 21 + 4 }
{
    let n = after_len(version);
    match last {
        None => 17 + n,
        Some(_) => 21 + n,
    }
}

// What stands directly after the version number is put into out.
fn put_after(out: &mut [u8], version: FileVersion)
    requires { 16 ≤ length out.old }
    ensures { out.new ≡ sets out.old 12 (version_told version).after }
{
    match version {
        FileVersion::One => {}
        FileVersion::Three => {
            mem::put_u32(out, 12, WIDE_WIDTH);
        }
    }
}

// The last height and the bucket count are put into out from `at` on.
fn put_last(out: &mut [u8], at: usize, last: Option<Height>)
    requires { at + 5 + height_length last ≤ length out.old }
    ensures { out.new ≡ sets out.old at (last_bytes last ++ bytes 4 buckets) }
{
    match last {
        None => {
            put_u8(out, at, 0);
            mem::put_u32(out, at + 1, BUCKET_COUNT as u32);
        }
        Some(h) => {
            put_u8(out, at, 1);
            mem::put_u32(out, at + 1, h.0);
            mem::put_u32(out, at + 5, BUCKET_COUNT as u32);
        }
    }
}

// The header is put first into out.
pub fn put_header(out: &mut [u8], last: Option<Height>, version: FileVersion)
    requires { head_size (version_told version) last ≤ length out.old }
    ensures { out.new ≡ sets out.old 0 (head_bytes (version_told version) last) }
{
    put_u64(out, 0, MAGIC);
    mem::put_u32(out, 8, number_of(version));
    put_after(out, version);
    put_last(out, 12 + after_len(version), last);
}
