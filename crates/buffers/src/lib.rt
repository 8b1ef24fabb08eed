// What the programs read into: arrays of zeros, and an input read to its end.
#![tactic(auto)]

ghost use Rattle.std.specs.Prelude.{◌≡◌, length, All, IfOk};
ghost use Rattle.std.specs.Io.{ReadsAtMost};
ghost use Rattle.buffers.specs.Filled.{Filled};

use std::io;
use std::io::Read;

// Zeros. The clauses do not name the array, which would stand in all that a caller proves.
pub fn zeros<const N: usize>() -> [u8; N]
    ensures long { length result ≡ N }
    ensures zero { All (λ x. x ≡ 0) result }
{
    [0u8; N]
}

// Reads until the buffer is full or the input ends; how many bytes were read. (The `while` ends with the input: each read says how far n goes, so no range is counted.)
pub fn read_full<R: Read>(input: &mut R, buf: &mut [u8]) -> io::Result<usize>
    ensures within { ReadsAtMost result buf.new }
    ensures filled { IfOk result (λ n. Filled (R.remaining input.old) buf.new n) }
{
    let mut n = 0;
    while n < buf.len() {
        let more = input.read(&mut buf[n..])?;
        if more == 0 {
            return Ok(n);
        }
        n += more;
    }
    Ok(n)
}
