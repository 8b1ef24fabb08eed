// What the programs do: a history is read from a reader, and what it tells is put into a page. The buffer stands in a proved signature: it has one byte more than the
// longest file, by which a longer one is known.
#![tactic(auto)]

ghost use Rattle.std.specs.Prelude.{◌<◌, ◌≡◌, IfOk, None, OnErr, length, take};
ghost use Rattle.io.specs.Counts.{IsPrefixLen};
ghost use Rattle.std.specs.Io.{ReadsAtMost};
ghost use Rattle.kinds.specs.declared.Horizon.{Horizon};
ghost use Rattle.print.specs.Page.{page};
ghost use Rattle.report.specs.Shown.{of_show, of_inspect, named_by, shown, printed};
ghost use Rattle.views.specs.Read.{PrintsSome, PrintsKnown};

use buffers::{read_full, zeros};
use codec::numbers::take;
use kinds::{CONFIRMED_SIZE, Height, Horizon, PENDING_SIZE};
use report::{PAGE, named_by, report};
use std::io;
use std::io::Read;

// How a program reads a file: at most `longest` bytes, with so much room for its records, and as that board's file; where there is none, as that of the board that the
// file names.
#[derive(Clone, Copy)]
struct View<const FILE: usize, const PENDING: usize, const RECENT: usize> {
    longest: usize,
    on: Option<Horizon>,
}

impl<const FILE: usize, const PENDING: usize, const RECENT: usize> View<FILE, PENDING, RECENT> {
    ghost use Rattle.std.specs.Prelude.{◌≡◌, ◌/◌, ◌<◌, take};
    ghost use Rattle.std.specs.Option.{unwrap_or};
    ghost use Rattle.io.specs.Counts.{IsPrefixLen};
    ghost use Rattle.rules.specs.Board.{pending_size, confirmed_size};
    ghost use Rattle.print.specs.Page.{page};
    ghost use Rattle.report.specs.Shown.{reach, named_by, shown, printed};

    // What is printed of the first n bytes of a buffer that a longer file would fill; the answer is how many bytes that is.
    fn text(self, file: &[u8; FILE], n: usize, chain: Option<Height>, out: &mut [u8; PAGE]) -> usize
        requires { (PENDING < 9223372036854775808) × (RECENT < 9223372036854775808) }
        ensures prefix_len { IsPrefixLen result out.new }
        ensures result_after { page out.new result
            ≡ printed
            (shown (reach (PENDING / pending_size) (RECENT / confirmed_size) self.entry.longest) chain (unwrap_or self.entry.on (named_by (take n file.now))) (take n file.now))
            out.old }
    {
        let part = take(file, n);
        let on = self.on.unwrap_or(named_by(part));
        let mut pending = zeros::<PENDING>();
        let mut recent = zeros::<RECENT>();
        report(
            part,
            self.longest,
            chain,
            &mut pending,
            &mut recent,
            out,
            on,
        )
    }
}

// ---- show

// The most bytes of a file, and the room for its records.
const SHOW_LONGEST: usize = 65536;

const SHOW_PENDING: usize = 172 * PENDING_SIZE;

const SHOW_RECENT: usize = 210 * CONFIRMED_SIZE;

// The bytes that are read at most.
pub const SHOW_BUFFER: usize = SHOW_LONGEST + 1;

// How `show` reads a file: as the base board's.
const SHOW: View<SHOW_BUFFER, SHOW_PENDING, SHOW_RECENT> = View {
    longest: SHOW_LONGEST,
    on: Some(Horizon::Base),
};

// What `show` prints of the first n bytes of a buffer that a longer file would fill; the answer is how many bytes that is.
pub fn show_text(file: &[u8; SHOW_BUFFER], n: usize, out: &mut [u8; PAGE]) -> usize
    ensures prefix_len { IsPrefixLen result out.new }
    ensures longest_in_bounds { of_show.longest < length file.now }
    ensures result_after { page out.new result ≡ printed (shown of_show None Horizon.Base (take n file.now)) out.old }
{
    SHOW.text(file, n, None, out)
}

// Reads a file to its end, and puts what `show` prints of it into `out`; the answer is how many bytes that is.
pub fn show<R: Read>(input: &mut R, out: &mut [u8; PAGE]) -> io::Result<usize>
    ensures within { ReadsAtMost result out.new }
    ensures told { IfOk result (λ k. PrintsSome (shown of_show None Horizon.Base) 65537 (page out.new k) out.old) }
    ensures known { IfOk result (λ k. PrintsKnown (shown of_show None Horizon.Base) (R.remaining input.old) 65537 (page out.new k) out.old) }
    ensures unread { OnErr result (out.new ≡ out.old) }
{
    let mut file = zeros::<SHOW_BUFFER>();
    let n = read_full(input, &mut file)?;
    Ok(show_text(&file, n, out))
}

// ---- inspect

// The most bytes of a file of either board, and the room for its records.
const INSPECT_LONGEST: usize = 3197969;

const INSPECT_PENDING: usize = 10000 * PENDING_SIZE;

const INSPECT_RECENT: usize = 75000 * CONFIRMED_SIZE;

// The bytes that are read at most.
pub const INSPECT_BUFFER: usize = INSPECT_LONGEST + 1;

// How `inspect` reads a file: as that of the board that it names.
const INSPECT: View<INSPECT_BUFFER, INSPECT_PENDING, INSPECT_RECENT> = View {
    longest: INSPECT_LONGEST,
    on: None,
};

// What `inspect` prints of the first n bytes of a buffer that a longer file would fill; the answer is how many bytes that is.
pub fn inspect_text(
    file: &[u8; INSPECT_BUFFER],
    n: usize,
    chain: Option<Height>,
    out: &mut [u8; PAGE],
) -> usize
    ensures prefix_len { IsPrefixLen result out.new }
    ensures longest_in_bounds { of_inspect.longest < length file.now }
    ensures result_after { page out.new result
        ≡ printed (shown of_inspect chain (named_by (take n file.now)) (take n file.now)) out.old }
{
    INSPECT.text(file, n, chain, out)
}

// Reads a file to its end, and puts what `inspect` prints of it beside a chain into `out`; the answer is how many bytes that is.
pub fn inspect<R: Read>(
    input: &mut R,
    chain: Option<Height>,
    out: &mut [u8; PAGE],
) -> io::Result<usize>
    ensures within { ReadsAtMost result out.new }
    ensures told { IfOk result (λ k. PrintsSome (λ file. shown of_inspect chain (named_by file) file) 3197970 (page out.new k) out.old) }
    ensures known { IfOk result (λ k. PrintsKnown (λ file. shown of_inspect chain (named_by file) file) (R.remaining input.old) 3197970 (page out.new k) out.old) }
    ensures unread { OnErr result (out.new ≡ out.old) }
{
    let mut file = zeros::<INSPECT_BUFFER>();
    let n = read_full(input, &mut file)?;
    Ok(inspect_text(&file, n, chain, out))
}
