// What is printed of a history file, as text in a lent buffer: over how many bytes a file may have, how much room there is for its records, the chain's height, and the
// board whose file it is.
#![tactic(auto)]

mod lines;

ghost use Rattle.std.specs.Prelude.{◌≡◌, ◌/◌, length};
ghost use Rattle.io.specs.Counts.{IsPrefixLen};
ghost use Rattle.kinds.specs.Answers.{read_answer, state_or};
ghost use Rattle.rules.specs.Estimator.{fresh};
ghost use Rattle.rules.specs.Memory.{state_of};
ghost use Rattle.rules.specs.Board.{pending_size, confirmed_size};
ghost use Rattle.print.specs.Page.{page, page_of, writes};
ghost use Rattle.report.specs.Shown.{told, named_by, reach, shown, printed};
ghost use Rattle.report.specs.Rates.{answered};

use estimator::from_history_bytes;
use kinds::{COUNTS, Height, Horizon, ReadError, State, WIDE_HISTORY_VERSION};
use lines::{put_accepted, put_refused, put_version};
use print::Cursor;
use reader::number;

// The most bytes that are printed.
pub const PAGE: usize = 2048;

// What is told of a reading: the state and the rates, or why it was refused.
#[tactic(auto, unfolding(crate::specs::Shown::told, crate::specs::Shown::refusal, crate::specs::Shown::name, crate::specs::Shown::carried, crate::specs::Shown::line))]
fn tell(
    out: &mut Cursor,
    chain: Option<Height>,
    reading: Result<State, ReadError>,
    confirmed: &[f64],
    resolved: &[f64],
    on: Horizon,
)
    ensures same_buffer { out.new.out.ghost_name ≡ out.old.out.ghost_name }
    ensures written { page_of out.new
        ≡ writes (told chain on (read_answer reading) (state_or (state_of fresh) reading) (answered (state_or (state_of fresh) reading) confirmed.now resolved.now on)) (page_of out.old) }
{
    match reading {
        Ok(state) => put_accepted(out, chain, state, confirmed, resolved, on),
        Err(ReadError::Damaged) => put_refused(out, b"Damaged"),
        Err(ReadError::BadMagic) => put_refused(out, b"BadMagic"),
        Err(ReadError::UnknownVersion(v)) => put_version(out, v),
        Err(ReadError::Corrupt) => put_refused(out, b"Corrupt"),
        Err(ReadError::NoRoom) => put_refused(out, b"NoRoom"),
    }
}

// The board that a file names in its bytes 8 to 11.
pub fn named_by(file: &[u8]) -> Horizon
    ensures { result ≡ named_by file.now }
{
    if file.len() < 12 {
        return Horizon::Base;
    }
    if number(file, 8) == WIDE_HISTORY_VERSION {
        return Horizon::Wide;
    }
    Horizon::Base
}

// Everything that is printed of a board's file of at most `longest` bytes, whose records are put into the lent tables; the answer is how many bytes that is.
pub fn report(
    file: &[u8],
    longest: usize,
    chain: Option<Height>,
    pending: &mut [u8],
    recent: &mut [u8],
    out: &mut [u8; PAGE],
    on: Horizon,
) -> usize
    ensures prefix_len { IsPrefixLen result out.new }
    ensures result_after { page out.new result
        ≡ printed
        (shown (reach (length pending.old / pending_size) (length recent.old / confirmed_size) longest) chain on file.now)
        out.old }
{
    let mut shown = Cursor::new(out);
    if longest < file.len() {
        put_refused(&mut shown, b"TooLong");
        return shown.at;
    }
    let mut confirmed = [0.0f64; COUNTS];
    let mut resolved = [0.0f64; COUNTS];
    let reading = from_history_bytes(file, &mut confirmed, &mut resolved, pending, recent, on);
    tell(&mut shown, chain, reading, &confirmed, &resolved, on);
    shown.at
}
