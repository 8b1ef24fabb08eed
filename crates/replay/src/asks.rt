// The calls that change nothing in the estimator. Each says its answer.
ghost use Rattle.std.specs.Prelude.{◌≡◌, ◌*◌, ◌≤◌};
ghost use Rattle.rules.specs.Board.{board_of};

use crate::parts::front;
use crate::says::{
    say, say_bucket, say_carrying, say_estimate, say_last, say_line, say_sum, say_target, say_text,
    say_wrote,
};
use boards::width_of;
use estimator::{bucket_index_for_rate, estimate, to_history_bytes};
use kinds::{Blocks, Damaged, FeeRate, Horizon, MAX_CONF_TARGET, Refusal, State, WriteError};
use lines::Line;
use page::Operation;
use print::put;
use script::sums::{sum_bytes, sum_doubles};
use std::io;

// A board's estimator, as questions see it.
#[derive(Clone, Copy)]
pub(crate) struct Held<'a> {
    pub(crate) state: State,
    pub(crate) pending: &'a [u8],
    pub(crate) recent: &'a [u8],
    pub(crate) confirmed: &'a [f64],
    pub(crate) resolved: &'a [f64],
    pub(crate) on: Horizon,
}

impl<'a> Held<'a> {
    fn estimate(self, target: Blocks) -> Result<Option<FeeRate>, Damaged> {
        estimate(self.state, self.confirmed, self.resolved, target, self.on)
    }
}

// How many columns a board has.
const COLUMNS: u32 = MAX_CONF_TARGET as u32;

// The longest wait that a column is for.
fn target_of(column: u32, on: Horizon) -> Blocks
    requires { column ≤ 25 }
    ensures { result.0 ≡ (board_of on).width * column }
{
    let width = width_of(on);
    Blocks(width.0 * column)
}

// The words for the targets of all columns, a space between them.
fn say_targets(out: &impl Print, held: Held) -> io::Result<()> {
    for column in 1..=COLUMNS {
        if 1 < column {
            say_text(out, " ")?;
        }
        say_target(out, held.estimate(target_of(column, held.on)))?;
    }
    say_text(out, "\n")
}

// estimates
fn estimates(out: &impl Print, held: Held) -> io::Result<()> {
    let e = held.estimate(Blocks(1));
    match e {
        Err(_) => say_estimate(out, e),
        _ => say_targets(out, held),
    }
}

// sum
fn sums(out: &impl Print, held: Held) -> io::Result<()> {
    say_last(out, held.state.last)?;
    say_text(out, " ")?;
    say(out, held.state.pending as u64)?;
    say_text(out, " ")?;
    say(out, held.state.recent as u64)?;
    say_sum(out, sum_bytes(held.pending))?;
    say_sum(out, sum_bytes(held.recent))?;
    say_sum(out, sum_doubles(held.confirmed))?;
    say_sum(out, sum_doubles(held.resolved))?;
    say_text(out, "\n")
}

// write, into as many bytes as the buffer has: how many bytes are kept, where n were
fn write(
    out: &impl Print,
    held: Held,
    buffer: &mut [u8],
    kept: &mut [u8],
    n: usize,
) -> io::Result<usize> {
    buffer.fill(0xaa);
    let written = to_history_bytes(
        held.state,
        held.confirmed,
        held.resolved,
        held.pending,
        held.recent,
        buffer,
        held.on,
    );
    match written {
        Ok(len) => {
            say_wrote(out, len, sum_bytes(buffer))?;
            put(kept, 0, front(buffer, len));
            Ok(len)
        }
        Err(WriteError::ShortOutput(needed)) => {
            say_carrying(out, WriteError::ShortOutput(needed).number(), needed as u64)?;
            Ok(n)
        }
        Err(refusal) => {
            say_line(out, refusal.number() as u64)?;
            Ok(n)
        }
    }
}

// The question of a line. How many bytes are kept after it, where n were.
pub(crate) fn ask(
    out: &impl Print,
    line: Option<Line>,
    held: Held,
    buffer: &mut [u8],
    kept: &mut [u8],
    n: usize,
) -> io::Result<usize> {
    let Some(line) = line else {
        return Ok(n);
    };
    match line.operation {
        Operation::Bucket => say_bucket(out, bucket_index_for_rate(FeeRate(line.a)))?,
        Operation::Estimate => {
            let target = Blocks((line.a % 4294967296) as u32);
            say_estimate(out, held.estimate(target))?;
        }
        Operation::Estimates => estimates(out, held)?,
        Operation::Sum => sums(out, held)?,
        Operation::Write => {
            let end = buffer.len().min(line.a as usize);
            return write(out, held, &mut buffer[..end], kept, n);
        }
        _ => {}
    }
    Ok(n)
}
