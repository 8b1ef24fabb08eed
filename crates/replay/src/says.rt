// What is written: each word as soon as it is known.
use desk_calls::Reply;
use kinds::{Damaged, FeeRate, Height, Refusal};
use std::io;

// A number.
pub(crate) fn say(out: &impl Print, n: u64) -> io::Result<()> {
    print!(out; "{n}")
}

// Words, or the end of a line.
pub(crate) fn say_text(out: &impl Print, text: &str) -> io::Result<()> {
    out.print(text)
}

// A number, alone on its line or last there.
pub(crate) fn say_line(out: &impl Print, n: u64) -> io::Result<()> {
    println!(out; "{n}")
}

// A space and a sum.
pub(crate) fn say_sum(out: &impl Print, sum: u32) -> io::Result<()> {
    print!(out; " {sum:08x}")
}

// The answer of number n, and what it carries.
pub(crate) fn say_carrying(out: &impl Print, n: u32, carried: u64) -> io::Result<()> {
    println!(out; "{n} {carried}")
}

// The last height or `-`.
pub(crate) fn say_last(out: &impl Print, last: Option<Height>) -> io::Result<()> {
    match last {
        None => say_text(out, "-"),
        Some(h) => say(out, h.0 as u64),
    }
}

// An estimate as one word: a rate or `-`.
pub(crate) fn say_target(out: &impl Print, e: Result<Option<FeeRate>, Damaged>) -> io::Result<()> {
    match e {
        Ok(Some(r)) => say(out, r.0),
        _ => say_text(out, "-"),
    }
}

// What a line is answered with, if anything.
pub(crate) fn say_reply(out: &impl Print, reply: Reply) -> io::Result<()> {
    match reply {
        Reply::Silent => Ok(()),
        Reply::Number(n) => say_line(out, n as u64),
        Reply::Carrying(n, carried) => say_carrying(out, n, carried),
    }
}

// An estimate as a line.
pub(crate) fn say_estimate(
    out: &impl Print,
    e: Result<Option<FeeRate>, Damaged>,
) -> io::Result<()> {
    match e {
        Err(damaged) => say_line(out, damaged.number() as u64),
        Ok(None) => say_text(out, "none\n"),
        Ok(Some(r)) => {
            say_text(out, "rate ")?;
            say_line(out, r.0)
        }
    }
}

// A bucket, or that there is none.
pub(crate) fn say_bucket(out: &impl Print, b: Option<usize>) -> io::Result<()> {
    match b {
        None => say_text(out, "none\n"),
        Some(n) => say_line(out, n as u64),
    }
}

// An accepted write: its length, and the sum of all that it was written into.
pub(crate) fn say_wrote(out: &impl Print, n: usize, sum: u32) -> io::Result<()> {
    print!(out; "0 {n}")?;
    say_sum(out, sum)?;
    say_text(out, "\n")
}
