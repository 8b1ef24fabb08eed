// A script, line by line.
use crate::asks::{Held, ask};
use crate::parts::{begins, ends, front};
use crate::says::say_reply;
use desk::change;
use gathers::gather;
use kinds::{Horizon, State};
use lines::{Line, asked};
use page::{MOST_COUNTS, MOST_PENDING, MOST_RECENT, Operation};
use std::io;

// What a run keeps of a board after its `lend`.
#[derive(Clone, Copy)]
struct Loan {
    // How much of each table, in bytes, and of each list of counts is lent.
    pending: usize,
    recent: usize,
    confirmed: usize,
    resolved: usize,
    state: State,
}

// What a run keeps between two lines.
#[derive(Clone, Copy)]
struct Progress {
    // The board that the lines are for, what it has, and what the other one has.
    on: Horizon,
    own: Option<Loan>,
    other: Option<Loan>,
    // The length of the history that the last accepted `write` wrote, on either board.
    kept: usize,
}

// What a line that fits leaves: its board's state, and how many bytes are kept.
#[derive(Clone, Copy)]
struct Left {
    state: State,
    kept: usize,
}

// What is there of a board before its `lend`: nothing.
fn nothing() -> Loan {
    Loan {
        pending: 0,
        recent: 0,
        confirmed: 0,
        resolved: 0,
        state: State::empty(),
    }
}

// The beginning: the narrow board, and nothing is lent to either.
fn fresh() -> Progress {
    Progress {
        on: Horizon::Base,
        own: None,
        other: None,
        kept: 0,
    }
}

// board: the lines that follow are for the board that the line names.
fn turned(r: Progress, line: Line) -> Progress {
    let (on, stays) = match r.on {
        Horizon::Base => (Horizon::Wide, line.a == 0),
        Horizon::Wide => (Horizon::Base, line.a != 0),
    };
    if stays {
        return r;
    }
    Progress {
        on,
        own: r.other,
        other: r.own,
        ..r
    }
}

// lend: that much memory, and the empty state. (What was lent before it is zero then, and nothing beyond that was ever anything else.)
fn lent(line: Line) -> Loan {
    Loan {
        pending: line.a as usize,
        recent: line.b as usize,
        confirmed: line.c as usize,
        resolved: line.d as usize,
        state: State::empty(),
    }
}

// The run after a line.
fn after(r: Progress, line: Option<Line>, left: Left) -> Progress {
    let state = left.state;
    let r = Progress {
        own: r.own.map(|loan| Loan { state, ..loan }),
        kept: left.kept,
        ..r
    };
    let Some(line) = line else {
        return r;
    };
    match line.operation {
        Operation::Board => turned(r, line),
        Operation::Lend => Progress {
            own: Some(lent(line)),
            ..r
        },
        _ => r,
    }
}

// One line, over what its board is lent, where n bytes are kept: what it leaves, if it fits. What it changes is done first, then what it asks for is told.
fn act(
    out: &impl Print,
    line: Option<Line>,
    state: State,
    text: &[u8],
    pending: &mut [u8],
    recent: &mut [u8],
    confirmed: &mut [f64],
    resolved: &mut [f64],
    buffer: &mut [u8],
    kept: &mut [u8],
    n: usize,
    on: Horizon,
) -> io::Result<Option<Left>> {
    let m = gather(line, text, front(kept, n), buffer);
    let bytes = front(buffer, m);
    let Some(done) = change(line, state, bytes, pending, recent, confirmed, resolved, on) else {
        return Ok(None);
    };
    let held = Held {
        state,
        pending,
        recent,
        confirmed,
        resolved,
        on,
    };
    let kept = ask(out, line, held, buffer, kept, n)?;
    say_reply(out, done.reply)?;
    Ok(Some(Left {
        state: done.state,
        kept,
    }))
}

// The same, of as much memory as the board is lent.
fn turn(
    out: &impl Print,
    line: Option<Line>,
    own: Loan,
    text: &[u8],
    pending: &mut [u8],
    recent: &mut [u8],
    confirmed: &mut [f64],
    resolved: &mut [f64],
    buffer: &mut [u8],
    kept: &mut [u8],
    n: usize,
    on: Horizon,
) -> io::Result<Option<Left>> {
    let p0 = begins(MOST_PENDING, pending.len(), on);
    let p1 = ends(p0, own.pending, pending.len());
    let q0 = begins(MOST_RECENT, recent.len(), on);
    let q1 = ends(q0, own.recent, recent.len());
    let a0 = begins(MOST_COUNTS, confirmed.len(), on);
    let a1 = ends(a0, own.confirmed, confirmed.len());
    let b0 = begins(MOST_COUNTS, resolved.len(), on);
    let b1 = ends(b0, own.resolved, resolved.len());
    act(
        out,
        line,
        own.state,
        text,
        &mut pending[p0..p1],
        &mut recent[q0..q1],
        &mut confirmed[a0..a1],
        &mut resolved[b0..b1],
        buffer,
        kept,
        n,
        on,
    )
}

// A whole script; a line that does not fit, or has no LF, is told by its number.
// (The memory goes as slices: a call that is lent two slices of a struct is not proved.)
pub(crate) fn run(
    out: &impl Print,
    script: &[u8],
    pending: &mut [u8],
    recent: &mut [u8],
    confirmed: &mut [f64],
    resolved: &mut [f64],
    buffer: &mut [u8],
    kept: &mut [u8],
) -> io::Result<()> {
    let mut r = fresh();
    for (k, piece) in script.split_inclusive(|&x| x == b'\n').enumerate() {
        let ended = piece.strip_suffix(b"\n");
        let text = ended.unwrap_or(piece);
        let line = asked(text, ended.is_some(), r.own.is_some(), r.on);
        let own = r.own.unwrap_or(nothing());
        let Some(left) = turn(
            out, line, own, text, pending, recent, confirmed, resolved, buffer, kept, r.kept, r.on,
        )?
        else {
            return println!(out; "bad line {}", k + 1);
        };
        r = after(r, line, left);
    }
    Ok(())
}
