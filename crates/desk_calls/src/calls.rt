// The state that a line names, and the calls that change the estimator: each gives its answer, and the state after it.
ghost use Rattle.std.specs.Prelude.{◌≡◌};
ghost use Rattle.kinds.specs.Answers.{answer_of, read_answer, state_or};
ghost use Rattle.rules.specs.Slices.{before, after};
ghost use Rattle.desk_calls.specs.Calls.{did, numbered, height_of, last_of, state_of, id_of, reply_of, enter_does, leave_does, start_does, block_does, read_does};

use kinds::{FeeRate, Height, Horizon, ID_SIZE, ReadError, Refusal, State, number_of};
use lines::Line;
use print::put;

// What a line is answered with: nothing, a number, or a number and what it carries.
#[derive(Clone, Copy)]
pub enum Reply {
    Silent,
    Number(u32),
    Carrying(u32, u64),
}

// What a line has done that fits the lent memory: what it is answered with, and the state after it.
#[derive(Clone, Copy)]
pub struct Done {
    pub reply: Reply,
    pub state: State,
}

// How many heights there are.
const HEIGHTS: u64 = 4294967296;

// A height of a line, which is of 32 bits.
fn height(n: u64) -> Height
    ensures { result ≡ height_of n }
{
    Height((n % HEIGHTS) as u32)
}

// A last height, told plus 1, or 0 for none.
fn last_in(n: u64) -> Option<Height>
    ensures { result ≡ last_of n }
{
    if n == 0 {
        return None;
    }
    Some(height(n - 1))
}

// state: the state that the line names.
pub fn state_in(line: Line) -> State
    ensures { result ≡ state_of line }
{
    let last = last_in(line.a);
    State {
        last,
        pending: line.b as usize,
        recent: line.c as usize,
    }
}

// The id of these bytes, with zeros at the right.
fn id_in(bytes: &[u8]) -> [u8; 32]
    ensures { result ≡ id_of bytes.now }
{
    let mut id = [0u8; ID_SIZE];
    put(&mut id, 0, bytes);
    id
}

// What a call has done that is answered with its number alone. Refused, it leaves the state before it.
fn numbered<E: Refusal>(answered: Result<State, E>, before: State) -> Done
    ensures { result ≡ numbered (answer_of E.answer answered).number (state_or before answered) }
{
    match answered {
        Ok(state) => Done {
            reply: Reply::Number(0),
            state,
        },
        Err(refusal) => Done {
            reply: Reply::Number(refusal.number()),
            state: before,
        },
    }
}

// enter
pub fn enter(line: Line, state: State, text: &[u8], pending: &mut [u8], on: Horizon) -> Done
    ensures { did result pending.new ≡ enter_does on line state text.now pending.old }
{
    let id = id_in(text);
    let rate = FeeRate(line.b);
    let height = height(line.c);
    numbered(
        estimator::tx_entered(state, pending, &id, rate, height, on),
        state,
    )
}

// leave
pub fn leave(state: State, text: &[u8], pending: &mut [u8], on: Horizon) -> Done
    ensures { did result pending.new ≡ leave_does on state text.now pending.old }
{
    let id = id_in(text);
    numbered(estimator::tx_left(state, pending, &id, on), state)
}

// start
pub fn start(
    state: State,
    pending: &mut [u8],
    recent: &mut [u8],
    confirmed: &mut [f64],
    resolved: &mut [f64],
    on: Horizon,
) -> Done
    ensures { did result (after confirmed resolved pending recent)
        ≡ start_does on state (before confirmed resolved pending recent) }
{
    let started = estimator::new(confirmed, resolved, pending, recent, on);
    numbered(started, state)
}

// block and blockraw
pub fn block(
    line: Line,
    state: State,
    ids: &[u8],
    pending: &mut [u8],
    recent: &mut [u8],
    confirmed: &mut [f64],
    resolved: &mut [f64],
    on: Horizon,
) -> Done
    ensures { did result (after confirmed resolved pending recent)
        ≡ block_does on line state ids.now (before confirmed resolved pending recent) }
{
    let height = height(line.a);
    numbered(
        estimator::block_connected(state, confirmed, resolved, pending, recent, ids, height, on),
        state,
    )
}

// What a reading is answered with: an unknown version is told.
#[tactic(auto, unfolding(crate::specs::Calls::carried))]
fn reply_of(reading: Result<State, ReadError>) -> Reply
    ensures { result ≡ reply_of (read_answer reading) }
{
    let number = number_of(reading);
    match reading {
        Err(ReadError::UnknownVersion(version)) => Reply::Carrying(number, version as u64),
        _ => Reply::Number(number),
    }
}

// read and again
pub fn read(
    state: State,
    history: &[u8],
    pending: &mut [u8],
    recent: &mut [u8],
    confirmed: &mut [f64],
    resolved: &mut [f64],
    on: Horizon,
) -> Done
    ensures { did result (after confirmed resolved pending recent)
        ≡ read_does on state history.now (before confirmed resolved pending recent) }
{
    let reading = estimator::from_history_bytes(history, confirmed, resolved, pending, recent, on);
    let done = numbered(reading, state);
    Done {
        reply: reply_of(reading),
        state: done.state,
    }
}
