// The lines that are printed, put into a buffer at a cursor.
ghost use Rattle.std.specs.Prelude.{◌≡◌, ◌++◌};
ghost use Rattle.kinds.specs.Answers.{unknown_version, estimate_answer};
ghost use Rattle.rules.specs.Counts.{columns};
ghost use Rattle.rules.specs.Board.{board_of};
ghost use Rattle.print.specs.Page.{page_of, write, writes};
ghost use Rattle.print.specs.Numerals.{decimal};
ghost use Rattle.premise.specs.Premise.{premise};
ghost use Rattle.report.specs.Words.{height, refused};
ghost use Rattle.report.specs.Shown.{line, last_text, state_lines, target_line, target_lines, refusal};
ghost use Rattle.report.specs.Rates.{carried_rate, answered};

use boards::width_of;
use estimator::estimate;
use kinds::{Blocks, Damaged, FeeRate, Height, Horizon, MAX_CONF_TARGET, State};
use premise::put_premise;
use print::Cursor;

// A word and what is told of it.
#[tactic(auto, unfolding(print::specs::Page::writes, crate::specs::Shown::line))]
fn put_line(out: &mut Cursor, word: &[u8], text: &[u8])
    ensures same_buffer { out.new.out.ghost_name ≡ out.old.out.ghost_name }
    ensures written { page_of out.new ≡ writes (line word.now text.now) (page_of out.old) }
{
    out.put(word);
    out.put(text);
    out.put_byte(b'\n');
}

// Puts the line that a file is refused, and why.
pub(crate) fn put_refused(out: &mut Cursor, name: &[u8])
    ensures same_buffer { out.new.out.ghost_name ≡ out.old.out.ghost_name }
    ensures written { page_of out.new ≡ writes (line refused name.now) (page_of out.old) }
{
    put_line(out, b"refused ", name);
}

// A word and a number.
#[tactic(auto, unfolding(print::specs::Page::writes, crate::specs::Shown::line))]
fn put_number(out: &mut Cursor, word: &[u8], n: u64)
    ensures same_buffer { out.new.out.ghost_name ≡ out.old.out.ghost_name }
    ensures written { page_of out.new ≡ writes (line word.now (decimal n)) (page_of out.old) }
{
    out.put(word);
    out.put_decimal(n);
    out.put_byte(b'\n');
}

// The last height or `-`.
#[tactic(auto, unfolding(crate::specs::Shown::last_text))]
fn put_last(out: &mut Cursor, last: Option<Height>)
    ensures same_buffer { out.new.out.ghost_name ≡ out.old.out.ghost_name }
    ensures written { page_of out.new ≡ writes (line height (last_text last)) (page_of out.old) }
{
    match last {
        Some(h) => put_number(out, b"height ", h.0 as u64),
        None => put_line(out, b"height ", b"-"),
    }
}

// The last height and the used numbers.
#[tactic(auto, unfolding(print::specs::Page::writes, crate::specs::Shown::line, crate::specs::Shown::state_lines))]
fn put_state(out: &mut Cursor, state: State)
    ensures same_buffer { out.new.out.ghost_name ≡ out.old.out.ghost_name }
    ensures written { page_of out.new ≡ writes (state_lines state) (page_of out.old) }
{
    put_last(out, state.last);
    put_number(out, b"pending ", state.pending as u64);
    put_number(out, b"confirmed ", state.recent as u64);
}

// Puts the line that a file's version is not known.
#[tactic(auto, unfolding(print::specs::Page::writes, crate::specs::Shown::refusal, crate::specs::Shown::name, crate::specs::Shown::carried, crate::specs::Shown::line))]
pub(crate) fn put_version(out: &mut Cursor, v: u32)
    ensures same_buffer { out.new.out.ghost_name ≡ out.old.out.ghost_name }
    ensures written { page_of out.new ≡ writes (refusal (unknown_version v)) (page_of out.old) }
{
    out.put(b"refused ");
    out.put(b"UnknownVersion");
    put_number(out, b" ", v as u64);
}

// A rate or `-`.
#[tactic(auto, unfolding(crate::specs::Rates::carried_rate))]
fn put_rate(out: &mut Cursor, e: Result<Option<FeeRate>, Damaged>)
    ensures same_buffer { out.new.out.ghost_name ≡ out.old.out.ghost_name }
    ensures written { page_of out.new
        ≡ write (carried_rate (estimate_answer e).carries) (page_of out.old) }
{
    match e {
        Ok(Some(rate)) => out.put_decimal(rate.0),
        _ => out.put_byte(b'-'),
    }
}

// A target and its rate.
fn put_target(
    out: &mut Cursor,
    t: u32,
    state: State,
    confirmed: &[f64],
    resolved: &[f64],
    on: Horizon,
)
    ensures same_buffer { out.new.out.ghost_name ≡ out.old.out.ghost_name }
    ensures written { page_of out.new ≡ writes (target_line (answered state confirmed.now resolved.now on) t) (page_of out.old) }
{
    let e = estimate(state, confirmed, resolved, Blocks(t), on);
    out.put_decimal(t as u64);
    out.put_byte(b' ');
    put_rate(out, e);
    out.put_byte(b'\n');
}

// The last column whose target is told, and as many are.
const COLUMNS: u32 = MAX_CONF_TARGET as u32;

// The target of each column and its rate.
fn put_targets(out: &mut Cursor, state: State, confirmed: &[f64], resolved: &[f64], on: Horizon)
    ensures same_buffer { out.new.out.ghost_name ≡ out.old.out.ghost_name }
    ensures written { page_of out.new
        ≡ writes (target_lines (board_of on).width (answered state confirmed.now resolved.now on) 1 columns) (page_of out.old) }
{
    let width = width_of(on).0;
    for c in 1..COLUMNS + 1 {
        put_target(out, width * c, state, confirmed, resolved, on);
    }
}

// What is told of a file that was accepted: whether it goes with the chain, the state, and the rates.
pub(crate) fn put_accepted(
    out: &mut Cursor,
    chain: Option<Height>,
    state: State,
    confirmed: &[f64],
    resolved: &[f64],
    on: Horizon,
)
    ensures same_buffer { out.new.out.ghost_name ≡ out.old.out.ghost_name }
    ensures written { page_of out.new
        ≡ writes
        (premise chain state.last ++ (state_lines state ++ target_lines (board_of on).width (answered state confirmed.now resolved.now on) 1 columns))
        (page_of out.old) }
{
    put_premise(out, chain, state.last);
    put_state(out, state);
    put_targets(out, state, confirmed, resolved, on);
}
