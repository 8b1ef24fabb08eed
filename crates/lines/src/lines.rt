// A line of a script: its operation, and what its fields say.
ghost use Rattle.std.specs.Prelude.{◌≡◌};
ghost use Rattle.script.specs.Hex.{some_bytes};
ghost use Rattle.page.specs.Page.{most_ids};
ghost use Rattle.lines.specs.Lines.{last_of, bits_of, one_of, any_of, value_of, ids_from, take_field, with_fields, line_of, asked};

use kinds::{Horizon, ID_SIZE};
use page::{Field, MOST_HISTORY, MOST_IDS, MOST_SHORT, Operation, allowed, fields_of, is};
use script::hex::{is_hex, pattern_in};
use script::numbers::number_in;
use script::sums::NAN_BITS;
use script::words::word_at;

// A line: its operation, and the values of its fields in their order. The value of bytes in digits, and of ids, is where they begin; of a last height
// one more than it, and 0 for `-`; of one of two words 0 or 1, in the order of the page. (Numbers, since the definitions of what a line does read them.)
#[derive(Clone, Copy)]
pub struct Line {
    pub operation: Operation,
    pub a: u64,
    pub b: u64,
    pub c: u64,
    pub d: u64,
}

// What was taken from a line: where the next word begins, and the value of this one.
#[derive(Clone, Copy)]
struct Taken {
    at: usize,
    value: u64,
}

// A last height plus 1, or 0 for `-`.
#[tactic(auto, using(script::proofs::Reading::at_most), unfolding(crate::specs::Lines::last_of))]
fn last_in(word: &[u8]) -> Option<u64>
    ensures { result ≡ last_of word.now }
{
    if is(word, b"-") {
        return Some(0);
    }
    let height = number_in(word, 10, MOST_SHORT)?;
    Some(height + 1)
}

// The bits of a double; `nan` is a NaN.
#[tactic(auto, unfolding(crate::specs::Lines::bits_of))]
fn bits_in(word: &[u8]) -> Option<u64>
    ensures { result ≡ bits_of word.now }
{
    if is(word, b"nan") {
        return Some(NAN_BITS);
    }
    pattern_in(word)
}

// Which of two words this is.
#[tactic(auto, unfolding(crate::specs::Lines::one_of))]
fn one_of(word: &[u8], first: &[u8], second: &[u8]) -> Option<u64>
    ensures { result ≡ one_of first.now second.now word.now }
{
    if is(word, first) {
        return Some(0);
    }
    if is(word, second) {
        return Some(1);
    }
    None
}

// Whether the word says bytes in digits, one at least and `most` at most.
fn holds(word: &[u8], most: usize) -> bool
    ensures { result ≡ some_bytes most word.now }
{
    !word.is_empty() && word.len() / 2 <= most && is_hex(word)
}

// Whether the word says a history or a list, which may be `-` for none.
#[tactic(auto, unfolding(crate::specs::Lines::any_of))]
fn any_in(word: &[u8]) -> bool
    ensures { result ≡ any_of word.now }
{
    is(word, b"-") || holds(word, MOST_HISTORY)
}

// What a word that begins at `from` says as this field.
fn value_of(word: &[u8], field: Field, from: usize) -> Option<u64>
    ensures { result ≡ value_of field from word.now }
{
    match field {
        Field::Number(most) => number_in(word, 10, most),
        Field::Last => last_in(word),
        Field::Pattern => bits_in(word),
        Field::Table => one_of(word, b"pending", b"confirmed"),
        Field::Kind => one_of(word, b"confirmed", b"resolved"),
        Field::Board => one_of(word, b"narrow", b"wide"),
        Field::Bytes(most) => holds(word, most).then_some(from as u64),
        Field::Any => any_in(word).then_some(from as u64),
        Field::Ids | Field::Nothing => None,
    }
}

// Whether all words from `at` on are ids, and no more than a block may list.
#[tactic(auto, using(crate::proofs::Listed::ended, crate::proofs::Listed::next_id, crate::proofs::Listed::no_id))]
fn ids_fit(line: &[u8], at: usize) -> bool
    ensures { result ≡ ids_from most_ids line.now at }
{
    let mut from = at;
    for _ in 0..MOST_IDS {
        if line.len() < from {
            return true;
        }
        let word = word_at(line, from);
        from = word.end + 1;
        if !holds(&line[word], ID_SIZE) {
            return false;
        }
    }
    line.len() < from
}

// Takes what this field says from `at` on, if it fits.
#[tactic(auto, unfolding(crate::specs::Lines::take_field, crate::specs::Lines::take_ids))]
fn take(line: &[u8], at: usize, field: Field) -> Option<Taken>
    ensures { result ≡ take_field line.now at field }
{
    match field {
        Field::Nothing => Some(Taken { at, value: 0 }),
        Field::Ids => {
            let value = ids_fit(line, at).then_some(at as u64)?;
            Some(Taken {
                at: line.len() + 1,
                value,
            })
        }
        _ => {
            let word = word_at(line, at);
            let from = word.start;
            let next = word.end + 1;
            let value = value_of(&line[word], field, from)?;
            Some(Taken { at: next, value })
        }
    }
}

// The operation of a line with its fields from `at` on, if they fit and no word follows.
#[tactic(auto, unfolding(crate::specs::Lines::with_fields))]
fn with_fields(line: &[u8], operation: Operation, at: usize, on: Horizon) -> Option<Line>
    ensures { result ≡ with_fields on line.now operation at }
{
    let fields = fields_of(operation, on);
    let a = take(line, at, fields.0)?;
    let b = take(line, a.at, fields.1)?;
    let c = take(line, b.at, fields.2)?;
    let d = take(line, c.at, fields.3)?;
    if d.at <= line.len() {
        return None;
    }
    Some(Line {
        operation,
        a: a.value,
        b: b.value,
        c: c.value,
        d: d.value,
    })
}

// What a line without its LF asks for; `begun` where the board's `lend` was there.
fn line_in(line: &[u8], begun: bool, on: Horizon) -> Option<Line>
    ensures { result ≡ line_of on begun line.now }
{
    if line.is_empty() || line[0] == b'#' {
        return Some(Line {
            operation: Operation::PassedOver,
            a: 0,
            b: 0,
            c: 0,
            d: 0,
        });
    }
    let word = word_at(line, 0);
    let next = word.end + 1;
    let operation = allowed(&line[word], begun)?;
    with_fields(line, operation, next, on)
}

// What a line asks for on a board, if it fits: without its LF (`ended` false) it does not.
#[tactic(auto, unfolding(crate::specs::Lines::asked))]
pub fn asked(text: &[u8], ended: bool, begun: bool, on: Horizon) -> Option<Line>
    ensures { result ≡ asked on ended begun text.now }
{
    if ended {
        return line_in(text, begun, on);
    }
    None
}
