// The scripts' page: the operations by their first words, and the fields that follow each.
ghost use Rattle.std.specs.Prelude.{◌≡◌, find};
ghost use Rattle.std.specs.Option.{option_map};
ghost use Rattle.rules.specs.Ids.{same};
ghost use Rattle.page.specs.Page.{allowed, most_pending, most_recent, fields_of};

use crate::limits::{
    MOST_COUNTS, MOST_HISTORY, MOST_PENDING, MOST_RECENT, MOST_SHORT, MOST_WIDE_PENDING,
    MOST_WIDE_RECENT,
};
use kinds::{Horizon, ID_SIZE};

// An operation, by its first word.
#[derive(Clone, Copy)]
pub enum Operation {
    // An empty line, or a comment.
    PassedOver,
    Board,
    Lend,
    Byte,
    Count,
    State,
    Start,
    Enter,
    Leave,
    Block,
    BlockRaw,
    Estimate,
    Estimates,
    Bucket,
    Write,
    Read,
    Again,
    Sum,
}

// What a word of a line says.
#[derive(Clone, Copy)]
pub enum Field {
    // No word.
    Nothing,
    // A number, at most this one.
    Number(u64),
    // A last height or `-`.
    Last,
    // The bits of a double.
    Pattern,
    // `pending` or `confirmed`.
    Table,
    // `confirmed` or `resolved`.
    Kind,
    // `narrow` or `wide`.
    Board,
    // Bytes in digits, one at least and at most so many.
    Bytes(usize),
    // Bytes in digits, or `-` for none.
    Any,
    // All words that are left, an id each.
    Ids,
}

// The fields of an operation, in the order of the line. (Four parts, as the definitions have them: an array would be a list there,
// of any length.)
#[derive(Clone, Copy)]
pub struct Fields(pub Field, pub Field, pub Field, pub Field);

// Whether the word is this text. (It ties `==` of slices to the page's `same`, which all that is said of words is said by.)
pub fn is(word: &[u8], text: &[u8]) -> bool
    ensures { result ≡ same word.now text.now }
{
    word == text
}

// First words and their operations: which board it is, and what is lent to it.
const OPENINGS: [(&[u8], Operation); 2] = [
    (b"lend", Operation::Lend),
    (b"board", Operation::Board),
];

// All others, which stand after a board's `lend`.
const OTHERS: [(&[u8], Operation); 15] = [
    (b"byte", Operation::Byte),
    (b"count", Operation::Count),
    (b"state", Operation::State),
    (b"sum", Operation::Sum),
    (b"start", Operation::Start),
    (b"enter", Operation::Enter),
    (b"leave", Operation::Leave),
    (b"block", Operation::Block),
    (b"blockraw", Operation::BlockRaw),
    (b"estimate", Operation::Estimate),
    (b"estimates", Operation::Estimates),
    (b"bucket", Operation::Bucket),
    (b"write", Operation::Write),
    (b"read", Operation::Read),
    (b"again", Operation::Again),
];

// The operation of the row that begins with the word.
fn found(rows: &[(&[u8], Operation)], word: &[u8]) -> Option<Operation>
    ensures { result ≡ option_map (λ r. r.1) (find (λ r. same word.now r.0.now) rows.now) }
{
    rows.iter().find(|row| is(word, row.0)).map(|row| row.1)
}

// The operation of a first word, if it may stand there; `begun` where the board is lent.
pub fn allowed(word: &[u8], begun: bool) -> Option<Operation>
    ensures { result ≡ allowed begun word.now }
{
    let opening = found(&OPENINGS, word);
    if begun {
        return opening.or(found(&OTHERS, word));
    }
    opening
}

// The most bytes that are lent for a board's pending records, and for its confirmed ones.
fn most_lent(on: Horizon) -> (u64, u64)
    ensures { (result.0 ≡ most_pending on) × (result.1 ≡ most_recent on) }
{
    match on {
        Horizon::Base => (MOST_PENDING as u64, MOST_RECENT as u64),
        Horizon::Wide => (MOST_WIDE_PENDING as u64, MOST_WIDE_RECENT as u64),
    }
}

// The fields of each operation on a board.
pub fn fields_of(of: Operation, on: Horizon) -> Fields
    ensures { result ≡ fields_of on of }
{
    let none = Field::Nothing;
    let most = most_lent(on);
    let pending = Field::Number(most.0);
    let recent = Field::Number(most.1);
    let place = Field::Number(MOST_RECENT as u64);
    let counts = Field::Number(MOST_COUNTS as u64);
    let history = Field::Number(MOST_HISTORY as u64);
    let short = Field::Number(MOST_SHORT);
    let long = Field::Number(u64::MAX);
    let id = Field::Bytes(ID_SIZE);
    let some = Field::Bytes(MOST_HISTORY);
    match of {
        Operation::Board => Fields(Field::Board, none, none, none),
        Operation::Lend => Fields(pending, recent, counts, counts),
        Operation::Byte => Fields(Field::Table, place, some, none),
        Operation::Count => Fields(Field::Kind, counts, Field::Pattern, none),
        Operation::State => Fields(Field::Last, short, short, none),
        Operation::Enter => Fields(id, long, short, none),
        Operation::Leave => Fields(id, none, none, none),
        Operation::Block => Fields(short, Field::Ids, none, none),
        Operation::BlockRaw => Fields(short, Field::Any, none, none),
        Operation::Estimate => Fields(short, none, none, none),
        Operation::Bucket => Fields(long, none, none, none),
        Operation::Write => Fields(history, none, none, none),
        Operation::Read => Fields(Field::Any, none, none, none),
        Operation::Start
        | Operation::Estimates
        | Operation::Again
        | Operation::Sum
        | Operation::PassedOver => Fields(none, none, none, none),
    }
}
