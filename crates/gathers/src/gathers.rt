// The bytes that a line's operation works on, put first into a buffer.
ghost use Rattle.std.specs.Prelude.{◌≡◌};
ghost use Rattle.print.specs.Page.{page};
ghost use Rattle.page.specs.Page.{most_ids};
ghost use Rattle.gathers.specs.Gathers.{decoded, listed, source_of, gathered};

use kinds::ID_SIZE;
use lines::Line;
use page::{MOST_IDS, Operation};
use print::put;
use script::hex::{hex_into, id_in};
use script::words::word_at;

// Where the bytes of a line are.
#[derive(Clone, Copy)]
enum Source {
    // The line has none.
    Nowhere,
    // In the digits of the word that begins here.
    Digits(usize),
    // In the ids from here on.
    Ids(usize),
    // They were kept.
    Kept,
}

// Puts the bytes that the word at `at` says: how many. Of `-`, of any word that is not digits, and of one that has no room, there are none.
#[tactic(auto, unfolding(crate::specs::Gathers::decoded))]
fn decode(text: &[u8], at: usize, buffer: &mut [u8]) -> usize
    ensures { page buffer.new result ≡ decoded text.now at buffer.old }
{
    let word = word_at(text, at);
    hex_into(&text[word], buffer).unwrap_or(0)
}

// Puts the ids from `at` on, one after the other: how many bytes. An id that has no room is not put, and a word that says none is put as zeros.
#[tactic(auto, using(crate::proofs::Gathering::all_listed, crate::proofs::Gathering::id_or_zeros, crate::proofs::Gathering::next_listed))]
fn list_ids(text: &[u8], at: usize, buffer: &mut [u8]) -> usize
    ensures { page buffer.new result ≡ listed most_ids text.now at (page buffer.old 0) }
{
    let mut from = at;
    let mut k = 0;
    for _ in 0..MOST_IDS {
        if text.len() < from {
            break;
        }
        let word = word_at(text, from);
        from = word.end + 1;
        let id = id_in(&text[word]).unwrap_or([0; ID_SIZE]);
        k = put(buffer, k, &id);
    }
    k
}

// Where the bytes of a line are; one that does not fit has none.
fn source_of(line: Option<Line>) -> Source
    ensures { result ≡ source_of line }
{
    let Some(line) = line else {
        return Source::Nowhere;
    };
    match line.operation {
        Operation::Byte => Source::Digits(line.c as usize),
        Operation::Enter | Operation::Leave | Operation::Read => Source::Digits(line.a as usize),
        Operation::BlockRaw => Source::Digits(line.b as usize),
        Operation::Block => Source::Ids(line.b as usize),
        Operation::Again => Source::Kept,
        _ => Source::Nowhere,
    }
}

// Puts the bytes of a line's digits or ids, or those that are kept: how many.
#[tactic(auto, unfolding(crate::specs::Gathers::gathered))]
pub fn gather(line: Option<Line>, text: &[u8], kept: &[u8], buffer: &mut [u8]) -> usize
    ensures { page buffer.new result ≡ gathered line text.now kept.now buffer.old }
{
    match source_of(line) {
        Source::Nowhere => 0,
        Source::Digits(at) => decode(text, at, buffer),
        Source::Ids(at) => list_ids(text, at, buffer),
        Source::Kept => put(buffer, 0, kept),
    }
}
