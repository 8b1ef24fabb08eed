// The state in four words: whether there is a last height (1 or 0), the height (0 where there is none), and how many pending and confirmed records are
// used. Anything after the four words is neither read nor written. (A flag with a height beside it, and not an Option: the words are C's.)
ghost use Rattle.std.specs.Prelude.{◌≡◌, true, ◌≤◌, ◌<◌, ◌^◌, length};
ghost use Rattle.boundary.specs.Words.{holds_last, holds_state, last_in, state_in, flag_of, height_of, put_state};

use kinds::{Height, State};

// One more than the highest height.
const HEIGHTS: u64 = 4294967296;

// Whether the two words are a last height.
#[tactic(auto, unfolding(boundary::specs::Words::holds_last))]
fn holds_last(flag: u64, height: u64) -> bool
    ensures { result ≡ holds_last flag height }
{
    if flag == 0 {
        return height == 0;
    }
    if flag == 1 {
        return height < HEIGHTS;
    }
    false
}

// Whether the words hold a state.
#[tactic(auto, unfolding(boundary::specs::Words::holds_state))]
pub fn holds_state(words: &[u64]) -> bool
    ensures { result ≡ holds_state words.now }
{
    if words.len() < 4 {
        return false;
    }
    let flag = words[0];
    let height = words[1];
    holds_last(flag, height)
}

// The last height that the two words hold.
#[tactic(auto, unfolding(boundary::specs::Words::last_in))]
fn last_in(flag: u64, height: u64) -> Option<Height>
    requires { height < 2 ^ 32 }
    ensures { result ≡ last_in flag height }
{
    if flag == 0 {
        return None;
    }
    Some(Height(height as u32))
}

// The state that words hold.
#[tactic(auto, using(boundary::proofs::Words::four, boundary::proofs::Words::low), unfolding(boundary::specs::Words::state_in))]
pub fn state_in(words: &[u64]) -> State
    requires { holds_state words.now ≡ true }
    ensures { result ≡ state_in words.now }
{
    let flag = words[0];
    let height = words[1];
    let pending = words[2] as usize;
    let recent = words[3] as usize;
    let last = last_in(flag, height);
    State {
        last,
        pending,
        recent,
    }
}

// Whether there is a last height, as a word.
fn flag_of(last: Option<Height>) -> u64
    ensures { result ≡ flag_of last }
{
    match last {
        None => 0,
        Some(_) => 1,
    }
}

// The last height as a word, or 0 where there is none.
fn height_of(last: Option<Height>) -> u64
    ensures { result ≡ height_of last }
{
    match last {
        None => 0,
        Some(h) => h.0 as u64,
    }
}

// Puts the state into the first four words.
#[tactic(auto, unfolding(boundary::specs::Words::put_state))]
pub(crate) fn put_state(words: &mut [u64], s: State)
    requires { 4 ≤ length words.old }
    ensures { words.new ≡ put_state s words.old }
{
    let last = s.last;
    words[0] = flag_of(last);
    words[1] = height_of(last);
    words[2] = s.pending as u64;
    words[3] = s.recent as u64;
}
