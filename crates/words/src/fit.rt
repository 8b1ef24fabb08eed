// Whether what a call is given beside the state's words fits too.
ghost use Rattle.std.specs.Prelude.{◌≡◌, ◌&&◌, leb, eqb, length};
ghost use Rattle.boundary.specs.Words.{holds_state};

use crate::state::holds_state;

// Whether the words hold a state, and the id is 32 bytes.
pub fn state_and_id(words: &[u64], id: &[u8]) -> bool
    ensures { result ≡ (holds_state words.now && eqb (length id.now) 32) }
{
    holds_state(words) && id.len() == 32
}

// Whether the words hold a state, and there is a word to carry in.
pub fn state_and_word(words: &[u64], carried: &[u64]) -> bool
    ensures { result ≡ (holds_state words.now && leb 1 (length carried.now)) }
{
    holds_state(words) && 1 <= carried.len()
}

// Whether there is room for a state, and a word to carry in.
pub fn room_and_word(words: &[u64], carried: &[u64]) -> bool
    ensures { result ≡ (leb 4 (length words.now) && leb 1 (length carried.now)) }
{
    4 <= words.len() && 1 <= carried.len()
}
