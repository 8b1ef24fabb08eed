// Bytes in pairs of hexadecimal digits, ids and bit patterns.
ghost use Rattle.std.specs.Prelude.{◌≡◌, true, ◌++◌, ◌/◌, ◌≤◌, length, drop, is_some};
ghost use Rattle.std.specs.List.{list_all};
ghost use Rattle.script.specs.Digits.{digit_of};
ghost use Rattle.script.specs.Hex.{is_hex, hex_bytes, filled, hex_into, id_of, pattern_of};

use crate::numbers::{digit, number_in};

// Whether all bytes are hexadecimal digits.
fn all_digits(word: &[u8]) -> bool
    ensures { result ≡ list_all (λ x. is_some (digit_of x)) word.now }
{
    word.iter().all(|&x| digit(x).is_some())
}

// Whether the word is pairs of hexadecimal digits.
#[tactic(auto, unfolding(crate::specs::Hex::is_hex))]
pub fn is_hex(word: &[u8]) -> bool
    ensures { result ≡ is_hex word.now }
{
    word.len() % 2 == 0 && all_digits(word)
}

// Puts the bytes that the pairs say first into out. (By index: over `chunks_exact` zipped with out, the invariant would tell of the rests of two iterators in place of i.)
fn unhex(word: &[u8], out: &mut [u8])
    requires { (is_hex word.now ≡ true) × (length word.now / 2 ≤ length out.old) }
    ensures { out.new ≡ hex_bytes word.now ++ drop (length word.now / 2) out.old }
{
    for i in 0..word.len() / 2 {
        let high = digit(word[2 * i]).unwrap();
        let low = digit(word[2 * i + 1]).unwrap();
        out[i] = high * 16 + low;
    }
}

// Puts the bytes that the word says first into out, if the word is pairs of digits and out has room for them: how many. Else nothing is put.
pub fn hex_into(word: &[u8], out: &mut [u8]) -> Option<usize>
    ensures { filled result out.new ≡ hex_into word.now out.old }
{
    let n = word.len() / 2;
    if out.len() < n || !is_hex(word) {
        return None;
    }
    unhex(word, out);
    Some(n)
}

// The id that the word says: 1 to 32 bytes, and zeros at the right.
pub fn id_in(word: &[u8]) -> Option<[u8; 32]>
    ensures { result ≡ id_of word.now }
{
    if word.is_empty() {
        return None;
    }
    let mut bytes = [0u8; 32];
    hex_into(word, &mut bytes)?;
    Some(bytes)
}

// The 64 bits that 16 hexadecimal digits say, the highest first.
#[tactic(auto, unfolding(crate::specs::Hex::pattern_of))]
pub fn pattern_in(word: &[u8]) -> Option<u64>
    ensures { result ≡ pattern_of word.now }
{
    if word.len() == 16 {
        return number_in(word, 16, u64::MAX);
    }
    None
}
