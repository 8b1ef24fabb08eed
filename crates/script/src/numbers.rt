// Numbers in decimal and hexadecimal digits.
ghost use Rattle.std.specs.Prelude.{◌≡◌, ◌≤◌, ◌<◌};
ghost use Rattle.script.specs.Digits.{digit_of, number_of};

// The value of a digit; a capital letter is none, which std's `to_digit` takes too.
#[tactic(auto, unfolding(crate::specs::Digits::digit))]
pub(crate) fn digit(x: u8) -> Option<u8>
    ensures { result ≡ digit_of x }
{
    match x {
        b'0'..=b'9' => Some(x - b'0'),
        b'a'..=b'f' => Some(x - b'a' + 10),
        _ => None,
    }
}

// The number that the word's digits say in that base, at most `most`.
pub fn number_in(word: &[u8], base: u64, most: u64) -> Option<u64>
    requires { (0 < base) × (base ≤ 16) }
    ensures { result ≡ number_of base most word.now }
{
    if word.is_empty() {
        return None;
    }
    let mut n: u64 = 0;
    for &x in word {
        let d = digit(x)? as u64;
        if base <= d {
            return None;
        }
        n = n.checked_mul(base)?.checked_add(d)?;
        if most < n {
            return None;
        }
    }
    Some(n)
}
