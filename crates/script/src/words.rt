// Words, separated by one space each.
ghost use Rattle.std.specs.Prelude.{◌≡◌, ◌==◌, ◌≤◌, length, position};
ghost use Rattle.script.specs.Words.{word_from};

use std::ops::Range;

// Where the first space stands.
fn space_in(text: &[u8]) -> Option<usize>
    ensures { result ≡ position (λ x. x == 32) text.now }
{
    text.iter().position(|&x| x == b' ')
}

// Where the word that begins at `at` stands: up to the next space, or to the end of the line. Past the end there is the empty word.
pub fn word_at(line: &[u8], at: usize) -> Range<usize>
    ensures value { result ≡ word_from line.now at }
    ensures in_bounds { (result.start ≤ result.end) × (result.end ≤ length line.now) }
{
    let start = at.min(line.len());
    let rest = &line[start..];
    start..start + space_in(rest).unwrap_or(rest.len())
}
