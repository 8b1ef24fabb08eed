// Reads a history file of either board on standard input, one as large as a node's, and prints what `show` prints, for the targets of that board's columns. With
// `--chain N` it first says whether the file goes with a chain of height N. How it is read is in `views`, what is printed in `report` and `premise`.
#![tactic(auto)]

ghost use Rattle.std.specs.Prelude.{◌≡◌};
ghost use Rattle.inspect.specs.Words.{chain_of};

use kinds::Height;
use report::PAGE;
use script::numbers::number_in;
use std::env::FillError;
use std::io;
use std::rt::Env;

// The chain's height that a word says, of 32 bits.
#[tactic(auto, unfolding(crate::specs::Words::chain_of))]
fn chain_of(word: &[u8]) -> Option<Height>
    ensures { result ≡ chain_of word.now }
{
    let n = number_in(word, 10, u32::MAX as u64)?;
    Some(Height(n as u32))
}

// Whether there is a word of that number; the program's name is number 0.
fn has_word(rt: &impl Env, number: usize) -> bool {
    let mut word = [0u8; 1];
    match rt.arg(number, &mut word) {
        Err(FillError::NotPresent) => false,
        _ => true,
    }
}

// Whether there are two words after the program's name, and the first is `--chain`.
fn names_chain(rt: &impl Env) -> bool {
    if !has_word(rt, 2) || has_word(rt, 3) {
        return false;
    }
    let mut word = [0u8; 8];
    let Ok(n) = rt.arg(1, &mut word) else {
        return false;
    };
    &word[..n] == b"--chain".as_slice()
}

// The chain's height that the second word says.
fn told_chain(rt: &impl Env) -> Option<Height> {
    let mut word = [0u8; 16];
    let n = rt.arg(2, &mut word).ok()?;
    chain_of(&word[..n])
}

// Reads the file, and prints what it tells. (No contract can say what is read or written.)
fn inspect(rt: HostRuntime, chain: Option<Height>) -> io::Result<()> {
    let mut page = [0u8; PAGE];
    let k = views::inspect(&mut rt.reader(), chain, &mut page)?;
    if rt.write_all(&page[..k]).is_err() {
        eprintln!(rt; "inspect: the output is lost")?;
    }
    Ok(())
}

// Says which words there may be.
fn refuse(rt: &impl Eprint) -> io::Result<()> {
    eprintln!(rt; "inspect: expected no word, or --chain and a height from 0 to 4294967295")
}

// No word, or `--chain` and a height.
fn main(rt: HostRuntime) -> io::Result<()> {
    if !has_word(&rt, 1) {
        return inspect(rt, None);
    }
    if names_chain(&rt) {
        let chain = told_chain(&rt);
        if chain.is_some() {
            return inspect(rt, chain);
        }
    }
    refuse(&rt)
}
