// Runs a script on standard input over memory of its own, and writes what each line is answered with. What a line asks for is read by `lines`, and done by
// `desk`, over as much of the memory as is lent; this program has the loop, the questions and the words.
// `run`: line by line. `asks`: what changes nothing. `says`: what is written. `parts`: numbers and slices cut to what there is.
#![tactic(auto)]

use buffers::{read_full, zeros};
use page::{
    MOST_COUNTS, MOST_HISTORY, MOST_PENDING, MOST_RECENT, MOST_SCRIPT, MOST_WIDE_PENDING,
    MOST_WIDE_RECENT,
};
use std::io;

mod asks;
mod parts;
mod run;
mod says;

// The bytes of a script that are read, one more than the longest has, by which a longer one is known.
const SCRIPT: usize = MOST_SCRIPT + 1;

// The bytes for the pending records of both boards, and for their confirmed records.
const PENDING: usize = MOST_PENDING + MOST_WIDE_PENDING;

const RECENT: usize = MOST_RECENT + MOST_WIDE_RECENT;

// Reads the script, lends the memory, and runs it.
fn main(rt: HostRuntime) -> io::Result<()> {
    let mut script = zeros::<SCRIPT>();
    let n = read_full(&mut rt.reader(), &mut script)?;
    if MOST_SCRIPT < n {
        return println!(rt; "bad line 0");
    }
    let mut pending = zeros::<PENDING>();
    let mut recent = zeros::<RECENT>();
    let mut confirmed = [0.0f64; 2 * MOST_COUNTS];
    let mut resolved = [0.0f64; 2 * MOST_COUNTS];
    let mut buffer = zeros::<MOST_HISTORY>();
    let mut kept = zeros::<MOST_HISTORY>();
    run::run(
        &rt,
        &script[..n],
        &mut pending,
        &mut recent,
        &mut confirmed,
        &mut resolved,
        &mut buffer,
        &mut kept,
    )
}
