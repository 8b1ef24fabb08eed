// The outcome of each call, told in words: the number of documents 01 and 02 is the answer, the state goes into the state's words, and what is carried into
// the first carried word.
ghost use Rattle.std.specs.Prelude.{◌≡◌, ◌≤◌, length};
ghost use Rattle.kinds.specs.Answers.{answer_of, read_answer, write_answer, estimate_answer, length_of};
ghost use Rattle.boundary.specs.Words.{put_ok};
ghost use Rattle.boundary.specs.Calls.{carry, rate_carried, length_carried};

use crate::state::put_state;
use kinds::{Damaged, FeeRate, ReadError, Refusal, State, WriteError};

// The number of a call that leaves a state. Where it is done the state goes into the words; refused, they stay.
pub fn tell<E: Refusal>(words: &mut [u64], answered: Result<State, E>) -> u32
    requires { 4 ≤ length words.old }
    ensures number { result ≡ (answer_of E.answer answered).number }
    ensures words_after { words.new ≡ put_ok answered words.old }
{
    match answered {
        Ok(state) => {
            put_state(words, state);
            0
        }
        Err(refusal) => refusal.number(),
    }
}

// The number of an estimate. It carries the rate, or 0 where there is none.
#[tactic(auto, unfolding(boundary::specs::Calls::rate_carried, boundary::specs::Calls::carry))]
pub fn tell_estimated(carried: &mut [u64], estimated: Result<Option<FeeRate>, Damaged>) -> u32
    requires { 1 ≤ length carried.old }
    ensures number { result ≡ (estimate_answer estimated).number }
    ensures carried_after { carried.new ≡ carry (rate_carried (estimate_answer estimated)) carried.old }
{
    match estimated {
        Ok(Some(rate)) => {
            carried[0] = rate.0;
            0
        }
        Ok(None) => {
            carried[0] = 0;
            0
        }
        Err(damaged) => damaged.number(),
    }
}

// The number of a write. It carries how many bytes were written, or are needed.
#[tactic(auto, unfolding(boundary::specs::Calls::length_carried, boundary::specs::Calls::carry))]
pub fn tell_written(carried: &mut [u64], written: Result<usize, WriteError>) -> u32
    requires { 1 ≤ length carried.old }
    ensures number { result ≡ (write_answer written).number }
    ensures carried_after { carried.new ≡ carry (length_carried (write_answer written) (length_of written)) carried.old }
{
    match written {
        Ok(len) => {
            carried[0] = len as u64;
            0
        }
        Err(WriteError::ShortOutput(needed)) => {
            carried[0] = needed as u64;
            WriteError::ShortOutput(needed).number()
        }
        Err(WriteError::Damaged) => WriteError::Damaged.number(),
    }
}

// Puts the version that a reading does not know into the first word.
#[tactic(auto, unfolding(boundary::specs::Calls::carry))]
fn carry_version(carried: &mut [u64], reading: Result<State, ReadError>)
    requires { 1 ≤ length carried.old }
    ensures { carried.new ≡ carry (read_answer reading).carries carried.old }
{
    if let Err(ReadError::UnknownVersion(version)) = reading {
        carried[0] = version as u64;
    }
}

// The number of a reading. It carries the version, where that is unknown; the state goes into the words where the reading is Done.
pub fn tell_reading(
    words: &mut [u64],
    carried: &mut [u64],
    reading: Result<State, ReadError>,
) -> u32
    requires { (4 ≤ length words.old) × (1 ≤ length carried.old) }
    ensures number { result ≡ (read_answer reading).number }
    ensures words_after { words.new ≡ put_ok reading words.old }
    ensures carried_after { carried.new ≡ carry (read_answer reading).carries carried.old }
{
    carry_version(carried, reading);
    tell(words, reading)
}
