// What scripts are made of: words, numbers, hexadecimal bytes, sums.
#![tactic(auto)]

pub mod hex;
pub mod numbers;
pub mod sums;
pub mod words;
